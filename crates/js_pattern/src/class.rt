//! A class: what is between `[` and `]`.
//!
//! Reading a class looks at each character once, but for an escape after a `-`, which may be read twice. Its ranges
//! are sorted at the end.

ghost use Rattle.std.specs.Prelude.{◌≡◌, ◌+◌, ◌<◌, ◌≤◌, ◌^◌, length, Ok};
ghost use Rattle.std.specs.Result.{IfOk, IfErr};
ghost use Rattle.js_pattern.specs.Classes.{class_atom, range_from, item, items, class};
ghost use Rattle.js_pattern.specs.View.{AddsItem, IsFault};

use crate::char_set::CharSet;
use crate::escape::{Escape, read_escape};
use crate::fault::PatternFault;
use crate::range_list::RangeList;
use crate::scan::{is_at, skip};
use std::alloc::Global;

/// A member of a class, whose first character is at the place `at`.
fn class_atom(first: char, rest: &[char], at: usize) -> Result<(Escape, usize), PatternFault>
    ensures value { result ≡ class_atom at first rest.now }
    ensures within { IfOk result (λ r. r.1 ≤ length rest.now) }
{
    if first == '\\' {
        read_escape(rest, at)
    } else {
        Ok((Escape::Character(first), 0))
    }
}

/// Reads on after a character and a `-`, at the right end of the range, if that is a character.
fn read_range(
    list: &mut RangeList,
    low: char,
    text: &[char],
    taken: usize,
    at: usize,
    end: usize,
) -> Result<usize, PatternFault>
    requires { taken + length text.now < 2 ^ 64 }
    ensures adds { AddsItem list.old.ranges.items list.new.ranges.items (range_from at low taken end text.now) result }
    ensures within { IfOk result (λ n. n ≤ taken + length text.now) }
{
    let Some((first, rest)) = text.split_first() else {
        list.push(low)?;
        list.push('-')?;
        return Ok(taken);
    };
    let (escape, count) = class_atom(*first, rest, end)?;
    match escape {
        Escape::Class(_) => {
            list.push(low)?;
            list.push('-')?;
            Ok(taken)
        }
        Escape::Character(high) => {
            if high < low {
                return Err(PatternFault::RangeOrder(at));
            }
            list.push_span(low, high)?;
            Ok(taken + 1 + count)
        }
    }
}

/// Reads an item of a class, whose first character is at the place `at`. Answers how many characters follow that.
fn read_item(
    list: &mut RangeList,
    first: char,
    rest: &[char],
    at: usize,
) -> Result<usize, PatternFault>
    requires { at + 1 + length rest.now < 2 ^ 64 }
    ensures adds { AddsItem list.old.ranges.items list.new.ranges.items (item at first rest.now) result }
    ensures within { IfOk result (λ n. n ≤ length rest.now) }
{
    let (escape, taken) = class_atom(first, rest, at)?;
    let hyphen = is_at(rest, taken, '-');
    match escape {
        Escape::Class(class) => {
            list.push_class(class)?;
            if hyphen {
                list.push('-')?;
                return Ok(taken + 1);
            }
            Ok(taken)
        }
        Escape::Character(low) => {
            if hyphen && !is_at(rest, taken + 1, ']') {
                let text = &rest[taken + 1..];
                return read_range(list, low, text, taken + 1, at, at + taken + 2);
            }
            list.push(low)?;
            Ok(taken)
        }
    }
}

/// Reads the items of a class and its closing bracket. The text begins at the place `at`.
fn read_items(alloc: Global, text: &[char], at: usize) -> Result<(RangeList, usize), PatternFault>
    requires { at + length text.now < 2 ^ 64 }
    ensures value { IfOk result (λ r. items 0 at text.now ≡ Ok (r.0.ranges.items, r.1)) }
    ensures fault { IfErr result (λ fault. IsFault fault (items 0 at text.now)) }
    ensures within { IfOk result (λ r. r.1 ≤ length text.now) }
{
    let mut list = RangeList::new(alloc);
    let mut taken = 0;
    while taken < text.len() {
        let first = text[taken];
        if first == ']' {
            return Ok((list, taken + 1));
        }
        let rest = skip(text, taken + 1);
        let count = read_item(&mut list, first, rest, at + taken)?;
        taken += 1 + count;
    }
    Err(PatternFault::Syntax(at + text.len()))
}

/// Reads a class, whose `[` is at the place `at`, before the text.
pub(crate) fn read_class(
    alloc: Global,
    text: &[char],
    at: usize,
) -> Result<(CharSet, usize), PatternFault>
    requires { at + 1 + length text.now < 2 ^ 64 }
    ensures value { IfOk result (λ r. class at text.now ≡ Ok r) }
    ensures fault { IfErr result (λ fault. IsFault fault (class at text.now)) }
    ensures within { IfOk result (λ r. r.1 ≤ length text.now) }
{
    if is_at(text, 0, '^') {
        let (list, taken) = read_items(alloc, &text[1..], at + 2)?;
        let set = CharSet::from_list(alloc, list)?.complement()?;
        return Ok((set, 1 + taken));
    }
    let (list, taken) = read_items(alloc, text, at + 1)?;
    Ok((CharSet::from_list(alloc, list)?, taken))
}
