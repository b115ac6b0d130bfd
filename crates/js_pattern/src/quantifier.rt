//! How often an atom is repeated.
//!
//! Reading a quantifier takes one look at each of its characters, and memory for one node.

ghost use Rattle.std.specs.Prelude.{◌≡◌, ◌+◌, ◌<◌, ◌≤◌, ◌^◌, length, option_map, Ok, true};
ghost use Rattle.std.specs.Option.{IfSome};
ghost use Rattle.std.specs.Result.{IfOk, IfErr};
ghost use Rattle.js_pattern.specs.Quantifiers.{braces, quantifier, quantified, judged};
ghost use Rattle.js_pattern.specs.View.{view, cut_bounds, IsFault};

use crate::fault::PatternFault;
use crate::re::Re;
use crate::scan::{digits, is_at, skip};
use std::alloc::Global;

/// The greatest number that a quantifier may have.
const WIDEST: u32 = 16384;

/// What a quantifier says: the least and the greatest number, and how many characters follow its first one.
#[derive(Clone, Copy)]
pub(crate) struct Bounds {
    pub(crate) low: u32,
    pub(crate) high: Option<u32>,
    pub(crate) taken: usize,
}

/// What follows a `{`, where that begins a quantifier.
fn braces(text: &[char]) -> Option<Bounds>
    ensures value { result ≡ option_map cut_bounds (braces text.now) }
    ensures within { IfSome result (λ bounds. bounds.taken ≤ length text.now) }
{
    let (low, low_count) = digits(text, 10);
    if low_count == 0 {
        return None;
    }
    if is_at(text, low_count, '}') {
        return Some(Bounds {
            low,
            high: Some(low),
            taken: low_count + 1,
        });
    }
    if !is_at(text, low_count, ',') {
        return None;
    }
    let (high, high_count) = digits(skip(text, low_count + 1), 10);
    if !is_at(text, low_count + 1 + high_count, '}') {
        return None;
    }
    Some(Bounds {
        low,
        high: if high_count == 0 { None } else { Some(high) },
        taken: low_count + high_count + 2,
    })
}

/// The quantifier that a character begins, if it begins one.
pub(crate) fn quantifier(first: char, rest: &[char]) -> Option<Bounds>
    ensures value { result ≡ option_map cut_bounds (quantifier first rest.now) }
    ensures within { IfSome result (λ bounds. bounds.taken ≤ length rest.now) }
{
    let (low, high) = match first {
        '*' => (0, None),
        '+' => (1, None),
        '?' => (0, Some(1)),
        '{' => return braces(rest),
        _ => return None,
    };
    Some(Bounds {
        low,
        high,
        taken: 0,
    })
}

/// Whether the numbers are small enough and in order.
fn judge(bounds: Bounds, at: usize) -> Result<(), PatternFault>
    ensures { result ≡ judged at bounds }
{
    if bounds.low > WIDEST {
        return Err(PatternFault::RepeatTooWide(at));
    }
    if let Some(high) = bounds.high {
        if high > WIDEST {
            return Err(PatternFault::RepeatTooWide(at));
        }
        if high < bounds.low {
            return Err(PatternFault::QuantifierOrder(at));
        }
    }
    Ok(())
}

/// The tree with the quantifier that the text begins with, at the place `at`, and how many characters that takes.
pub(crate) fn quantify(
    alloc: Global,
    tree: Re,
    text: &[char],
    at: usize,
) -> Result<(Re, usize), PatternFault>
    ensures value { IfOk result (λ r. quantified (view tree) at text.now ≡ Ok (view r.0, r.1)) }
    ensures fault { IfErr result (λ fault. IsFault fault (quantified (view tree) at text.now)) }
    ensures within { IfOk result (λ r. r.1 ≤ length text.now) }
{
    let Some((first, rest)) = text.split_first() else {
        return Ok((tree, 0));
    };
    let Some(bounds) = quantifier(*first, rest) else {
        return Ok((tree, 0));
    };
    judge(bounds, at)?;
    let lazy = usize::from(is_at(rest, bounds.taken, '?'));
    let inner = Box::new(alloc, tree)?;
    let tree = Re::Repeat(inner, bounds.low, bounds.high);
    Ok((tree, 1 + bounds.taken + lazy))
}
