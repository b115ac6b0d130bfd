//! A term: an assertion, or an atom with its quantifier, other than a group.

ghost use Rattle.std.specs.Prelude.{◌≡◌, ◌+◌, ◌<◌, ◌≤◌, ◌^◌, length, Ok};
ghost use Rattle.std.specs.Result.{IfOk, IfErr};
ghost use Rattle.js_pattern.specs.Grammar.{opening, set_of_escape, atom, quantified_atom, term};
ghost use Rattle.js_pattern.specs.View.{view, IsFault};

use crate::char_set::CharSet;
use crate::class::read_class;
use crate::escape::{Escape, read_escape};
use crate::fault::{Memory, PatternFault, PatternForm};
use crate::quantifier::{quantifier, quantify};
use crate::re::Re;
use crate::scan::{is_at, skip};
use std::alloc::Global;

/// Every character but the line ends.
static DOT: [(u32, u32); 5] = [
    (0, 0x9),
    (0xb, 0xc),
    (0xe, 0x2027),
    (0x202a, 0xd7ff),
    (0xe000, 0x10ffff),
];

/// How many characters belong to the opening of a group after its `(`, which is at the place `at`.
pub(crate) fn opening(text: &[char], at: usize) -> Result<usize, PatternFault>
    ensures value { result ≡ opening at text.now }
    ensures within { IfOk result (λ n. n ≤ length text.now) }
{
    if !is_at(text, 0, '?') {
        return Ok(0);
    }
    if is_at(text, 1, ':') {
        return Ok(2);
    }
    if is_at(text, 1, '=') || is_at(text, 1, '!') {
        return Err(PatternFault::Unsupported(at, PatternForm::Lookaround));
    }
    if !is_at(text, 1, '<') {
        return Err(PatternFault::Syntax(at));
    }
    if is_at(text, 2, '=') || is_at(text, 2, '!') {
        return Err(PatternFault::Unsupported(at, PatternForm::Lookaround));
    }
    Err(PatternFault::Unsupported(at, PatternForm::NamedGroup))
}

/// The tree of one character.
fn character(alloc: Global, c: char) -> Result<Re, Memory>
    ensures { IfOk result (λ tree. view tree ≡ set_of_escape (Escape.Character c)) }
{
    Ok(Re::Set(CharSet::from_char(alloc, c)?))
}

/// The tree of an escape.
fn escaped(alloc: Global, escape: Escape) -> Result<Re, Memory>
    ensures { IfOk result (λ tree. view tree ≡ set_of_escape escape) }
{
    match escape {
        Escape::Character(c) => character(alloc, c),
        Escape::Class(class) => Ok(Re::Set(CharSet::from_slice(alloc, class.ranges())?)),
    }
}

/// Reads an atom, whose first character is at the place `at`. Answers how many characters follow that.
fn read_atom(
    alloc: Global,
    first: char,
    rest: &[char],
    at: usize,
) -> Result<(Re, usize), PatternFault>
    requires { at + 1 + length rest.now < 2 ^ 64 }
    ensures value { IfOk result (λ r. atom at first rest.now ≡ Ok (view r.0, r.1)) }
    ensures fault { IfErr result (λ fault. IsFault fault (atom at first rest.now)) }
    ensures within { IfOk result (λ r. r.1 ≤ length rest.now) }
{
    match first {
        '.' => Ok((Re::Set(CharSet::from_slice(alloc, &DOT)?), 0)),
        '\\' => {
            let (escape, taken) = read_escape(rest, at)?;
            Ok((escaped(alloc, escape)?, taken))
        }
        '[' => {
            let (set, taken) = read_class(alloc, rest, at)?;
            Ok((Re::Set(set), taken))
        }
        _ => {
            if quantifier(first, rest).is_some() {
                return Err(PatternFault::Syntax(at));
            }
            Ok((character(alloc, first)?, 0))
        }
    }
}

/// Reads an atom and its quantifier.
fn read_quantified(
    alloc: Global,
    first: char,
    rest: &[char],
    at: usize,
) -> Result<(Re, usize), PatternFault>
    requires { at + 1 + length rest.now < 2 ^ 64 }
    ensures value { IfOk result (λ r. quantified_atom at first rest.now ≡ Ok (view r.0, r.1)) }
    ensures fault { IfErr result (λ fault. IsFault fault (quantified_atom at first rest.now)) }
    ensures within { IfOk result (λ r. r.1 ≤ length rest.now) }
{
    let (atom, taken) = read_atom(alloc, first, rest, at)?;
    let (tree, more) = quantify(alloc, atom, skip(rest, taken), at + 1 + taken)?;
    Ok((tree, taken + more))
}

/// Reads a term that is no group.
pub(crate) fn read_term(
    alloc: Global,
    first: char,
    rest: &[char],
    at: usize,
) -> Result<(Re, usize), PatternFault>
    requires { at + 1 + length rest.now < 2 ^ 64 }
    ensures value { IfOk result (λ r. term at first rest.now ≡ Ok (view r.0, r.1)) }
    ensures fault { IfErr result (λ fault. IsFault fault (term at first rest.now)) }
    ensures within { IfOk result (λ r. r.1 ≤ length rest.now) }
{
    match first {
        '^' => Ok((Re::Start, 0)),
        '$' => Ok((Re::End, 0)),
        _ => read_quantified(alloc, first, rest, at),
    }
}
