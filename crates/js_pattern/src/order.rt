//! The order in which words are made: a to z, A to Z, 0 to 9, what else ASCII prints, and the rest by number.

ghost use Rattle.std.specs.Prelude.{◌≡◌, true};
ghost use Rattle.patterns.specs.CharSet.{are_ranges, group_of};
ghost use Rattle.js_pattern.specs.Order.{NextAfter, NextWithin, IsOneGroup};

use crate::ranges::first_within;

/// Characters from a first to a last one, of one group each, in the order in which words are made.
const SPANS: [(u32, u32); 9] = [
    (0x61, 0x7a),
    (0x41, 0x5a),
    (0x30, 0x39),
    (0x20, 0x2f),
    (0x3a, 0x40),
    (0x5b, 0x60),
    (0x7b, 0x7e),
    (0, 0x1f),
    (0x7f, 0x10ffff),
];

/// The first member of a set that comes after `c`.
pub(crate) fn next_after(ranges: &[(u32, u32)], c: char) -> Option<char>
    requires { are_ranges 0 ranges.now ≡ true }
    ensures { NextAfter ranges.now c result }
{
    for span in &SPANS {
        if let Some(next) = next_within(ranges, c, *span) {
            return Some(next);
        }
    }
    None
}

/// The first member of a span that comes after `c`.
fn next_within(ranges: &[(u32, u32)], c: char, span: (u32, u32)) -> Option<char>
    requires set { are_ranges 0 ranges.now ≡ true }
    requires group { IsOneGroup span }
    ensures { NextWithin ranges.now c span result }
{
    let code = c as u32;
    let group = group_of(span.0);
    let passed = group_of(code);
    if group < passed {
        return None;
    }
    let low = if group == passed {
        span.0.max(code + 1)
    } else {
        span.0
    };
    first_within(ranges, low, span.1)
}

/// The place of a character's group.
fn group_of(code: u32) -> u32
    ensures { result ≡ group_of code }
{
    match code {
        0x61..=0x7a => 0,
        0x41..=0x5a => 1,
        0x30..=0x39 => 2,
        0x20..=0x7e => 3,
        _ => 4,
    }
}
