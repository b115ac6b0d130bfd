//! The set of a class, made of its pieces.

ghost use Rattle.std.specs.Prelude.{◌≡◌, ◌&&◌, ℕ, Bool, IfOk};
ghost use Rattle.patterns.specs.CharSet.{has, is_scalar};
ghost use Rattle.js_automaton.specs.Pieces.{AreNumbered, HaveNumbers, AreRanges, HavePieces};

use crate::pieces::count_before;
use js_pattern::{CharSet, Memory};
use std::alloc::Global;

/// The characters of the pieces that have the number of the piece of `c`.
pub(crate) fn class_of(
    alloc: Global,
    starts: &[u32],
    numbers: &[usize],
    c: char,
) -> Result<CharSet, Memory>
    requires { HaveNumbers starts.now numbers.now }
    ensures { IfOk result (λ set. (test : ℕ → ℕ → Bool) → AreNumbered test starts.now numbers.now
        → (d : ℕ) → has set d ≡ (is_scalar d && test c d)) }
{
    let count = count_before(starts, c as u32 + 1);
    let ranges = ranges_of(alloc, starts, numbers, numbers[count - 1])?;
    set_of(alloc, &ranges)
}

/// The pieces of a number, as ranges, without those of surrogates.
fn ranges_of(
    alloc: Global,
    starts: &[u32],
    numbers: &[usize],
    here: usize,
) -> Result<Vec<(u32, u32)>, Memory>
    requires { HaveNumbers starts.now numbers.now }
    ensures ranges { IfOk result (λ ranges. AreRanges ranges.items) }
    ensures pieces { IfOk result (λ ranges. HavePieces starts.now numbers.now here ranges.items) }
{
    let mut ranges = Vec::new(alloc);
    for (i, number) in numbers.iter().enumerate() {
        if *number == here && is_character(starts[i]) {
            ranges.push((starts[i], starts[i + 1] - 1))?;
        }
    }
    Ok(ranges)
}

fn is_character(code: u32) -> bool
    ensures { result ≡ is_scalar code }
{
    code < 0xd800 || 0xdfff < code && code < 0x110000
}

/// The set of the characters that lie in one of the ranges, made of its halves.
fn set_of(alloc: Global, ranges: &[(u32, u32)]) -> Result<CharSet, Memory>
    requires { AreRanges ranges.now }
    ensures { IfOk result (λ set. (c : ℕ) → has set c ≡ has ranges.now c) }
{
    match ranges.len() {
        0 => CharSet::from_slice(alloc, &[]),
        1 => CharSet::from_slice(alloc, ranges),
        n => {
            let left = set_of(alloc, &ranges[..n / 2])?;
            let right = set_of(alloc, &ranges[n / 2..])?;
            left.union(&right)
        }
    }
}
