//! Sets of characters, as ranges of scalar values.
//!
//! A set has one list of ranges: they rise, no two meet, and no surrogate lies in one. So contracts see a set as that
//! list, and sets with the same members are equal. Making a set of n ranges takes n log n steps.

ghost use Rattle.std.specs.Prelude.{◌≡◌, ℕ, ◌≤◌, Bool, true, false, ◌&&◌, ◌||◌, not, List, [], ◌∷◌, IfOk, IsTrue, ◌↔◌, length};
ghost use Rattle.std.specs.Option.{IfSome, IsNone, MatchOption};
ghost use Rattle.patterns.specs.CharSet.{has, is_scalar, are_ranges, set_of, complement_of, count_below, comes_no_later};
ghost use Rattle.pattern_laws.specs.Laws.{every_range};
ghost use Rattle.js_pattern.specs.Order.{NextAfter};

use crate::fault::Memory;
use crate::order::next_after;
use crate::range_list::RangeList;
use crate::ranges::{first_within, gaps, is_range, join, width, with_range};
use std::alloc::Global;
use std::marker::Model;

/// A set of characters.
#[derive(Drop)]
pub struct CharSet {
    ranges: Vec<(u32, u32)>,
}

impl Model for CharSet {
    ghost use Rattle.std.specs.Prelude.{◌≡◌, ℕ, List, true};
    ghost use Rattle.patterns.specs.CharSet.{are_ranges};

    ghost Value = { List (ℕ × ℕ) };

    ghost view = { λ s. s.ranges.items };

    ghost invariant = { λ s. are_ranges 0 s.ranges.items ≡ true };
}

impl CharSet {
    /// Whether the character is a member.
    pub fn contains(&self, c: char) -> bool
        ensures { result ≡ has self.now c }
    {
        let code = c as u32;
        self.ranges
            .iter()
            .any(|range| range.0 <= code && code <= range.1)
    }

    /// The set's ranges in order, each with its first and its last character.
    pub fn as_slice(&self) -> &[(u32, u32)]
        ensures { result.now ≡ self.now }
    {
        &self.ranges
    }

    /// The set that has these ranges; `is_set` tests what they must be.
    pub fn from_slice(alloc: Global, ranges: &[(u32, u32)]) -> Result<Self, Memory>
        requires { are_ranges 0 ranges.now ≡ true }
        ensures { IfOk result (λ set. set ≡ ranges.now) }
    {
        let ranges = Vec::from_slice(alloc, ranges)?;
        Ok(CharSet { ranges })
    }

    /// Whether these are the ranges of a set: each has its first and its last character, they rise, no two meet, and no
    /// surrogate lies in one.
    pub fn is_set(ranges: &[(u32, u32)]) -> bool
        ensures { result ≡ are_ranges 0 ranges.now }
    {
        let mut low = 0;
        for range in ranges {
            if range.0 < low || !is_range(*range) {
                return false;
            }
            low = range.1 + 2;
        }
        true
    }

    /// A copy, which takes memory of its own.
    pub fn copy(&self, alloc: Global) -> Result<Self, Memory>
        ensures { IfOk result (λ set. set ≡ self.now) }
    {
        Self::from_slice(alloc, &self.ranges)
    }

    /// Whether the sets have the same members: a set has one list of ranges.
    pub fn same(&self, other: &Self) -> bool
        ensures { IsTrue result ↔ (self.now ≡ other.now) }
    {
        self.ranges == other.ranges
    }

    /// The characters that the set lacks.
    pub fn complement(&self) -> Result<Self, Memory>
        ensures value { IfOk result (λ rest. rest ≡ complement_of self.now) }
        ensures members { IfOk result (λ rest. (c : ℕ) → has rest c ≡ is_scalar c && not (has self.now c)) }
    {
        let alloc = *self.ranges.allocator();
        let taken = with_range(alloc, &self.ranges, (0xd800, 0xdfff))?;
        let ranges = gaps(alloc, &taken)?;
        Ok(CharSet { ranges })
    }

    /// The members of both sets.
    pub fn union(&self, other: &Self) -> Result<Self, Memory>
        ensures { IfOk result (λ both. (c : ℕ) → has both c ≡ has self.now c || has other.now c) }
    {
        let alloc = *self.ranges.allocator();
        let mut ranges = Vec::from_slice(alloc, &self.ranges)?;
        ranges.extend_from_slice(&other.ranges)?;
        Self::from_ranges(alloc, ranges)
    }

    /// The number of members.
    pub fn width(&self) -> u32
        ensures { result ≡ count_below (has self.now) 0x110000 }
    {
        width(&self.ranges)
    }

    /// The first member in the order in which words are made: a to z, A to Z, 0 to 9, what else ASCII prints, the rest.
    pub fn first(&self) -> Option<char>
        ensures member { IfSome result (λ c. has self.now c ≡ true) }
        ensures least { IfSome result (λ c. (d : ℕ) → has self.now d ≡ true → comes_no_later c d ≡ true) }
        ensures none { IsNone result ↔ (self.now ≡ []) }
    {
        if let Some(c) = first_within(&self.ranges, 0x61, 0x7a) {
            return Some(c);
        }
        if let Some(c) = first_within(&self.ranges, 0x41, 0x5a) {
            return Some(c);
        }
        if let Some(c) = first_within(&self.ranges, 0x30, 0x39) {
            return Some(c);
        }
        if let Some(c) = first_within(&self.ranges, 0x20, 0x7e) {
            return Some(c);
        }
        first_within(&self.ranges, 0, 0x10ffff)
    }

    /// The first member that comes after `c` in that order, and none exactly where no member does. With `first`, it
    /// goes through the members one after another. `c` needn't be a member. A call takes time in the number of ranges.
    pub fn next_after(&self, c: char) -> Option<char>
        ensures { NextAfter self.now c result }
    {
        next_after(&self.ranges, c)
    }

    /// The set of the characters that lie in one of the ranges.
    pub(crate) fn from_ranges(alloc: Global, mut ranges: Vec<(u32, u32)>) -> Result<Self, Memory>
        requires { every_range ranges.items ≡ true }
        ensures { IfOk result (λ set. set ≡ set_of ranges.items) }
    {
        ranges.sort_unstable();
        let ranges = join(alloc, &ranges)?;
        Ok(CharSet { ranges })
    }

    /// The set of the ranges of a class.
    pub(crate) fn from_list(alloc: Global, list: RangeList) -> Result<Self, Memory>
        ensures { IfOk result (λ set. set ≡ set_of list.ranges.items) }
    {
        let RangeList { ranges } = list;
        Self::from_ranges(alloc, ranges)
    }

    /// The set of one character.
    pub(crate) fn from_char(alloc: Global, c: char) -> Result<Self, Memory>
        ensures { IfOk result (λ set. set ≡ (c, c) ∷ []) }
    {
        let mut ranges = Vec::new(alloc);
        ranges.push((c as u32, c as u32))?;
        Ok(CharSet { ranges })
    }
}
