//! Number groups, and what is known of their numbers.

ghost use Rattle.std.specs.Prelude.{◌≡◌, ◌&&◌};

use crate::number::{is_above, is_below};
use js_doc::NumList;

/// Bounds, divisors and sets that a whole number must have, and divisors and sets that it must not have. All lists are
/// borrowed, so a group is made without copying one.
#[derive(Clone, Copy)]
pub struct NumGroup<'a> {
    pub lo: Option<i128>,
    pub hi: Option<i128>,
    pub multiples: &'a [u64],
    pub not_multiples: &'a [u64],
    pub sets: &'a [&'a NumList],
    pub not_sets: &'a [&'a NumList],
}

/// What is known of a group's numbers.
#[derive(Clone, Copy, PartialEq, Eq, Debug)]
pub enum Cases {
    /// The first candidate that meets the group.
    Found(i128),
    /// No whole number meets the group.
    Empty,
    /// The least common multiple, or the next candidate, is over 2^127-1 in size.
    LimitMultiples,
    /// As many candidates as may be struck don't meet the group, and another one remains.
    LimitCandidates,
}

impl NumGroup<'_> {
    ghost use Rattle.number_groups.specs.Group.{is_above, is_below, is_crossed};

    pub(crate) fn is_within(&self, x: i128) -> bool
        ensures { result ≡ (is_above self.now.lo x && is_below self.now.hi x) }
    {
        is_above(self.lo, x) && is_below(self.hi, x)
    }

    pub(crate) fn is_crossed(&self) -> bool
        ensures { result ≡ is_crossed self.now.lo self.now.hi }
    {
        match (self.lo, self.hi) {
            (Some(low), Some(high)) => high < low,
            _ => false,
        }
    }
}
