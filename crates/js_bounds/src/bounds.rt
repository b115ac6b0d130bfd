//! The bounds of counts and lengths.

ghost use Rattle.std.specs.Prelude.{◌≡◌, ◌≤◌, ◌^◌, map, true};
ghost use Rattle.frames.specs.Frame as F;
ghost use Rattle.frames.specs.ArrayFrame as A;
ghost use Rattle.frames.specs.ObjectFrame as O;
ghost use Rattle.finders.specs.Strings as S;
ghost use Rattle.js_algebra.specs.View.{signed_view, are_in_table};

use crate::{arrays, objects, strings};
use js_algebra::{Core, Signed};

/// A count is at least `lower`, and less than `below`.
#[derive(Clone, Copy)]
pub struct Bounds {
    pub lower: u128,
    /// The first count that is too many.
    pub below: Option<u128>,
}

impl Bounds {
    /// How many characters a string may have.
    pub fn of_strings(core: &Core, set: &[Signed]) -> Bounds
        requires { are_in_table core.now.positions (map signed_view set.now) ≡ true }
        ensures lower { result.lower ≡ S.lower core.now.positions (map signed_view set.now) }
        ensures below { result.below ≡ S.below core.now.positions (map signed_view set.now) }
        ensures few { result.lower ≤ 2 ^ 64 }
    {
        let mut lower = 0;
        let mut below = None;
        for x in set {
            lower = lower.max(strings::lower_at(core, *x));
            below = lesser(below, strings::below_at(core, *x));
        }
        Bounds { lower, below }
    }

    /// How many elements an array may have.
    pub fn of_arrays(core: &Core, set: &[Signed]) -> Bounds
        requires { are_in_table core.now.positions (map signed_view set.now) ≡ true }
        ensures lower { result.lower ≡ A.lower core.now.positions (map signed_view set.now) }
        ensures below { result.below ≡ A.below core.now.positions (map signed_view set.now) }
        ensures few { result.lower ≤ 2 ^ 64 }
    {
        let mut lower = 0;
        let mut below = None;
        for x in set {
            lower = lower.max(arrays::lower_at(core, *x));
            below = lesser(below, arrays::below_at(core, *x));
        }
        Bounds { lower, below }
    }

    /// How many members an object may have.
    pub fn of_objects(core: &Core, set: &[Signed]) -> Bounds
        requires { are_in_table core.now.positions (map signed_view set.now) ≡ true }
        ensures lower { result.lower ≡ O.lower core.now.positions (map signed_view set.now) }
        ensures below { result.below ≡ O.below core.now.positions (map signed_view set.now) }
        ensures few { result.lower ≤ 2 ^ 64 }
    {
        let mut lower = 0;
        let mut below = None;
        for x in set {
            lower = lower.max(objects::lower_at(core, *x));
            below = lesser(below, objects::below_at(core, *x));
        }
        Bounds { lower, below }
    }

    /// Whether no count is within them.
    pub fn are_crossed(self) -> bool
        ensures { result ≡ F.is_at_end self.lower self.below }
    {
        is_at_end(self.lower, self.below)
    }
}

/// Whether so many are too many.
pub fn is_at_end(count: u128, below: Option<u128>) -> bool
    ensures { result ≡ F.is_at_end count below }
{
    match below {
        Some(bound) => bound <= count,
        None => false,
    }
}

fn lesser(m: Option<u128>, n: Option<u128>) -> Option<u128>
    ensures { result ≡ A.lesser m n }
{
    match (m, n) {
        (Some(m), Some(n)) => Some(m.min(n)),
        (Some(m), None) => Some(m),
        (None, n) => n,
    }
}
