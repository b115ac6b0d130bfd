//! The candidates of a group without sets, in their order: the multiples of one number within the bounds.
//!
//! A candidate is compared with 2^127-1 before it is made, so no step overflows.

ghost use Rattle.std.specs.Prelude.{◌≡◌, ◌<◌, ◌≤◌, ◌^◌, true, unsigned_abs, pos, neg_ℤ};
ghost use Rattle.std.specs.Int.{int_rem_euclid};
ghost use Rattle.number_groups.specs.Group.{is_ready};
ghost use Rattle.js_numbers.specs.View.{group_of, cases_view, reach_view};
ghost use Rattle.number_groups.specs.Outcome.{after_last, alternate, candidate, multiple_from, reached, sized};

use crate::group::{Cases, NumGroup};
use crate::number::is_below;

/// As many candidates may be struck before the search gives up.
pub const MOST_STRUCK: usize = 65_536;

/// How far the first multiple of `m` that isn't below `low` is above it.
pub(crate) fn gap(low: i128, m: u128) -> i128
    requires near { unsigned_abs low ≤ 2 ^ 64 }
    requires step { (0 < m) × (m < 2 ^ 127) }
    ensures { result ≡ int_rem_euclid (neg_ℤ low) (pos m) }
{
    (-low).rem_euclid(m as i128)
}

/// The `k`-th multiple of `m` that isn't below `low`, counted from 0; `None` where it is over 2^127-1.
pub(crate) fn multiple_from(low: i128, m: u128, k: usize) -> Option<i128>
    requires near { unsigned_abs low ≤ 2 ^ 64 }
    requires step { (0 < m) × (m < 2 ^ 127) }
    ensures { result ≡ sized (multiple_from m low k) }
{
    let first = low.checked_add(gap(low, m))?;
    let past = (k as u128).checked_mul(m)?;
    first.checked_add_unsigned(past)
}

/// The `k`-th multiple of `m` that isn't above `high`, downwards from 0; `None` where its size is over 2^127-1.
pub(crate) fn multiple_down(high: i128, m: u128, k: usize) -> Option<i128>
    requires near { unsigned_abs high ≤ 2 ^ 64 }
    requires step { (0 < m) × (m < 2 ^ 127) }
    ensures { result ≡ sized (neg_ℤ (multiple_from m (neg_ℤ high) k)) }
{
    let opposite = multiple_from(-high, m, k)?;
    Some(-opposite)
}

/// The `k`-th of 0, `m`, `-m`, `2m`, `-2m` and so on; `None` where its size is over 2^127-1.
fn alternate(m: u128, k: usize) -> Option<i128>
    requires { (0 < m) × (m < 2 ^ 127) }
    ensures { result ≡ sized (alternate m k) }
{
    if k % 2 == 1 {
        multiple_from(0, m, k / 2 + 1)
    } else {
        Some(-multiple_from(0, m, k / 2)?)
    }
}

/// The `k`-th candidate; `None` where its size is over 2^127-1.
fn candidate(group: &NumGroup, m: u128, k: usize) -> Option<i128>
    requires ready { is_ready (group_of group.now) ≡ true }
    requires step { (0 < m) × (m < 2 ^ 127) }
    ensures { result ≡ sized (candidate m (group_of group.now) k) }
{
    match (group.lo, group.hi) {
        (Some(low), _) => multiple_from(low, m, k),
        (None, Some(high)) => multiple_down(high, m, k),
        (None, None) => alternate(m, k),
    }
}

/// What follows where a candidate is over 2^127-1 in size: upwards, it is above any upper bound.
fn after_last(low: Option<i128>, high: Option<i128>) -> Cases
    ensures { cases_view result ≡ after_last low high }
{
    match (low, high) {
        (Some(_), Some(_)) => Cases::Empty,
        _ => Cases::LimitMultiples,
    }
}

/// The `k`-th candidate, or why there is none to try.
pub(crate) fn reach(group: &NumGroup, m: u128, k: usize) -> Result<i128, Cases>
    requires ready { is_ready (group_of group.now) ≡ true }
    requires step { (0 < m) × (m < 2 ^ 127) }
    ensures { reach_view result ≡ reached m (group_of group.now) k }
{
    match candidate(group, m, k) {
        Some(x) if is_below(group.hi, x) => Ok(x),
        Some(_) => Err(Cases::Empty),
        None => Err(after_last(group.lo, group.hi)),
    }
}
