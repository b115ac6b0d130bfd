//! Which candidates the sets that are ruled out have, found in one pass over their values.
//!
//! A value's number among the candidates is computed, so the cost is that of the values, and not of the values times
//! the candidates. The marks take 64 KiB of the stack.

ghost use Rattle.std.specs.Prelude.{◌≡◌, ℕ, ◌*◌, ◌<◌, ◌^◌, ◌==◌, true, false, ◌||◌, get_or, IfSome, length, neg_ℤ, unsigned_abs, ◌≤◌};
ghost use Rattle.js_doc.specs.Numbers.{has};
ghost use Rattle.number_groups.specs.Group.{is_ready};
ghost use Rattle.js_numbers.specs.View.{group_of};
ghost use Rattle.number_groups.specs.Outcome.{alternate, candidate, multiple_from};
ghost use Rattle.js_numbers.specs.Marking.{is_at, IsIndex, AddsMarks, AddsRuledOut};

use crate::candidates::{MOST_STRUCK, multiple_down, multiple_from};
use crate::group::NumGroup;

/// How many steps of `m` make up the distance, where a whole number below [`MOST_STRUCK`] does.
fn steps(distance: u128, m: u128) -> Option<usize>
    requires { 0 < m }
    ensures value { (k : ℕ) → k < MOST_STRUCK → is_at result k ≡ (k * m == distance) }
    ensures within { IfSome result (λ k. k < MOST_STRUCK) }
{
    if distance % m != 0 {
        return None;
    }
    let count = distance / m;
    if count < MOST_STRUCK as u128 {
        Some(count as usize)
    } else {
        None
    }
}

/// The number of `x` among the candidates upwards from `low`.
fn index_up(low: i128, m: u128, x: i128) -> Option<usize>
    requires near { unsigned_abs low ≤ 2 ^ 64 }
    requires step { (0 < m) × (m < 2 ^ 127) }
    ensures value { IsIndex MOST_STRUCK (λ k. multiple_from m low k) x result }
    ensures within { IfSome result (λ k. k < MOST_STRUCK) }
{
    let first = multiple_from(low, m, 0)?;
    if x < first {
        None
    } else {
        steps(x.abs_diff(first), m)
    }
}

/// The number of `x` among the candidates downwards from `high`.
fn index_down(high: i128, m: u128, x: i128) -> Option<usize>
    requires near { unsigned_abs high ≤ 2 ^ 64 }
    requires step { (0 < m) × (m < 2 ^ 127) }
    ensures value { IsIndex MOST_STRUCK (λ k. neg_ℤ (multiple_from m (neg_ℤ high) k)) x result }
    ensures within { IfSome result (λ k. k < MOST_STRUCK) }
{
    let last = multiple_down(high, m, 0)?;
    if last < x {
        None
    } else {
        steps(last.abs_diff(x), m)
    }
}

/// The number of `x` among 0, `m`, `-m`, `2m`, `-2m` and so on.
fn index_by_size(m: u128, x: i128) -> Option<usize>
    requires { (0 < m) × (m < 2 ^ 127) }
    ensures value { IsIndex MOST_STRUCK (λ k. alternate m k) x result }
    ensures within { IfSome result (λ k. k < MOST_STRUCK) }
{
    let size = steps(x.unsigned_abs(), m)?;
    let index = if x > 0 { 2 * size - 1 } else { 2 * size };
    if index < MOST_STRUCK {
        Some(index)
    } else {
        None
    }
}

/// The number of `x` among the candidates.
fn index_of(group: &NumGroup, m: u128, x: i128) -> Option<usize>
    requires ready { is_ready (group_of group.now) ≡ true }
    requires step { (0 < m) × (m < 2 ^ 127) }
    ensures value { IsIndex MOST_STRUCK (candidate m (group_of group.now)) x result }
    ensures within { IfSome result (λ k. k < MOST_STRUCK) }
{
    match (group.lo, group.hi) {
        (Some(low), _) => index_up(low, m, x),
        (None, Some(high)) => index_down(high, m, x),
        (None, None) => index_by_size(m, x),
    }
}

/// Marks the number, where there is one.
pub fn mark(listed: &mut [bool], index: Option<usize>)
    requires { IfSome index (λ k. k < length listed.old) }
    ensures { (k : ℕ) → get_or listed.new k false ≡ (get_or listed.old k false || is_at index k) }
{
    if let Some(k) = index {
        listed[k] = true;
    }
}

/// Marks the candidates that are among the values.
fn mark_values(group: &NumGroup, m: u128, values: &[i128], listed: &mut [bool])
    requires ready { is_ready (group_of group.now) ≡ true }
    requires step { (0 < m) × (m < 2 ^ 127) }
    requires size { length listed.old ≡ MOST_STRUCK }
    ensures { AddsMarks MOST_STRUCK (candidate m (group_of group.now)) (has values.now) listed.old listed.new }
{
    for x in values {
        mark(listed, index_of(group, m, *x));
    }
}

/// Marks the candidates that a set that is ruled out has.
pub fn mark_sets(group: &NumGroup, m: u128, listed: &mut [bool])
    requires ready { is_ready (group_of group.now) ≡ true }
    requires step { (0 < m) × (m < 2 ^ 127) }
    requires size { length listed.old ≡ MOST_STRUCK }
    ensures { AddsRuledOut MOST_STRUCK m (group_of group.now) listed.old listed.new }
{
    for values in group.not_sets {
        mark_values(group, m, values.as_slice(), listed);
    }
}
