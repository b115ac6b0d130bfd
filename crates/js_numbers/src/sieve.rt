//! Which candidates the divisors that are ruled out divide, marked as by a sieve.
//!
//! Among the multiples of a number, a divisor divides every n-th one, where n is the divisor without what it has in
//! common with that number. This step is all that matters of a divisor, so each step is gone through once: the marks
//! cost as many looks as there are candidates, times the logarithm of their number, whatever the divisors are.

ghost use Rattle.std.specs.Prelude.{◌≡◌, ℕ, ℤ, ◌*◌, ◌<◌, ◌≤◌, ◌^◌, ◌==◌, true, false, ◌&&◌, ◌||◌, get_or, length, nat_lt, neg_ℤ, unsigned_abs};
ghost use Rattle.std.specs.List.{list_any};
ghost use Rattle.number_groups.specs.Multiples.{is_multiple};
ghost use Rattle.number_groups.specs.Group.{is_ready};
ghost use Rattle.js_numbers.specs.View.{group_of};
ghost use Rattle.number_groups.specs.Outcome.{alternate, candidate, multiple_from};
ghost use Rattle.js_numbers.specs.Marking.{AddsMarks, AreStepsMarked, is_on};

use crate::candidates::{MOST_STRUCK, gap};
use crate::factors::gcd;
use crate::group::NumGroup;

/// Every how many multiples of `m` the divisor `b` divides.
fn step_of(m: u128, b: u64) -> u128
    requires { (0 < m) × (0 < b) }
    ensures positive { 0 < result }
    ensures small { result ≤ b }
    ensures strikes { (x : ℤ) → is_multiple m x ≡ true → is_multiple b x ≡ is_multiple (result * m) x }
{
    let divisor = u128::from(b);
    divisor / gcd(divisor, m)
}

/// Marks the first number, and after it each that is a step further.
fn mark_each(marks: &mut [bool], first: u128, step: u128)
    requires start { first < 2 ^ 127 }
    requires forward { (0 < step) × (step < 2 ^ 127) }
    ensures { (k : ℕ) → k < length marks.old
        → get_or marks.new k false ≡ (get_or marks.old k false || is_on first step k) }
{
    let end = marks.len() as u128;
    let mut k = first;
    while k < end {
        marks[k as usize] = true;
        k += step;
    }
}

/// Marks each `step`-th multiple of `m` among the candidates upwards from `low`.
fn mark_up(low: i128, m: u128, step: u128, marks: &mut [bool])
    requires near { unsigned_abs low ≤ 2 ^ 64 }
    requires multiple { (0 < m) × (m < 2 ^ 127) }
    requires forward { (0 < step) × (step < 2 ^ 127) }
    requires size { length marks.old ≡ MOST_STRUCK }
    ensures { (k : ℕ) → k < MOST_STRUCK
        → get_or marks.new k false
        ≡ (get_or marks.old k false || is_multiple (step * m) (multiple_from m low k)) }
{
    let start = -(-low).div_euclid(m as i128);
    mark_each(marks, gap(start, step) as u128, step);
}

/// Marks each `step`-th multiple of `m` among 0, `m`, `-m`, `2m`, `-2m` and so on.
fn mark_by_size(m: u128, step: u128, marks: &mut [bool])
    requires multiple { 0 < m }
    requires forward { (0 < step) × (step < 2 ^ 64) }
    requires size { length marks.old ≡ MOST_STRUCK }
    ensures { (k : ℕ) → k < MOST_STRUCK
        → get_or marks.new k false ≡ (get_or marks.old k false || is_multiple (step * m) (alternate m k)) }
{
    mark_each(marks, 0, 2 * step);
    mark_each(marks, 2 * step - 1, 2 * step);
}

/// Marks each `step`-th multiple of `m` among the candidates.
fn mark_multiples(group: &NumGroup, m: u128, step: u128, marks: &mut [bool])
    requires ready { is_ready (group_of group.now) ≡ true }
    requires multiple { (0 < m) × (m < 2 ^ 127) }
    requires forward { (0 < step) × (step < 2 ^ 64) }
    requires size { length marks.old ≡ MOST_STRUCK }
    ensures { AddsMarks MOST_STRUCK (candidate m (group_of group.now)) (is_multiple (step * m)) marks.old marks.new }
{
    match (group.lo, group.hi) {
        (Some(low), _) => mark_up(low, m, step, marks),
        (None, Some(high)) => mark_up(-high, m, step, marks),
        (None, None) => mark_by_size(m, step, marks),
    }
}

/// Notes the step, where it is small enough, and answers whether it was noted before.
fn note(noted: &mut [bool], step: u128) -> bool
    ensures before { result ≡ get_or noted.old step false }
    ensures after { (s : ℕ) → get_or noted.new s false
        ≡ (get_or noted.old s false || (s == step && nat_lt step (length noted.old))) }
{
    if step < noted.len() as u128 {
        let before = noted[step as usize];
        noted[step as usize] = true;
        before
    } else {
        false
    }
}

/// Marks each `step`-th multiple of `m` among the candidates, where that wasn't done before.
fn strike(group: &NumGroup, m: u128, step: u128, noted: &mut [bool], marks: &mut [bool])
    requires ready { is_ready (group_of group.now) ≡ true }
    requires multiple { (0 < m) × (m < 2 ^ 127) }
    requires forward { (0 < step) × (step < 2 ^ 64) }
    requires size { length marks.old ≡ MOST_STRUCK }
    requires steps { AreStepsMarked MOST_STRUCK m (group_of group.now) noted.old marks.old }
    ensures marks { AddsMarks MOST_STRUCK (candidate m (group_of group.now))
        (is_multiple (step * m)) marks.old marks.new }
    ensures steps { AreStepsMarked MOST_STRUCK m (group_of group.now) noted.new marks.new }
{
    if !note(noted, step) {
        mark_multiples(group, m, step, marks);
    }
}

/// Marks the candidates that a divisor that is ruled out divides.
pub fn mark_divisors(group: &NumGroup, m: u128, marks: &mut [bool])
    requires ready { is_ready (group_of group.now) ≡ true }
    requires multiple { (0 < m) × (m < 2 ^ 127) }
    requires size { length marks.old ≡ MOST_STRUCK }
    ensures { AddsMarks MOST_STRUCK (candidate m (group_of group.now))
        (λ x. list_any (λ b. is_multiple b x) group.now.not_multiples.now) marks.old marks.new }
{
    let mut noted = [false; MOST_STRUCK];
    for b in group.not_multiples {
        strike(group, m, step_of(m, *b), &mut noted, marks);
    }
}
