//! The first value of a required set, in its written order, that meets the group.
//!
//! Where few sets are ruled out, each value is looked up in each of them. Else the values are gone through by blocks of
//! 65,536 ranks, mostly one block. Which values of a block the sets have is marked first, at the ranks of the values:
//! of the required set and another one, the values of the shorter are looked up in the longer, so many sets
//! cost a block no more than one of as many values. The marks take 64 KiB of the stack.
//!
//! So no value is looked up in many sets that are ruled out; what there is instead is all values times blocks.
//! Rejected: a look at each set for each value past the first block, which is a product of values and sets.

ghost use Rattle.std.specs.Prelude.{◌≡◌, ℕ, ◌<◌, ◌≤◌, ◌^◌, ◌&&◌, true, nat_lt, Some, IfSome, SomeIff, length};
ghost use Rattle.std.specs.List.{find, list_all};
ghost use Rattle.std.specs.Ordering.{int_eq};
ghost use Rattle.number_groups.specs.Multiples.{is_multiple, lcm_of};
ghost use Rattle.js_doc.specs.Numbers.{has};
ghost use Rattle.number_groups.specs.Group.{is_asked, is_listed, is_met, is_ready, is_struck};
ghost use Rattle.js_numbers.specs.View.{group_of, lists_of, cases_view};
ghost use Rattle.number_groups.specs.Outcome.{found};
ghost use Rattle.js_numbers.specs.Marking.{mark_of, AddsListed, AreListed, IsFirstIn};

use crate::candidates::MOST_STRUCK;
use crate::factors::lcm_of;
use crate::group::{Cases, NumGroup};
use crate::marks::mark;
use crate::number::{all_have, any_has, divides_all, divides_any};
use js_doc::NumList;

/// A look at a value in so many sets costs about as much as in a block, where mostly longer lists are searched.
const SETS_A_BLOCK: usize = 4;

/// The number of the mark for `x`: how far its rank among the values is from the start of the block.
fn mark_of(values: &NumList, start: usize, x: i128) -> Option<usize>
    ensures value { result ≡ mark_of MOST_STRUCK start values.now x }
    ensures within { IfSome result (λ k. k < MOST_STRUCK) }
{
    match values.rank(x)?.checked_sub(start) {
        Some(k) if k < MOST_STRUCK => Some(k),
        _ => None,
    }
}

/// Marks `x`, where it is one of the values.
fn mark_value(values: &NumList, start: usize, x: i128, listed: &mut [bool])
    requires { length listed.old ≡ MOST_STRUCK }
    ensures { AddsListed MOST_STRUCK start values.now (λ y. int_eq x y) listed.old listed.new }
{
    mark(listed, mark_of(values, start, x));
}

/// Marks the values that the set has, by a look at each number of the set.
fn mark_members(values: &NumList, start: usize, set: &NumList, listed: &mut [bool])
    requires { length listed.old ≡ MOST_STRUCK }
    ensures { AddsListed MOST_STRUCK start values.now (has set.now) listed.old listed.new }
{
    for x in set.as_slice() {
        mark_value(values, start, *x, listed);
    }
}

/// Marks `x`, where it is one of the values and the set has it.
fn mark_shared(values: &NumList, start: usize, set: &NumList, x: i128, listed: &mut [bool])
    requires { length listed.old ≡ MOST_STRUCK }
    ensures { AddsListed MOST_STRUCK start values.now (λ y. int_eq x y && has set.now x) listed.old listed.new }
{
    if set.has(x) {
        mark_value(values, start, x, listed);
    }
}

/// Marks the values that the set has, by a look at each value.
fn mark_all_shared(values: &NumList, start: usize, set: &NumList, listed: &mut [bool])
    requires { length listed.old ≡ MOST_STRUCK }
    ensures { AddsListed MOST_STRUCK start values.now (has set.now) listed.old listed.new }
{
    for x in values.as_slice() {
        mark_shared(values, start, set, *x, listed);
    }
}

/// Marks the values that the set has.
fn mark_set(values: &NumList, start: usize, set: &NumList, listed: &mut [bool])
    requires { length listed.old ≡ MOST_STRUCK }
    ensures { AddsListed MOST_STRUCK start values.now (has set.now) listed.old listed.new }
{
    if set.as_slice().len() < values.as_slice().len() {
        mark_members(values, start, set, listed);
    } else {
        mark_all_shared(values, start, set, listed);
    }
}

/// Marks the values that one of the sets has.
fn mark_sets(values: &NumList, start: usize, sets: &[&NumList], listed: &mut [bool])
    requires { length listed.old ≡ MOST_STRUCK }
    ensures { AddsListed MOST_STRUCK start values.now (is_listed (lists_of sets.now)) listed.old listed.new }
{
    for set in sets {
        mark_set(values, start, set, listed);
    }
}

/// Whether each of the divisors divides `x`, by their least common multiple. Where that is over 2^127-1, no smaller
/// size but 0 is a multiple of it, and only -2^127 is tried by each divisor.
fn is_common(multiples: &[u64], common: Option<u128>, x: i128) -> bool
    requires multiple { SomeIff common (lcm_of multiples.now < 2 ^ 127) (lcm_of multiples.now) }
    requires positive { list_all (λ m. nat_lt 0 m) multiples.now ≡ true }
    ensures { result ≡ list_all (λ m. is_multiple m x) multiples.now }
{
    let size = x.unsigned_abs();
    match common {
        Some(m) => size.is_multiple_of(m),
        None if size < 1 << 127 => size == 0,
        None => divides_all(multiples, x),
    }
}

/// Whether `x` has all that is required: within the bounds, a multiple of each divisor, in each set.
fn is_asked(group: &NumGroup, common: Option<u128>, x: i128) -> bool
    requires ready { is_ready (group_of group.now) ≡ true }
    requires multiple { SomeIff common (lcm_of group.now.multiples.now < 2 ^ 127) (lcm_of group.now.multiples.now) }
    ensures { result ≡ is_asked (group_of group.now) x }
{
    group.is_within(x) && is_common(group.multiples, common, x) && all_have(group.sets, x)
}

/// Whether a divisor or a set that is ruled out strikes `x`, where it is known whether a set has it.
fn is_struck(group: &NumGroup, listed: bool, x: i128) -> bool
    requires { listed ≡ is_listed (lists_of group.now.not_sets.now) x }
    ensures { result ≡ is_struck (group_of group.now) x }
{
    listed || divides_any(group.not_multiples, x)
}

/// Whether `x` meets the group.
fn is_met(group: &NumGroup, common: Option<u128>, x: i128) -> bool
    requires ready { is_ready (group_of group.now) ≡ true }
    requires multiple { SomeIff common (lcm_of group.now.multiples.now < 2 ^ 127) (lcm_of group.now.multiples.now) }
    ensures { result ≡ is_met (group_of group.now) x }
{
    is_asked(group, common, x) && !is_struck(group, any_has(group.not_sets, x), x)
}

/// The first of the values that meets the group, where each is looked up in each set that is ruled out.
fn search_each(group: &NumGroup, values: &NumList, common: Option<u128>) -> Cases
    requires ready { is_ready (group_of group.now) ≡ true }
    requires multiple { SomeIff common (lcm_of group.now.multiples.now < 2 ^ 127) (lcm_of group.now.multiples.now) }
    ensures { cases_view result ≡ found (find (is_met (group_of group.now)) values.now) }
{
    for x in values.as_slice() {
        if is_met(group, common, *x) {
            return Cases::Found(*x);
        }
    }
    Cases::Empty
}

/// Whether `x` is in the block and meets the group.
fn is_met_in_block(
    group: &NumGroup,
    values: &NumList,
    start: usize,
    common: Option<u128>,
    listed: &[bool],
    x: i128,
) -> bool
    requires ready { is_ready (group_of group.now) ≡ true }
    requires multiple { SomeIff common (lcm_of group.now.multiples.now < 2 ^ 127) (lcm_of group.now.multiples.now) }
    requires size { length listed.now ≡ MOST_STRUCK }
    requires marks { AreListed MOST_STRUCK start values.now (is_listed (lists_of group.now.not_sets.now)) listed.now }
    ensures met { result ≡ true → is_met (group_of group.now) x ≡ true }
    ensures all { (k : ℕ) → mark_of MOST_STRUCK start values.now x ≡ Some k → result ≡ is_met (group_of group.now) x }
{
    match mark_of(values, start, x) {
        Some(k) => is_asked(group, common, x) && !is_struck(group, listed[k], x),
        None => false,
    }
}

/// The place of the first value before `end` that is in the block and meets the group, where the values of the block
/// are marked that a set has that is ruled out; `end` where there is none.
fn first_met(
    group: &NumGroup,
    values: &NumList,
    start: usize,
    common: Option<u128>,
    listed: &[bool],
    end: usize,
) -> usize
    requires ready { is_ready (group_of group.now) ≡ true }
    requires multiple { SomeIff common (lcm_of group.now.multiples.now < 2 ^ 127) (lcm_of group.now.multiples.now) }
    requires size { length listed.now ≡ MOST_STRUCK }
    requires marks { AreListed MOST_STRUCK start values.now (is_listed (lists_of group.now.not_sets.now)) listed.now }
    requires end { end ≤ length values.now }
    ensures { IsFirstIn MOST_STRUCK start values.now (is_met (group_of group.now)) end result }
{
    let items = values.as_slice();
    for place in 0..end {
        if is_met_in_block(group, values, start, common, listed, items[place]) {
            return place;
        }
    }
    end
}

/// The place of the first value before `end` that is in the block and meets the group; `end` where there is none.
fn search_block(
    group: &NumGroup,
    values: &NumList,
    start: usize,
    common: Option<u128>,
    end: usize,
) -> usize
    requires ready { is_ready (group_of group.now) ≡ true }
    requires multiple { SomeIff common (lcm_of group.now.multiples.now < 2 ^ 127) (lcm_of group.now.multiples.now) }
    requires end { end ≤ length values.now }
    ensures { IsFirstIn MOST_STRUCK start values.now (is_met (group_of group.now)) end result }
{
    let mut listed = [false; MOST_STRUCK];
    mark_sets(values, start, group.not_sets, &mut listed);
    first_met(group, values, start, common, &listed, end)
}

/// The first of the values that meets the group, where the sets that are ruled out are marked by blocks.
fn search_blocks(group: &NumGroup, values: &NumList, common: Option<u128>) -> Cases
    requires ready { is_ready (group_of group.now) ≡ true }
    requires multiple { SomeIff common (lcm_of group.now.multiples.now < 2 ^ 127) (lcm_of group.now.multiples.now) }
    ensures { cases_view result ≡ found (find (is_met (group_of group.now)) values.now) }
{
    let items = values.as_slice();
    let mut end = items.len();
    for block in 0..items.len().div_ceil(MOST_STRUCK) {
        end = search_block(group, values, block * MOST_STRUCK, common, end);
    }
    if end < items.len() {
        Cases::Found(items[end])
    } else {
        Cases::Empty
    }
}

/// The first of the values that meets the group.
pub(crate) fn search_values(group: &NumGroup, values: &NumList) -> Cases
    requires { is_ready (group_of group.now) ≡ true }
    ensures { cases_view result ≡ found (find (is_met (group_of group.now)) values.now) }
{
    let common = lcm_of(group.multiples);
    let blocks = values.as_slice().len() / MOST_STRUCK;
    if group.not_sets.len() <= SETS_A_BLOCK * blocks {
        search_each(group, values, common)
    } else {
        search_blocks(group, values, common)
    }
}
