//! What may follow the positions that were read last, whatever character comes next: one walk for all characters.
//!
//! Whether a match can end in a tree is asked by a walk of its own, so a node costs a look for each node around it.

ghost use Rattle.std.specs.Prelude.{◌≡◌, ◌+◌, ◌*◌, ◌≤◌, ◌++◌, false, length};
ghost use Rattle.word_states.specs.Position.{count_of, count_in};
ghost use Rattle.state_laws.specs.Flow.{flag_at, ends_here, next_copies, next_copies_on};
ghost use Rattle.state_laws.specs.FollowSets.{may_follow, may_follow_in_turn, may_follow_of_one};
ghost use Rattle.js_pattern.specs.View.{view, list_view};

use js_pattern::{Re, ReList};
use js_pattern_positions::{Edges, PositionSet, count_positions, ends_here};

/// Where the word has begun before, and goes on.
const INSIDE: Edges = Edges {
    first: false,
    last: false,
};

/// Appends for each position of the tree whether it may be read next, where the word isn't empty, and answers the
/// number of the position after the tree's. `read` are the positions that were read last, `base` is the number of the
/// tree's first position, and `begins` says that a match of the tree can begin where the word ends.
#[cycle(follow)]
pub(crate) fn follow(
    re: &Re,
    read: &PositionSet,
    base: usize,
    begins: bool,
    follows: &mut PositionSet,
) -> usize
    requires base { base ≡ length follows.old.flags }
    requires room { base + count_of (view re.now) ≤ follows.old.room }
    requires small { base + count_of (view re.now) ≤ 16384 }
    ensures base { result ≡ base + count_of (view re.now) }
    ensures flags { follows.new.flags ≡ follows.old.flags
        ++ may_follow (view re.now) false (flag_at read.now.flags) base begins }
    ensures room { follows.new.room ≡ follows.old.room }
{
    match re {
        Re::Empty | Re::Start | Re::End => base,
        Re::Set(_) => {
            follows.push(begins);
            base + 1
        }
        Re::Seq(list) => follow_in_turn(list, read, base, begins, follows),
        Re::Alt(list) => follow_of_one(list, read, base, begins, follows),
        Re::Repeat(inner, low, high) => {
            if count_positions(inner) == 0 {
                return base;
            }
            match high {
                Some(high) => follow_copies(inner, *high, read, base, begins, follows),
                None => {
                    let count = low.saturating_sub(1);
                    follow_again(inner, count, read, base, begins, follows)
                }
            }
        }
    }
}

/// Goes through the trees of a list, one after another.
#[cycle(follow)]
fn follow_in_turn(
    list: &ReList,
    read: &PositionSet,
    base: usize,
    begins: bool,
    follows: &mut PositionSet,
) -> usize
    requires base { base ≡ length follows.old.flags }
    requires room { base + count_in (list_view list.now) ≤ follows.old.room }
    requires small { base + count_in (list_view list.now) ≤ 16384 }
    ensures base { result ≡ base + count_in (list_view list.now) }
    ensures flags { follows.new.flags ≡ follows.old.flags
        ++ may_follow_in_turn (list_view list.now) false (flag_at read.now.flags) base begins }
    ensures room { follows.new.room ≡ follows.old.room }
{
    let mut here = begins;
    let mut at = base;
    for re in list.as_slice() {
        let passed = ends_here(re, INSIDE, read, at, here);
        at = follow(re, read, at, here, follows);
        here = passed.ends;
    }
    at
}

/// Goes through the trees of a list, each of them an alternative.
#[cycle(follow)]
fn follow_of_one(
    list: &ReList,
    read: &PositionSet,
    base: usize,
    begins: bool,
    follows: &mut PositionSet,
) -> usize
    requires base { base ≡ length follows.old.flags }
    requires room { base + count_in (list_view list.now) ≤ follows.old.room }
    requires small { base + count_in (list_view list.now) ≤ 16384 }
    ensures base { result ≡ base + count_in (list_view list.now) }
    ensures flags { follows.new.flags ≡ follows.old.flags
        ++ may_follow_of_one (list_view list.now) false (flag_at read.now.flags) base begins }
    ensures room { follows.new.room ≡ follows.old.room }
{
    let mut at = base;
    for re in list.as_slice() {
        at = follow(re, read, at, begins, follows);
    }
    at
}

/// So many copies of a tree with positions, none of which comes again.
#[cycle(follow)]
fn follow_copies(
    inner: &Re,
    count: u32,
    read: &PositionSet,
    base: usize,
    begins: bool,
    follows: &mut PositionSet,
) -> usize
    requires base { base ≡ length follows.old.flags }
    requires room { base + count * count_of (view inner.now) ≤ follows.old.room }
    requires small { base + count * count_of (view inner.now) ≤ 16384 }
    ensures base { result ≡ base + count * count_of (view inner.now) }
    ensures flags { follows.new.flags ≡ follows.old.flags ++ next_copies
        (λ at some. may_follow (view inner.now) false (flag_at read.now.flags) at some)
        (λ at some. ends_here (view inner.now) false false (flag_at read.now.flags) at some)
        (count_of (view inner.now)) count base begins }
    ensures room { follows.new.room ≡ follows.old.room }
{
    let mut here = begins;
    let mut at = base;
    for i in 0..count {
        let passed = ends_here(inner, INSIDE, read, at, here);
        at = follow(inner, read, at, here, follows);
        here = passed.ends;
    }
    at
}

/// So many copies of a tree with positions, and one more that may come again and again.
#[cycle(follow)]
fn follow_again(
    inner: &Re,
    count: u32,
    read: &PositionSet,
    base: usize,
    begins: bool,
    follows: &mut PositionSet,
) -> usize
    requires base { base ≡ length follows.old.flags }
    requires room { base + (count + 1) * count_of (view inner.now) ≤ follows.old.room }
    requires small { base + (count + 1) * count_of (view inner.now) ≤ 16384 }
    ensures base { result ≡ base + (count + 1) * count_of (view inner.now) }
    ensures flags { follows.new.flags ≡ follows.old.flags ++ next_copies_on
        (λ at some. may_follow (view inner.now) false (flag_at read.now.flags) at some)
        (λ at some. ends_here (view inner.now) false false (flag_at read.now.flags) at some)
        (count_of (view inner.now)) count base begins }
    ensures room { follows.new.room ≡ follows.old.room }
{
    let mut here = begins;
    let mut at = base;
    for i in 0..count {
        let passed = ends_here(inner, INSIDE, read, at, here);
        at = follow(inner, read, at, here, follows);
        here = passed.ends;
    }
    let again = ends_here(inner, INSIDE, read, at, false);
    follow(inner, read, at, here | again.ends, follows)
}
