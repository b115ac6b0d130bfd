//! Whether a match of a tree can end where the word ends.
//!
//! The walk goes through the tree in the order of its positions, so it costs a look at each node, and as many at a
//! repeated tree as it has copies, up to one from which on nothing is going on. A repeated tree without positions is
//! gone through once, and of a repeated set of characters the words are looked at that have its copies.

ghost use Rattle.std.specs.Prelude.{◌≡◌, ◌+◌, ◌*◌, ◌≤◌, ◌^◌, ◌&&◌, nat_eq, nat_le, true, if◌then◌else◌, Bool, List, ℕ};
ghost use Rattle.patterns.specs.Tree.{one_of, repeated};
ghost use Rattle.word_states.specs.Position.{count_of, count_in, copies};
ghost use Rattle.state_laws.specs.Flow.{flag_at, ends_here, ends_here_in_turn, ends_here_of_one};
ghost use Rattle.js_pattern.specs.View.{view, list_view};

use crate::count::{Times, count_positions};
use crate::position_set::PositionSet;
use crate::runs::has_some;
use js_pattern::{Re, ReList};

/// Whether the word begins where it ends, and whether no character comes next.
#[derive(Clone, Copy)]
pub struct Edges {
    pub first: bool,
    pub last: bool,
}

/// What is known after a tree: whether a match can end there, and the number of the position that comes next.
#[derive(Clone, Copy)]
pub struct Passed {
    pub ends: bool,
    pub base: usize,
}

/// Whether a match of the tree can end where the word ends. `read` are the positions that were read last, `base` is the
/// number of the tree's first position, and `begins` says that a match of the tree can begin where the word ends.
#[cycle(ends)]
pub fn ends_here(re: &Re, edges: Edges, read: &PositionSet, base: usize, begins: bool) -> Passed
    requires { base + count_of (view re.now) ≤ 16384 }
    ensures ends { result.ends ≡ ends_here (view re.now) edges.first edges.last (flag_at read.now.flags) base begins }
    ensures base { result.base ≡ base + count_of (view re.now) }
{
    match re {
        Re::Empty => Passed { ends: begins, base },
        Re::Set(_) => Passed {
            ends: read.contains(base),
            base: base + 1,
        },
        Re::Start => Passed {
            ends: begins && edges.first,
            base,
        },
        Re::End => Passed {
            ends: begins && edges.last,
            base,
        },
        Re::Seq(list) => ends_in_turn(list, edges, read, base, begins),
        Re::Alt(list) => ends_of_one(list, edges, read, base, begins),
        Re::Repeat(inner, low, high) => {
            let times = Times {
                low: *low,
                high: *high,
            };
            ends_repeated(inner, times, edges, read, base, begins)
        }
    }
}

/// `ends_here` for the whole tree of a pattern, where a match can begin: the walk along a list stops at the tree from
/// which on nothing is going on.
pub fn tree_ends(re: &Re, edges: Edges, read: &PositionSet) -> bool
    requires { count_of (view re.now) ≤ 16384 }
    ensures { result ≡ ends_here (view re.now) edges.first edges.last (flag_at read.now.flags) 0 true }
{
    match re {
        Re::Seq(list) => list_ends(list, edges, read),
        _ => ends_here(re, edges, read, 0, true).ends,
    }
}

/// One tree after another, up to one from which on nothing is going on.
fn list_ends(list: &ReList, edges: Edges, read: &PositionSet) -> bool
    requires { count_in (list_view list.now) ≤ 16384 }
    ensures { result ≡ ends_here_in_turn (list_view list.now) edges.first edges.last (flag_at read.now.flags) 0 true }
{
    let mut here = true;
    let mut at = 0;
    for re in list.as_slice() {
        if read.has_none_from(at) && !here {
            return false;
        }
        let passed = ends_item(re, edges, read, at, here);
        here = passed.ends;
        at = passed.base;
    }
    here
}

/// `ends_here` for a tree among others. Where nothing is going on in it, its positions are counted and it isn't walked.
#[cycle(ends)]
fn ends_item(re: &Re, edges: Edges, read: &PositionSet, base: usize, begins: bool) -> Passed
    requires { base + count_of (view re.now) ≤ 16384 }
    ensures ends { result.ends ≡ ends_here (view re.now) edges.first edges.last (flag_at read.now.flags) base begins }
    ensures base { result.base ≡ base + count_of (view re.now) }
{
    if let Re::Set(_) = re {
        return Passed {
            ends: read.contains(base),
            base: base + 1,
        };
    }
    if read.has_none_from(base) && !begins {
        return Passed {
            ends: false,
            base: base + count_positions(re) as usize,
        };
    }
    ends_here(re, edges, read, base, begins)
}

/// Goes through the trees of a list, one after another.
#[cycle(ends)]
fn ends_in_turn(
    list: &ReList,
    edges: Edges,
    read: &PositionSet,
    base: usize,
    begins: bool,
) -> Passed
    requires { base + count_in (list_view list.now) ≤ 16384 }
    ensures ends { result.ends ≡ ends_here_in_turn (list_view list.now) edges.first edges.last (flag_at
        read.now.flags) base begins }
    ensures base { result.base ≡ base + count_in (list_view list.now) }
{
    let mut here = begins;
    let mut at = base;
    for re in list.as_slice() {
        let passed = ends_item(re, edges, read, at, here);
        here = passed.ends;
        at = passed.base;
    }
    Passed {
        ends: here,
        base: at,
    }
}

/// Goes through the trees of a list, each of them an alternative.
#[cycle(ends)]
fn ends_of_one(list: &ReList, edges: Edges, read: &PositionSet, base: usize, begins: bool) -> Passed
    requires { base + count_in (list_view list.now) ≤ 16384 }
    ensures ends { result.ends ≡ ends_here_of_one (list_view list.now) edges.first edges.last (flag_at
        read.now.flags) base begins }
    ensures base { result.base ≡ base + count_in (list_view list.now) }
{
    let mut ends = false;
    let mut at = base;
    for re in list.as_slice() {
        let passed = ends_item(re, edges, read, at, begins);
        ends = ends || passed.ends;
        at = passed.base;
    }
    Passed { ends, base: at }
}

/// The tree so often at least, and so often at most: copy after copy, up to one from which on nothing is going on.
#[cycle(ends)]
fn ends_repeated(
    inner: &Re,
    times: Times,
    edges: Edges,
    read: &PositionSet,
    base: usize,
    begins: bool,
) -> Passed
    requires { base + copies times.low times.high * count_of (view inner.now) ≤ 16384 }
    ensures ends { result.ends ≡ ends_here (repeated (view
        inner.now) times.low times.high) edges.first edges.last (flag_at read.now.flags) base begins }
    ensures base { result.base ≡ base + copies times.low times.high * count_of (view inner.now) }
{
    if let Re::Set(_) = inner {
        return ends_run(times, read, base, begins);
    }
    let count = times.copies();
    let mut here = begins;
    let mut ends = may_end(times.low, 0, begins);
    let mut at = base;
    for i in 0..count {
        let passed = ends_here(inner, edges, read, at, here);
        if passed.base == base {
            let ends = ends_still(times.low, count, begins, passed.ends);
            return Passed { ends, base };
        }
        let size = passed.base - at;
        here = passed.ends;
        at = passed.base;
        ends = ends | may_end(times.low, i + 1, here);
        if read.has_none_from(at) && !here {
            return Passed {
                ends,
                base: at + (count - (i + 1)) as usize * size,
            };
        }
    }
    Passed { ends, base: at }
}

/// `ends_here` for copies of a set of characters, whichever it is: a match can end after the last copy that must come,
/// and after those that follow it.
pub(crate) fn ends_run(times: Times, read: &PositionSet, base: usize, begins: bool) -> Passed
    requires { base + copies times.low times.high ≤ 16384 }
    ensures ends { (ranges : List (ℕ × ℕ)) (first last : Bool) → result.ends
        ≡ ends_here (repeated (one_of ranges) times.low times.high) first last (flag_at read.now.flags) base begins }
    ensures base { result.base ≡ base + copies times.low times.high }
{
    let count = times.copies();
    let skipped = times.low.saturating_sub(1);
    let left = count.saturating_sub(skipped) as usize;
    Passed {
        ends: may_end(times.low, 0, begins) | has_some(read, base + skipped as usize, left),
        base: base + count as usize,
    }
}

/// Whether a match can end after so many copies, where `here` says that a match of the last one can.
pub(crate) fn may_end(low: u32, gone: u32, here: bool) -> bool
    ensures { result ≡ nat_le low gone && here }
{
    low <= gone && here
}

/// Whether a match can end after copies of a tree without positions: each does what one does, which gives `one`.
pub(crate) fn ends_still(low: u32, count: u32, begins: bool, one: bool) -> bool
    ensures { result ≡ if nat_eq low 0 then begins else nat_le low count && one }
{
    if low == 0 {
        begins
    } else {
        low <= count && one
    }
}
