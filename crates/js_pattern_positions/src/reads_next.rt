//! Which positions of a tree read the next character, and whether a match could end before it.
//!
//! The walk is that of `ends`, and fills a set in the order of the positions. The last copy of a repeat without an
//! upper number may begin where it ends, so it is first looked through for that: where such repeats nest, each adds one
//! look at what it repeats.

ghost use Rattle.std.specs.Prelude.{◌≡◌, ◌+◌, ◌*◌, ◌<◌, ◌≤◌, ◌^◌, ◌&&◌, ◌||◌, ◌++◌, ◌∷◌, [], true, false, if◌then◌else◌, length, Bool, ℕ, Some};
ghost use Rattle.patterns.specs.CharSet.{has};
ghost use Rattle.patterns.specs.Tree.{Tree, Trees, one_of, either, repeated};
ghost use Rattle.word_states.specs.Position.{count_of, count_in, copies};
ghost use Rattle.state_laws.specs.Flow.{flag_at, ends_here, ends_here_in_turn, ends_here_of_one, reads_next, reads_next_in_turn, reads_next_of_one};
ghost use Rattle.js_pattern.specs.View.{view, list_view};
ghost use Rattle.js_pattern_positions.specs.Choices.{IsChoice, IsOptionThat};

use crate::choices::{Choice, choice_of, push_choices};
use crate::count::{Times, count_positions};
use crate::ends::{Edges, ends_here, ends_run, ends_still, may_end};
use crate::options::{option_has, push_options};
use crate::position_set::PositionSet;
use crate::runs::{has_some, push_copies};
use js_pattern::{CharSet, Re, ReList};

/// The character that comes next, and whether it is the word's first.
#[derive(Clone, Copy)]
pub struct Next {
    pub first: bool,
    pub character: char,
}

/// Appends for each position of the tree whether it reads the next character, and answers whether a match of the tree
/// can end before it. `read` are the positions that were read last, and `begins` says that a match of the tree can
/// begin before the character.
#[cycle(advance)]
pub fn advance(
    re: &Re,
    next: Next,
    read: &PositionSet,
    begins: bool,
    reads: &mut PositionSet,
) -> bool
    requires room { length reads.old.flags + count_of (view re.now) ≤ reads.old.room }
    requires small { length reads.old.flags + count_of (view re.now) ≤ 16384 }
    ensures ends { result ≡ ends_here (view re.now) next.first false (flag_at read.now.flags) (length
        reads.old.flags) begins }
    ensures flags { reads.new.flags ≡ reads.old.flags ++ reads_next (view re.now) next.first (flag_at
        read.now.flags) next.character (length reads.old.flags) begins }
    ensures room { reads.new.room ≡ reads.old.room }
{
    match re {
        Re::Empty => begins,
        Re::Set(set) => advance_set(set, next, read, begins, reads),
        Re::Start => begins & next.first,
        Re::End => false,
        Re::Seq(list) => advance_in_turn(list, next, read, begins, reads),
        Re::Alt(list) => advance_of_one(list, next, read, begins, reads),
        Re::Repeat(inner, low, high) => {
            let times = Times {
                low: *low,
                high: *high,
            };
            advance_repeated(inner, times, next, read, begins, reads)
        }
    }
}

/// `advance` for the whole tree of a pattern, where a match can begin. `end` is the number of flags that there are to
/// be, so the walk along a list stops at the tree from which on nothing is going on.
pub fn advance_tree(re: &Re, end: usize, next: Next, read: &PositionSet, reads: &mut PositionSet)
    requires end { end ≡ length reads.old.flags + count_of (view re.now) }
    requires room { end ≤ reads.old.room }
    requires small { end ≤ 16384 }
    ensures flags { reads.new.flags ≡ reads.old.flags ++ reads_next (view re.now) next.first (flag_at
        read.now.flags) next.character (length reads.old.flags) true }
    ensures room { reads.new.room ≡ reads.old.room }
{
    if let Re::Seq(list) = re {
        advance_list(list, end, next, read, reads);
    } else {
        let _ends = advance(re, next, read, true, reads);
    }
}

/// One tree after another, up to one from which on nothing is going on.
fn advance_list(list: &ReList, end: usize, next: Next, read: &PositionSet, reads: &mut PositionSet)
    requires end { end ≡ length reads.old.flags + count_in (list_view list.now) }
    requires room { end ≤ reads.old.room }
    requires small { end ≤ 16384 }
    ensures flags { reads.new.flags ≡ reads.old.flags ++ reads_next_in_turn (list_view list.now) next.first (flag_at
        read.now.flags) next.character (length reads.old.flags) true }
    ensures room { reads.new.room ≡ reads.old.room }
{
    let mut here = true;
    for re in list.as_slice() {
        let at = reads.len();
        if read.has_none_from(at) && !here {
            reads.push_none(end - at);
            return;
        }
        here = advance_item(re, next, read, here, reads);
    }
}

/// `advance` for a set of characters, which is one position.
fn advance_set(
    set: &CharSet,
    next: Next,
    read: &PositionSet,
    begins: bool,
    reads: &mut PositionSet,
) -> bool
    requires room { length reads.old.flags < reads.old.room }
    ensures ends { result ≡ flag_at read.now.flags (length reads.old.flags) }
    ensures flags { reads.new.flags ≡ reads.old.flags ++ (begins && has set.now next.character) ∷ [] }
    ensures room { reads.new.room ≡ reads.old.room }
{
    let at = reads.len();
    let has = set.contains(next.character);
    reads.push(begins & has);
    read.contains(at)
}

/// `advance` for a tree among others. Where nothing is going on in it, its positions are counted and it isn't walked.
#[cycle(advance)]
fn advance_item(
    re: &Re,
    next: Next,
    read: &PositionSet,
    begins: bool,
    reads: &mut PositionSet,
) -> bool
    requires room { length reads.old.flags + count_of (view re.now) ≤ reads.old.room }
    requires small { length reads.old.flags + count_of (view re.now) ≤ 16384 }
    ensures ends { result ≡ ends_here (view re.now) next.first false (flag_at read.now.flags) (length
        reads.old.flags) begins }
    ensures flags { reads.new.flags ≡ reads.old.flags ++ reads_next (view re.now) next.first (flag_at
        read.now.flags) next.character (length reads.old.flags) begins }
    ensures room { reads.new.room ≡ reads.old.room }
{
    if let Re::Set(set) = re {
        return advance_set(set, next, read, begins, reads);
    }
    let at = reads.len();
    if read.has_none_from(at) && !begins {
        reads.push_none(count_positions(re) as usize);
        return false;
    }
    advance(re, next, read, begins, reads)
}

/// Goes through the trees of a list, one after another.
#[cycle(advance)]
fn advance_in_turn(
    list: &ReList,
    next: Next,
    read: &PositionSet,
    begins: bool,
    reads: &mut PositionSet,
) -> bool
    requires room { length reads.old.flags + count_in (list_view list.now) ≤ reads.old.room }
    requires small { length reads.old.flags + count_in (list_view list.now) ≤ 16384 }
    ensures ends { result ≡ ends_here_in_turn (list_view list.now) next.first false (flag_at
        read.now.flags) (length reads.old.flags) begins }
    ensures flags { reads.new.flags ≡ reads.old.flags ++ reads_next_in_turn (list_view list.now) next.first (flag_at
        read.now.flags) next.character (length reads.old.flags) begins }
    ensures room { reads.new.room ≡ reads.old.room }
{
    let mut here = begins;
    for re in list.as_slice() {
        here = advance_item(re, next, read, here, reads);
    }
    here
}

/// Goes through the trees of a list, each of them an alternative.
#[cycle(advance)]
fn advance_of_one(
    list: &ReList,
    next: Next,
    read: &PositionSet,
    begins: bool,
    reads: &mut PositionSet,
) -> bool
    requires room { length reads.old.flags + count_in (list_view list.now) ≤ reads.old.room }
    requires small { length reads.old.flags + count_in (list_view list.now) ≤ 16384 }
    ensures ends { result ≡ ends_here_of_one (list_view list.now) next.first false (flag_at
        read.now.flags) (length reads.old.flags) begins }
    ensures flags { reads.new.flags ≡ reads.old.flags ++ reads_next_of_one (list_view list.now) next.first (flag_at
        read.now.flags) next.character (length reads.old.flags) begins }
    ensures room { reads.new.room ≡ reads.old.room }
{
    let mut ends = false;
    for re in list.as_slice() {
        if let Re::Set(set) = re {
            let at = reads.len();
            let has = set.contains(next.character);
            reads.push(begins & has);
            ends = ends | read.contains(at);
        } else {
            ends = ends | advance_item(re, next, read, begins, reads);
        }
    }
    ends
}

/// The tree so often at least, and so often at most. Where each copy is one position, or a choice, the character is
/// looked up once for all copies.
#[cycle(advance)]
fn advance_repeated(
    inner: &Re,
    times: Times,
    next: Next,
    read: &PositionSet,
    begins: bool,
    reads: &mut PositionSet,
) -> bool
    requires room { length reads.old.flags + copies times.low times.high * count_of (view inner.now) ≤ reads.old.room }
    requires small { length reads.old.flags + copies times.low times.high * count_of (view inner.now) ≤ 16384 }
    ensures ends { result ≡ ends_here (repeated (view inner.now) times.low times.high) next.first false (flag_at
        read.now.flags) (length reads.old.flags) begins }
    ensures flags { reads.new.flags ≡ reads.old.flags ++ reads_next (repeated (view
        inner.now) times.low times.high) next.first (flag_at read.now.flags) next.character (length
        reads.old.flags) begins }
    ensures room { reads.new.room ≡ reads.old.room }
{
    if let Re::Set(set) = inner {
        return advance_run(set, times, next, read, begins, reads);
    }
    if let Re::Alt(list) = inner {
        if let Some(choice) = choice_of(list, next.character) {
            return advance_choices(choice, times, read, begins, reads);
        }
    }
    if let Some(most) = times.high {
        if let Some(has) = option_has(inner, next.character) {
            return advance_options(has, times.low, most, read, begins, reads);
        }
    }
    advance_copies(inner, times, next, read, begins, reads)
}

/// `advance` for copies of any tree, copy after copy, up to one from which on nothing is going on.
#[cycle(advance)]
fn advance_copies(
    inner: &Re,
    times: Times,
    next: Next,
    read: &PositionSet,
    begins: bool,
    reads: &mut PositionSet,
) -> bool
    requires room { length reads.old.flags + copies times.low times.high * count_of (view inner.now) ≤ reads.old.room }
    requires small { length reads.old.flags + copies times.low times.high * count_of (view inner.now) ≤ 16384 }
    ensures ends { result ≡ ends_here (repeated (view inner.now) times.low times.high) next.first false (flag_at
        read.now.flags) (length reads.old.flags) begins }
    ensures flags { reads.new.flags ≡ reads.old.flags ++ reads_next (repeated (view
        inner.now) times.low times.high) next.first (flag_at read.now.flags) next.character (length
        reads.old.flags) begins }
    ensures room { reads.new.room ≡ reads.old.room }
{
    let count = times.copies();
    let base = reads.len();
    let mut here = begins;
    let mut ends = may_end(times.low, 0, begins);
    for i in 0..count {
        let again = times.comes_again(count - (i + 1));
        let at = reads.len();
        let start = begins_copy(inner, again, next.first, read, at, here);
        let one = advance(inner, next, read, start, reads);
        let after = reads.len();
        if after == base {
            return ends_still(times.low, count, begins, one);
        }
        here = one;
        ends = ends | may_end(times.low, i + 1, here);
        if read.has_none_from(after) && !here {
            reads.push_none((count - (i + 1)) as usize * (after - at));
            return ends;
        }
    }
    ends
}

/// `advance_copies` for copies of one set of characters, which is tested once for all of them.
fn advance_run(
    set: &CharSet,
    times: Times,
    next: Next,
    read: &PositionSet,
    begins: bool,
    reads: &mut PositionSet,
) -> bool
    requires room { length reads.old.flags + copies times.low times.high ≤ reads.old.room }
    requires small { length reads.old.flags + copies times.low times.high ≤ 16384 }
    ensures ends { result ≡ ends_here (repeated (one_of set.now) times.low times.high) next.first false (flag_at
        read.now.flags) (length reads.old.flags) begins }
    ensures flags { reads.new.flags ≡ reads.old.flags ++ reads_next (repeated (one_of
        set.now) times.low times.high) next.first (flag_at read.now.flags) next.character (length
        reads.old.flags) begins }
    ensures room { reads.new.room ≡ reads.old.room }
{
    let count = times.copies();
    let ends = ends_run(times, read, reads.len(), begins).ends;
    if !set.contains(next.character) {
        reads.push_none(count as usize);
        return ends;
    }
    push_copies(count as usize, times.high.is_none(), read, begins, reads);
    ends
}

/// `advance_copies` for copies of a choice of sets, each of which is tested once for all copies.
fn advance_choices(
    choice: Choice,
    times: Times,
    read: &PositionSet,
    begins: bool,
    reads: &mut PositionSet,
) -> bool
    requires some { 0 < choice.count }
    requires few { choice.count ≤ 64 }
    requires bits { choice.bits < 2 ^ choice.count }
    requires room { length reads.old.flags + copies times.low times.high * choice.count ≤ reads.old.room }
    requires small { length reads.old.flags + copies times.low times.high * choice.count ≤ 16384 }
    ensures ends { (ts : Trees) (c : ℕ) (first : Bool) → IsChoice ts c choice.count choice.bits
        → result ≡ ends_here (repeated (either ts) times.low times.high) first false (flag_at read.now.flags) (length
        reads.old.flags) begins }
    ensures flags { (ts : Trees) (c : ℕ) (first : Bool) → IsChoice ts c choice.count choice.bits
        → reads.new.flags ≡ reads.old.flags ++ reads_next (repeated (either ts) times.low times.high) first (flag_at
        read.now.flags) c (length reads.old.flags) begins }
    ensures room { reads.new.room ≡ reads.old.room }
{
    let count = times.copies() as usize;
    let skipped = times.low.saturating_sub(1) as usize;
    let from = reads.len() + skipped * choice.count;
    let left = count.saturating_sub(skipped) * choice.count;
    let ends = may_end(times.low, 0, begins) | has_some(read, from, left);
    push_choices(choice, count, times.high.is_none(), read, begins, reads);
    ends
}

/// `advance_copies` for copies of a set that may be left out, of which `has` says whether it has the character. A match
/// can end where one can begin, and after each copy that was read.
fn advance_options(
    has: bool,
    low: u32,
    high: u32,
    read: &PositionSet,
    begins: bool,
    reads: &mut PositionSet,
) -> bool
    requires room { length reads.old.flags + high ≤ reads.old.room }
    requires small { length reads.old.flags + high ≤ 16384 }
    ensures ends { (t : Tree) (c : ℕ) (first : Bool) → IsOptionThat has t c
        → result ≡ ends_here (repeated t low (Some high)) first false (flag_at read.now.flags) (length
        reads.old.flags) begins }
    ensures flags { (t : Tree) (c : ℕ) (first : Bool) → IsOptionThat has t c
        → reads.new.flags ≡ reads.old.flags ++ reads_next (repeated t low (Some high)) first (flag_at
        read.now.flags) c (length reads.old.flags) begins }
    ensures room { reads.new.room ≡ reads.old.room }
{
    let some = begins | has_some(read, reads.len(), high as usize);
    let ends = may_end(low, high, some);
    if has {
        push_options(high as usize, read, begins, reads);
        return ends;
    }
    reads.push_none(high as usize);
    ends
}

/// Whether a match of a copy can begin: where the one before ends, or, where it may come again, where it ends itself.
fn begins_copy(
    inner: &Re,
    again: bool,
    first: bool,
    read: &PositionSet,
    base: usize,
    here: bool,
) -> bool
    requires { base + count_of (view inner.now) ≤ 16384 }
    ensures { result ≡ if again then here || ends_here (view inner.now) first false (flag_at
        read.now.flags) base false else here }
{
    if !again || here {
        return here;
    }
    let last = false;
    ends_here(inner, Edges { first, last }, read, base, false).ends
}
