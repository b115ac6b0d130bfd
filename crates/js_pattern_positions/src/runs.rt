//! Positions that follow one another, a word of flags at a time: whether one of them was read, and which of them read
//! the next character where they are copies of one set that has it.
//!
//! A copy begins where the one before was read. So the flags of the copies are those of the positions that were read,
//! moved on by one place.

ghost use Rattle.std.specs.Prelude.{◌≡◌, ◌+◌, ◌%◌, ◌^◌, ◌<◌, ◌≤◌, ◌++◌, true, false, length, IsTrue};
ghost use Rattle.state_laws.specs.Flow.{flag_at};
ghost use Rattle.js_pattern_positions.specs.Walk.{some_in, copies_begun};

use crate::position_set::PositionSet;

/// Whether one of so many positions is in the set. It costs a look at each word.
pub(crate) fn has_some(set: &PositionSet, from: usize, count: usize) -> bool
    requires { from + count < 2 ^ 63 }
    ensures { result ≡ some_in (flag_at set.now.flags) count from }
{
    let end = from + count;
    let mut at = from;
    while at < end {
        let part = (64 - at % 64).min(end - at);
        if has_some_here(set, at, part) {
            return true;
        }
        at += part;
    }
    false
}

/// `has_some` where the positions have their bits in one word.
fn has_some_here(set: &PositionSet, from: usize, count: usize) -> bool
    requires { from % 64 + count ≤ 64 }
    ensures { result ≡ some_in (flag_at set.now.flags) count from }
{
    set.bits(from, count) != 0
}

/// Appends for each of so many copies of a set whether it begins, where the first does if `begins` says so. The last
/// may come again and again where `again` says so.
pub(crate) fn push_copies(
    count: usize,
    again: bool,
    read: &PositionSet,
    begins: bool,
    reads: &mut PositionSet,
)
    requires some { IsTrue again → 0 < count }
    requires room { length reads.old.flags + count ≤ reads.old.room }
    requires small { length reads.old.flags + count ≤ 16384 }
    ensures flags { reads.new.flags ≡ reads.old.flags ++ copies_begun again (flag_at
        read.now.flags) count (length reads.old.flags) begins }
    ensures room { reads.new.room ≡ reads.old.room }
{
    if !again {
        push_run(count, read, begins, reads);
        return;
    }
    let last = reads.len() + (count - 1);
    let here = if count == 1 {
        begins
    } else {
        read.contains(last - 1)
    };
    push_run(count - 1, read, begins, reads);
    reads.push(here | read.contains(last));
}

/// `push_copies` where no copy comes again: words of flags are shifted by one.
fn push_run(count: usize, read: &PositionSet, begins: bool, reads: &mut PositionSet)
    requires room { length reads.old.flags + count ≤ reads.old.room }
    requires small { length reads.old.flags + count ≤ 16384 }
    ensures flags { reads.new.flags ≡ reads.old.flags ++ copies_begun false (flag_at
        read.now.flags) count (length reads.old.flags) begins }
    ensures room { reads.new.room ≡ reads.old.room }
{
    let mut at = reads.len();
    let end = at + count;
    let mut here = begins;
    while at < end {
        if read.has_none_from(at) && !here {
            reads.push_none(end - at);
            return;
        }
        let part = (64 - at % 64).min(end - at);
        push_part(part, read, here, reads);
        at += part;
        here = read.contains(at - 1);
    }
}

/// `push_run` where the flags have their bits in one word.
fn push_part(count: usize, read: &PositionSet, begins: bool, reads: &mut PositionSet)
    requires some { 0 < count }
    requires word { length reads.old.flags % 64 + count ≤ 64 }
    requires room { length reads.old.flags + count ≤ reads.old.room }
    ensures flags { reads.new.flags ≡ reads.old.flags ++ copies_begun false (flag_at
        read.now.flags) count (length reads.old.flags) begins }
    ensures room { reads.new.room ≡ reads.old.room }
{
    let before = read.bits(reads.len(), count - 1);
    reads.push_bits(before * 2 + u64::from(begins), count);
}
