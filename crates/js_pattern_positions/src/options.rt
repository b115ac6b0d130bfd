//! Copies of a set that may be left out: from the first on that begins, all do.

ghost use Rattle.std.specs.Prelude.{◌≡◌, ◌+◌, ◌%◌, ◌<◌, ◌≤◌, ◌++◌, true, length, replicate};
ghost use Rattle.std.specs.Option.{IfSome};
ghost use Rattle.state_laws.specs.Flow.{flag_at};
ghost use Rattle.js_pattern.specs.View.{view};
ghost use Rattle.js_pattern_positions.specs.Choices.{IsOptionThat, options_begun};

use crate::choices::set_has;
use crate::position_set::PositionSet;
use js_pattern::Re;

/// Whether a set has a character, where a tree is such a set that may be left out.
pub(crate) fn option_has(re: &Re, character: char) -> Option<bool>
    ensures { IfSome result (λ has. IsOptionThat has (view re.now) character) }
{
    match re {
        Re::Repeat(inner, 0, Some(1)) => set_has(inner, character),
        _ => None,
    }
}

/// Appends for each of so many copies whether it begins, where the first does if `begins` says so.
pub(crate) fn push_options(count: usize, read: &PositionSet, begins: bool, reads: &mut PositionSet)
    requires room { length reads.old.flags + count ≤ reads.old.room }
    requires small { length reads.old.flags + count ≤ 16384 }
    ensures flags { reads.new.flags ≡ reads.old.flags ++ options_begun (flag_at read.now.flags) count (length
        reads.old.flags) begins }
    ensures room { reads.new.room ≡ reads.old.room }
{
    let mut at = reads.len();
    let end = at + count;
    let mut here = begins;
    while at < end {
        if here {
            push_all(end - at, reads);
            return;
        }
        reads.push_none(1);
        here = read.contains(at);
        at += 1;
    }
}

/// So many flags that are set, a word of them at a time.
pub(crate) fn push_all(count: usize, reads: &mut PositionSet)
    requires room { length reads.old.flags + count ≤ reads.old.room }
    requires small { length reads.old.flags + count ≤ 16384 }
    ensures flags { reads.new.flags ≡ reads.old.flags ++ replicate count true }
    ensures room { reads.new.room ≡ reads.old.room }
{
    let mut at = reads.len();
    let end = at + count;
    while at < end {
        let part = (64 - at % 64).min(end - at);
        push_ones(part, reads);
        at += part;
    }
}

/// `push_all` where the flags have their bits in one word.
fn push_ones(count: usize, reads: &mut PositionSet)
    requires some { 0 < count }
    requires word { length reads.old.flags % 64 + count ≤ 64 }
    requires room { length reads.old.flags + count ≤ reads.old.room }
    ensures flags { reads.new.flags ≡ reads.old.flags ++ replicate count true }
    ensures room { reads.new.room ≡ reads.old.room }
{
    reads.push_bits(u64::MAX >> (64 - count), count);
}
