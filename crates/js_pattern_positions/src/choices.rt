//! Copies of a choice of sets: which positions of a copy read the next character is the same for all copies that begin.
//!
//! So the sets are tested once, and a copy costs a look at the bits of its positions.

ghost use Rattle.std.specs.Prelude.{◌≡◌, ◌+◌, ◌-◌, ◌*◌, ◌^◌, ◌<◌, ◌≤◌, ◌++◌, ◌∷◌, [], length, IsTrue};
ghost use Rattle.std.specs.Option.{IfSome};
ghost use Rattle.state_laws.specs.Flow.{flag_at};
ghost use Rattle.js_pattern.specs.View.{view, list_view};
ghost use Rattle.js_pattern_positions.specs.Bits.{flags_of};
ghost use Rattle.js_pattern_positions.specs.Choices.{IsSetThat, IsChoice, chosen, choices_begun};

use crate::position_set::PositionSet;
use crate::runs::has_some;
use js_pattern::{Re, ReList};

/// How many sets a choice is of, and which of them have a character, from the lowest bit on.
#[derive(Clone, Copy)]
pub(crate) struct Choice {
    pub(crate) count: usize,
    pub(crate) bits: u64,
}

/// The choice that a list is, where it has only sets, and no more than a word has bits.
pub(crate) fn choice_of(list: &ReList, character: char) -> Option<Choice>
    ensures { IfSome result (λ choice. IsChoice (list_view list.now) character choice.count choice.bits) }
{
    let items = list.as_slice();
    let count = items.len();
    if count == 0 || count > 64 {
        return None;
    }
    let mut bits: u64 = 0;
    let mut place: usize = 0;
    for re in items {
        let Some(has) = set_has(re, character) else {
            return None;
        };
        bits += u64::from(has) << place;
        place += 1;
    }
    Some(Choice { count: place, bits })
}

/// Whether the set that a tree is has a character.
pub(crate) fn set_has(re: &Re, character: char) -> Option<bool>
    ensures { IfSome result (λ has. IsSetThat has (view re.now) character) }
{
    match re {
        Re::Set(set) => Some(set.contains(character)),
        _ => None,
    }
}

/// Appends for each position of so many copies of a choice whether it reads the character, where the first copy begins
/// if `begins` says so. The last may come again and again where `again` says so.
pub(crate) fn push_choices(
    choice: Choice,
    count: usize,
    again: bool,
    read: &PositionSet,
    begins: bool,
    reads: &mut PositionSet,
)
    requires some { 0 < choice.count }
    requires few { choice.count ≤ 64 }
    requires bits { choice.bits < 2 ^ choice.count }
    requires room { length reads.old.flags + count * choice.count ≤ reads.old.room }
    requires small { length reads.old.flags + count * choice.count ≤ 16384 }
    ensures flags { reads.new.flags ≡ reads.old.flags ++ choices_begun again choice.bits choice.count (flag_at
        read.now.flags) count (length reads.old.flags) begins }
    ensures room { reads.new.room ≡ reads.old.room }
{
    let mut here = begins;
    for i in 0..count {
        let at = reads.len();
        let left = count - (i + 1);
        let was = has_some(read, at, choice.count);
        let last = again & (left == 0);
        push_copy(choice, here | (last & was), reads);
        here = was;
        if read.has_none_from(at + choice.count) && !here {
            reads.push_none(left * choice.count);
            return;
        }
    }
}

/// Appends the flags of one copy: those of the bits where it begins, and else none.
fn push_copy(choice: Choice, begins: bool, reads: &mut PositionSet)
    requires some { 0 < choice.count }
    requires few { choice.count ≤ 64 }
    requires bits { choice.bits < 2 ^ choice.count }
    requires room { length reads.old.flags + choice.count ≤ reads.old.room }
    ensures flags { reads.new.flags ≡ reads.old.flags ++ chosen choice.bits choice.count begins }
    ensures room { reads.new.room ≡ reads.old.room }
{
    if begins {
        push_some(choice.bits, choice.count, reads);
    } else {
        reads.push_none(choice.count);
    }
}

/// So many flags, from the lowest bit of a number on.
fn push_some(bits: u64, count: usize, reads: &mut PositionSet)
    requires some { 0 < count }
    requires few { count ≤ 64 }
    requires small { bits < 2 ^ count }
    requires room { length reads.old.flags + count ≤ reads.old.room }
    ensures flags { reads.new.flags ≡ reads.old.flags ++ flags_of (bits ∷ []) count }
    ensures room { reads.new.room ≡ reads.old.room }
{
    let part = 64 - reads.len() % 64;
    if count <= part {
        reads.push_bits(bits, count);
        return;
    }
    reads.push_bits(bits % (1 << part), part);
    reads.push_bits(bits >> part, count - part);
}
