//! What is kept of a word for a pattern, but for whether the word is empty.
//!
//! States are compared and hashed by their positions, in a look at each word of 64. So they serve as keys of a table,
//! however a set of positions is stored.

ghost use Rattle.std.specs.Prelude.{◌≡◌};
ghost use Rattle.std.specs.Cmp.{on_equiv, on_per, partial_equiv_from_equiv};
ghost use Rattle.std.specs.List.{fold};
ghost use Rattle.word_states.specs.PatternState.{numbers_from};
ghost use Rattle.word_states.specs.WordState.{same_pattern_state};
ghost use Rattle.js_nfa.specs.View.{state_view};
ghost use Rattle.js_nfa.specs.Fed.{fed_state, fed_places};
ghost use Rattle.js_nfa.specs.StateLaws.{same_pattern_state-equivalence, fed-same};

use js_pattern_positions::PositionSet;
use std::hash::{Hash, Hasher};

/// What is kept of a word. Contracts see it by `state_view`.
#[derive(Drop)]
pub enum PatternState {
    /// A match lies in the word, whatever comes after it.
    Done,
    /// The positions that partial matches read last at the word's end.
    Reading(PositionSet),
}

impl PartialEq for PatternState {
    ghost eq = { λ x y. same_pattern_state (state_view x) (state_view y) };

    ghost laws = { on_per state_view (partial_equiv_from_equiv same_pattern_state-equivalence) };

    fn eq(&self, other: &PatternState) -> bool {
        is_same(self, other)
    }
}

impl Eq for PatternState {
    ghost laws = { on_equiv state_view same_pattern_state-equivalence };
}

impl Hash for PatternState {
    ghost hash_input = { λ s. fed_state (state_view s) };

    ghost respects_eq = { fed-same };

    fn hash<H: Hasher>(&self, state: &mut H) {
        match self {
            PatternState::Done => true.hash(state),
            PatternState::Reading(read) => {
                false.hash(state);
                feed(read, state);
            }
        }
    }
}

fn is_same(x: &PatternState, y: &PatternState) -> bool
    ensures { result ≡ same_pattern_state (state_view x.now) (state_view y.now) }
{
    match (x, y) {
        (PatternState::Done, PatternState::Done) => true,
        (PatternState::Reading(read), PatternState::Reading(other)) => read.same(other),
        _ => false,
    }
}

/// Feeds a hasher the positions of a set, as the words that have some of them.
///
/// A word goes with its number, so those without a position cost no feed.
fn feed<H: Hasher>(positions: &PositionSet, state: &mut H)
    ensures { state.new ≡ fold H.write state.old (fed_places (numbers_from 0 positions.now.flags)) }
{
    for index in 0..positions.count_words() {
        let word = positions.word(index);
        if word != 0 {
            index.hash(state);
            word.hash(state);
        }
    }
}
