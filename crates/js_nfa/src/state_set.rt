//! States of words, character by character.

ghost use Rattle.std.specs.Prelude.{◌≡◌, ◌↔◌, ℕ, List, [], ◌∷◌, ◌++◌, false, IfOk, IsTrue};
ghost use Rattle.patterns.specs.Decision.{finds};
ghost use Rattle.patterns.specs.Match.{IsFoundIn};
ghost use Rattle.state_laws.specs.Flow.{next_state, is_accepted};
ghost use Rattle.js_nfa.specs.View.{tree_of, set_view, state_of, after};

use crate::nfa::Nfa;
use crate::state::PatternState;
use js_doc::Memory;
use std::alloc::Global;

/// What is kept of a word. Contracts see it by `set_view`.
#[derive(Drop)]
pub struct StateSet {
    pub(crate) is_empty: bool,
    pub(crate) state: PatternState,
}

/// The state of the empty word.
pub fn start(alloc: Global, nfa: &Nfa) -> Result<StateSet, Memory>
    ensures { IfOk result (λ s. set_view s ≡ state_of (tree_of nfa.now) []) }
{
    let state = nfa.first_state(alloc)?;
    Ok(StateSet {
        is_empty: true,
        state,
    })
}

/// The state after one more character. It costs what a character costs `finds`.
pub fn step(alloc: Global, nfa: &Nfa, set: &StateSet, c: char) -> Result<StateSet, Memory>
    ensures next { IfOk result (λ s. set_view s ≡ after (tree_of nfa.now) c (set_view set.now)) }
    ensures word { IfOk result (λ s. (w : List ℕ) → set_view set.now ≡ state_of (tree_of nfa.now) w
        → set_view s ≡ state_of (tree_of nfa.now) (w ++ c ∷ [])) }
{
    let state = nfa.next_state(alloc, &set.state, set.is_empty, c)?;
    Ok(StateSet {
        is_empty: false,
        state,
    })
}

/// Whether the pattern matches in the words of that state.
pub fn accepts(nfa: &Nfa, set: &StateSet) -> bool
    ensures state { result ≡ is_accepted (tree_of nfa.now) (set_view set.now).0 (set_view set.now).1 }
    ensures finds { (w : List ℕ) → set_view set.now ≡ state_of (tree_of nfa.now) w
        → result ≡ finds (tree_of nfa.now) w }
    ensures relation { (w : List ℕ) → set_view set.now ≡ state_of (tree_of nfa.now) w
        → (IsTrue result ↔ IsFoundIn w (tree_of nfa.now)) }
{
    nfa.is_accepted(&set.state, set.is_empty)
}
