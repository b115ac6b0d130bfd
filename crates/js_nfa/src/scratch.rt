//! Room for the states of a word's beginnings.

use crate::nfa::Nfa;
use js_doc::Memory;
use js_pattern_positions::PositionSet;
use std::alloc::Global;

/// Room for the states that `finds` goes through: the positions that were read last, and those that read the next
/// character.
#[derive(Drop)]
pub struct Scratch {
    pub(crate) read: PositionSet,
    pub(crate) reads: PositionSet,
}

impl Scratch {
    ghost use Rattle.std.specs.Prelude.{IfOk};
    ghost use Rattle.js_nfa.specs.View.{HasRoom};

    /// Room for the states of an automaton: two flags a position.
    pub fn room(alloc: Global, nfa: &Nfa) -> Result<Scratch, Memory>
        ensures { IfOk result (HasRoom nfa.now) }
    {
        Ok(Scratch {
            read: PositionSet::with_room(alloc, nfa.len())?,
            reads: PositionSet::with_room(alloc, nfa.len())?,
        })
    }
}
