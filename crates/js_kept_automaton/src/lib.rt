//! The automaton that was built last, kept for the atoms that come next.
//!
//! The branches of a goal at strings or objects mostly say the same of words or names. So what was built for one of
//! them serves the next one where its atoms are the same: their automaton, or the limit that they pass.
#![tactic(auto)]

mod kept;

pub use kept::KeptAutomaton;
