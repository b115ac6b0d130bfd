//! Patterns as automata: which positions of a pattern a partial match read last, and whether the pattern matches in a
//! word.
//!
//! This is the position automaton (V. M. Glushkov, 1961): it has no state but the positions of the pattern's sets, and
//! no step without a character. A state of a word is a set of positions. It goes on by the next character in one walk
//! over the tree (`js_pattern_positions`), and what follows what isn't stored for that. For patterns with few
//! positions, such walks say beforehand what follows each.
#![tactic(auto)]

mod atom;
mod columns;
mod fault;
mod find;
mod follow;
mod follow_sets;
mod followers;
mod fours;
mod make;
mod nfa;
mod same_atom;
mod scratch;
mod state;
mod state_set;

pub use atom::Atom;
pub use fault::NfaFault;
pub use find::finds;
pub use make::positions;
pub use nfa::Nfa;
pub use scratch::Scratch;
pub use state::PatternState;
pub use state_set::{StateSet, accepts, start, step};
