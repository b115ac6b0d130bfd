//! States of words for a list of atoms, the classes of characters that the atoms don't distinguish, and the rows: the
//! states that words reach, numbered.
//!
//! `Tuples` goes from state to state by classes, so a state and a class give the next state, and a state gives the
//! truth of every atom. `build` numbers the states in order of first mention, and its `Automaton` leads from row to
//! row: the subset construction (M. O. Rabin and D. Scott, 1959), which makes only the sets that words reach, over the
//! product of the atoms' automata.
//! The crates that look up words use it.
#![tactic(auto)]

mod alike;
mod automaton;
mod class_set;
mod classes;
mod dividers;
mod fault;
mod gather;
mod letters;
mod numbers;
mod part;
mod parts;
mod pieces;
mod rows;
mod state;
mod trie;
mod tuples;
mod word_list;

pub use automaton::Automaton;
pub use fault::AutoFault;
pub use rows::build;
pub use state::TupleState;
pub use tuples::Tuples;
