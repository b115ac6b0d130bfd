//! The alternatives of branches at objects: their bounds, their frames over the cells of names, and the limits; and the
//! first names of a cell.
//!
//! `object_alternatives` answers the leaf of the definition, and its contract says what the alternatives mean. It costs
//! the automaton of the names with its cells, the counts of these, and the walk through the plans. `object_words` costs
//! the automaton with its cells again, and the names; `object_words_by_cell` costs them once for all cells.
#![tactic(auto)]

mod cell_tests;
mod fault;
mod leaf;
mod names;
mod object_frame;
mod passing;
mod words;

pub use fault::ObjectFault;
pub use leaf::{MOST_COUNTS, frame_of, object_alternatives};
pub use names::name_automaton;
pub use object_frame::ObjectFrame;
pub use words::{object_words, object_words_by_cell};
