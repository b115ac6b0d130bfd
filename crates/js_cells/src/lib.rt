//! The cells of the names of a set: names of which its literals say the same, with how many names a cell has, and the
//! first of them in order.
//!
//! What the literals say of a name is determined by the truths of their atoms. A row of the automaton of these atoms
//! has words of which the same is said, so a cell is some of its rows.
#![tactic(auto)]

mod flags;
mod grouping;
mod name_cells;
mod row_length;
mod telling;
mod truths;
mod walk;

pub use name_cells::Cells;
