//! The rows of an automaton as a certificate states them, judged line by line.
//!
//! A line names the rows to which the next row leads, class by class. A target is right where it has the state that the
//! step gives, so nothing is explored: a line costs a step and a comparison for each class, and what is kept is a state
//! for each row that was mentioned. Labels of whole rows are judged too: least lengths, and bounds of cells.
#![tactic(auto)]

mod fault;
mod labels;
mod mention;
mod mentions;
mod rows;
mod rules;
mod widths;

pub use fault::RowFault;
pub use rows::Rows;
pub use rules::rule_of;
