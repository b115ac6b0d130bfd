//! Lines of a certificate that state an automaton: a line for each row, least lengths, and bounds of cells.
//!
//! What is written is what the rows and the counts of their words say, so nothing here is searched for.
#![tactic(auto)]

mod caps;
mod least;
mod rows;
mod strings;

pub use caps::add_cap_lines;
pub use least::least_line;
pub use rows::add_row_lines;
pub use strings::add_string_lines;
