//! The text of a core table, in which the command `norm` prints a schema.
//!
//! A line has the number of positions, and then each position has a line: its number, the word of its kind, and what
//! it requires. The text is exactly that of `specs/CoreText.antt`. It costs time and memory in proportion to it.
#![tactic(auto)]

mod strings;
mod text;

pub use text::core_text;
