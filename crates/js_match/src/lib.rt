//! Whether a pattern matches somewhere in a word.
//!
//! A pattern is given by its tree, and a word by its characters. Sets of places go through the tree, so time is
//! polynomial in the word whatever the pattern, and how often a pattern repeats is no depth of recursion. Whoever
//! judges documents stands on it.
#![tactic(auto)]

mod anchor;
mod first;
mod found;
mod places;
mod run;
mod walk;

pub use found::{is_found, is_in, letters};
