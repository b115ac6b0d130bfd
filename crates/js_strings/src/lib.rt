//! Strings: the word of a branch, found by the automaton of its patterns and lists.
//!
//! The literals of a set require truths of atoms, and a least and a greatest length. The rows of the automaton of these
//! atoms are in the order of their words, so the word is that of the first row with the required truths. It is spelled
//! backwards by the steps that first named each row.
#![tactic(auto)]

mod rows;
mod strings;

pub use strings::{string_alternatives, string_words};
