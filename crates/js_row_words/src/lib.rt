//! The words that lead from the rows of an automaton to rows that are marked: how many there are, and the first of them
//! in order.
#![tactic(auto)]

mod choose;
mod count;
mod endless;
mod first;
mod numbers;
mod reached;
mod row_steps;
mod runs;
mod sources;
mod spelling;
mod words;

pub use count::{MOST_WORDS, WordCounter};
pub use first::first_words;
pub use row_steps::{Step, steps};
pub use spelling::{letters_of, spell};
