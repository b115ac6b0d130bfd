//! What the literals of a set require of words, by the truths of atoms.
//!
//! The literals are gone through once: the atoms of the words that they list and of their patterns are kept, each once,
//! with that of the least length, and the truth that each is to have is kept by its atom's number. So whoever knows the
//! truths of the atoms at a word knows whether the word is as required.
#![tactic(auto)]

mod asked;
mod wish;

pub use wish::{Asked, Wish};
