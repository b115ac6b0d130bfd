//! Patterns: a profile of ECMA-262's regular expressions, read into the tree that decides matching.
//!
//! `read_pattern` answers the tree of a text or its first fault, exactly by the grammar in `specs/Grammar.antt`, in
//! time about the length of the text. `CharSet` is a set of characters with exact operations. The crates that make
//! automata of patterns, and those that read and check schemas, stand on both.
#![tactic(auto)]

mod char_set;
mod class;
mod escape;
mod fault;
mod level;
mod order;
mod quantifier;
mod range_list;
mod ranges;
mod re;
mod reader;
mod scan;
mod term;
mod trees;

pub use char_set::CharSet;
pub use fault::{Memory, PatternFault, PatternForm};
pub use re::{Re, ReList};
pub use reader::read_pattern;
