//! Patterns, and what is required of the names of members.

use crate::lists::PatternList;
use crate::node::Pos;
use js_doc::{Str, StrList};
use js_pattern::Re;

/// A pattern: its text, and the tree by which it matches.
#[derive(Drop)]
pub struct Pattern {
    pub source: Str,
    pub re: Re,
}

/// A list of names.
pub type NameList = StrList;

/// A set of names; `name_set_view` is the set that it stands for.
#[derive(Drop)]
pub enum NameSet {
    Named(Str),
    Matching(Pattern),
    /// The names that are none of these, and that none of the patterns matches.
    Others(NameList, PatternList),
}

/// What is required of a name; `formula_view` is the formula that it stands for.
#[derive(Drop)]
pub enum NameFormula {
    Is(Str),
    In(NameSet),
    /// The position holds of the name as a string.
    Holds(Pos),
}
