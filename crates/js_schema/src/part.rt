//! Parts of keywords: schemas by their numbers, with what they apply to.

use crate::lists::EntryList;
use crate::pattern::PatternText;
use js_doc::{Str, StrList};

/// `items`: one schema for each element, or a list of schemas, each for the element at its place.
#[derive(Drop)]
pub enum ItemsPart {
    Each(u32),
    Listed(EntryList),
}

/// A member of `properties`.
#[derive(Drop)]
pub struct Property {
    pub name: Str,
    pub entry: u32,
}

/// A member of `patternProperties`.
#[derive(Drop)]
pub struct PatternProperty {
    pub pattern: PatternText,
    pub entry: u32,
}

/// What the presence of a name requires: that other names are there, or a schema of the whole object.
#[derive(Drop)]
pub enum Needs {
    Names(StrList),
    Whole(u32),
}

/// A member of `dependencies`.
#[derive(Drop)]
pub struct Dependency {
    pub key: Str,
    pub needs: Needs,
}
