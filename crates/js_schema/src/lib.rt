//! Schemas of draft-06 as tables of entries: one entry for each place of a schema that its walk comes to.
//!
//! An entry names others by their numbers, so that references may lead in circles. `specs/View.antt` says which entry
//! of the definitions a value of the program stands for. The reader of schemas, `js_reader`, makes these tables; the
//! validator, the guard against circles and the normal form stand on this crate.
#![tactic(auto)]

mod constraints;
mod entry;
mod lists;
mod part;
mod pattern;
mod table;

pub use constraints::{
    AnyKeywords, ArrayKeywords, InPlaceKeywords, Keywords, NumberKeywords, ObjectKeywords,
    StringKeywords,
};
pub use entry::{Entry, Form};
pub use js_keywords::TypeName;
pub use lists::{DependencyList, EntryList, PatternPropertyList, PropertyList, TypeList};
pub use part::{Dependency, ItemsPart, Needs, PatternProperty, Property};
pub use pattern::PatternText;
pub use table::Schema;
