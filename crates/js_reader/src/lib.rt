//! The reader of schemas: a JSON value as the table of entries of `js_schema`, or what is wrong in it first.
//!
//! `js_walk` gives the places; an entry is made of each, by the keywords of its object. Reading takes time and memory
//! in proportion to the values that the schema reaches. What reads files, `js_input`, and the comparison with `false`
//! stand on this crate.
#![tactic(auto)]

mod fields;
mod forms;
mod keyword_place;
mod keywords;
mod links;
mod numbers;
mod object;
mod read;
mod values;

pub use read::read_schema;
