//! Core tables of schemas: the table that a schema's entries make, and two tables in one.
//!
//! `normalise` builds the table that `normal_forms` defines, and `join_tables` puts a second table behind a first one.
//! The search and the text of tables stand on this crate.
#![tactic(auto)]

mod join;
mod keywords;
mod lists;
mod normal;
mod single;

pub use join::join_tables;
pub use normal::normalise;
