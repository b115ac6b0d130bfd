//! Whether every document that is valid for one schema is valid for another.
//!
//! Both schemas become core tables, and these one table, and `js_decide` searches for a document that one root holds of
//! and not the other. A certificate's file is judged over the same table by `js_certificate`. The commands that compare
//! schemas stand on this crate.
#![tactic(auto)]

mod comparing;
mod judge;
mod nothing;
mod tables;

pub use comparing::compare;
pub use judge::judge_file;
pub use nothing::false_schema;
