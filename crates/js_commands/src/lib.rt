//! What the files of a command come to, from their names, and what the schemas of a family come to: a file here for
//! each command.
//!
//! A command reads its files in the order of its words, each only after the one before it was read as a schema, and
//! then decides. `specs` has for each command what its files come to (`Outcome`), what that means (`Meaning`), and what
//! the call answers (`Saying`). A call costs what reading the files and deciding cost. The top call stands on this
//! crate.
#![tactic(auto)]

mod check;
mod family;
mod include;
mod norm;
mod valid;

pub use check::{Checking, check_files};
pub use family::{FamilyInclusion, compare_family};
pub use include::{Inclusion, compare_files};
pub use js_decide::{Decided, Verdict};
pub use norm::{Listing, list_table};
pub use valid::{Validation, validate};
