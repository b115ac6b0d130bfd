//! The walk of a schema: its places in their order, or what is wrong first.
//!
//! A place is known by the number of its pointer, in a table of `js_pointers`.
//! The walk comes to each place once, and takes time and memory in proportion to what it comes to. The reader of
//! schemas, `js_reader`, stands on this crate.
#![tactic(auto)]

mod children;
mod done_list;
mod file;
mod holding;
mod members;
mod place;
mod places;
mod steps;
mod visit;
mod weight;

pub use file::File;
pub use members::value_of;
pub use places::Places;
pub use steps::walk;
