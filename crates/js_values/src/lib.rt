//! The positions that JSON values require: of one value, and of a list of values of which a document is to be one.
//!
//! Positions are appended to a `Sink`, which ranks and names them. Time and memory are in proportion to the values. The
//! makers of the other keywords, in `js_normal`, write into the same sink.
#![tactic(auto)]

mod below;
mod groups;
mod numbers;
mod sink;
mod values;
mod words;

pub use below::the_one;
pub use groups::group_nodes;
pub use sink::Sink;
pub use values::value_node;
pub use words::distinct;
