//! What the literals of a set require of elements of arrays.
//!
//! What a literal requires of an element depends on the element's index alone. A demand is a literal that some element
//! has to serve.
#![tactic(auto)]

mod elements;

pub use elements::{asked, demands, longest, served};
