//! How many characters, elements or members the literals of a set require, and whether these bounds cross.
//!
//! A bound costs a pass over the set, and takes no memory.
#![tactic(auto)]

mod arrays;
mod bounds;
mod crossing;
mod objects;
mod strings;

pub use bounds::{Bounds, is_at_end};
pub use crossing::crossed;
