//! The lines of a certificate for one goal that no document meets.
//!
//! A goal's tree is gone through at each kind, and each step is a line. At a saturated end come the lines
//! of its leaf: rows of an automaton, bounds of cells, or the plans of a frame.
#![tactic(auto)]

mod arrays;
mod goal;
mod leaf;
mod objects;
mod tree;

pub use goal::add_goal_lines;
