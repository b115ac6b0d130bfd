//! The tree of a goal at a kind, line by line: the set at hand, and the choices of rules that are still to be shown
//! empty.
//!
//! Each call is an equation with the definition of verdicts. Nothing recurses.
#![tactic(auto)]

mod growing;
mod open_sets;
mod pending;
mod scalars;
mod step;
mod steps;

pub use open_sets::OpenSets;
