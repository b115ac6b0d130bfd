//! Pairs of schemas to measure with: families that grow with a number.
//!
//! [`generate`] gives just the two schemas that the definition `family` has, of the crate `families`. What is measured
//! is made here, and is no file that might be another one.
#![tactic(auto)]

mod chain;
mod kind;
mod members;
mod parts;
mod patterns;
mod schemas;
mod tree;
mod wide;
mod words;

pub use kind::GenKind;
pub use schemas::generate;
