//! Laws of scalars: the number that is found for a set meets it, and where none is found no number does.
//!
//! The laws are lemmas of `proofs/`; there is no code here.
#![tactic(auto)]
