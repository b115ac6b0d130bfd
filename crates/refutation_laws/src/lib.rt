//! Laws of the lines that refute: they do the duties of a goal, and make a certificate that is accepted.
//!
//! The laws are lemmas of `proofs/`; there is no code here.
#![tactic(auto)]
