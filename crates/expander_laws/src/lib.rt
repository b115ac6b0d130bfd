//! What an expander of goals takes, with its branches and cells, and what holds of its alternatives.
//!
//! The laws are lemmas of `proofs/`; there is no code here.
#![tactic(auto)]
