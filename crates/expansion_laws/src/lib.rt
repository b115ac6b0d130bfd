//! Laws of expansions: a document meets a goal exactly where its parts meet those of one of the goal's alternatives.
//!
//! The laws are lemmas of `proofs/`; there is no code here.
#![tactic(auto)]
