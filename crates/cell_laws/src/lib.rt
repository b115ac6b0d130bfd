//! Laws of the words of a cell: how many there are, cut at a bound, and which are first.
//!
//! The laws are lemmas of `proofs/`; there is no code here.
#![tactic(auto)]
