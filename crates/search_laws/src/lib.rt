//! Laws of the search: rounds over the explored goals are complete and sound, and end.
//!
//! The laws are lemmas of `proofs/`; there is no code here.
#![tactic(auto)]
