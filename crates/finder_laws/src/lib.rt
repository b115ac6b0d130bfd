//! Laws of what is found: the word that is found meets its set, and where none is found no string does.
//!
//! The laws are lemmas of `proofs/`; there is no code here.
#![tactic(auto)]
