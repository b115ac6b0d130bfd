//! Laws of objects: an object meets a saturated set exactly where it follows a plan of its frame.
//!
//! The laws are lemmas of `proofs/`; there is no code here.
#![tactic(auto)]
