//! Laws of certificate lines: each line has one text and each text one line, and a reader is at the same place however
//! the bytes are cut.
//!
//! The laws are lemmas of `proofs/`; there is no code here.
#![tactic(auto)]
