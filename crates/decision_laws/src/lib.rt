//! Laws of what is decided: documents meet, limits are named as they are met, and else there is no document.
//!
//! The laws are lemmas of `proofs/`; there is no code here.
#![tactic(auto)]
