//! Laws of frames and plans: what serves the demands of a set follows a complete plan, and a complete plan serves them.
//!
//! The laws are lemmas of `proofs/`; there is no code here.
#![tactic(auto)]
