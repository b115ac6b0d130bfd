//! Laws of verdicts: what an accepted certificate certifies holds, on lines and on bytes.
//!
//! The laws are lemmas of `proofs/`; there is no code here.
#![tactic(auto)]
