//! Laws of goals and trees: what choices, goals and branches mean, and that trees are deep enough.
//!
//! `specs/` has the two words that the laws need beside the definitions. The laws are lemmas of `proofs/`; there is no
//! code here.
#![tactic(auto)]
