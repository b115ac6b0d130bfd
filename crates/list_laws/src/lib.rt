//! Laws of lists, numbers and tests that std has not: what is in a list, tests of all and of some, lists without
//! repeats, and how long they are.
//!
//! The laws are lemmas of `proofs/`; there is no code here.
#![tactic(auto)]
