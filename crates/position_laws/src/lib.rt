//! Laws of core tables: numbers that fall in place give a table its ranks, each position holds where what it requires
//! is met, and two tables joined keep what each of them says.
//!
//! `specs/Join.antt` says how two tables are joined. The laws are lemmas of `proofs/`; there is no code here.
#![tactic(auto)]
