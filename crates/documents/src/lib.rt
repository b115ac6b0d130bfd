//! What a document is, and what a JSON text holds: definitions alone, which contracts of every crate cite.
//!
//! `specs/Lib.antt` lists them. There is no code here, and laws about them are in the crates that need them.
#![tactic(auto)]
