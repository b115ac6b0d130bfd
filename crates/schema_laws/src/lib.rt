//! Laws of the walk from schema to schema: it comes to each place once and to all that are led to, and how a walk that
//! is under way goes on; and what is read of a schema without a fault is a table. Readers of schemas cite them.
//!
//! `specs/Walking.antt` says what is kept while a walk is under way. The laws are lemmas of `proofs/`.
#![tactic(auto)]
