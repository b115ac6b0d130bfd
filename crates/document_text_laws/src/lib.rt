//! Laws of the texts of documents and of tables of parts: each is read in one way. `proofs/Lib.antt` lists them.
#![tactic(auto)]
