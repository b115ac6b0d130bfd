//! Laws of texts that are printed: each is read back as the document that was written. `proofs/Lib.antt` lists them.
#![tactic(auto)]
