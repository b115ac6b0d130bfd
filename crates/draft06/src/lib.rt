//! When a document is valid for a schema of draft-06: over the JSON value of the schema's file, and over the entries
//! that the schema is read as. Definitions alone, which know no table of positions, goal or certificate.
//!
//! `specs/Lib.antt` lists them. There is no code here.
#![tactic(auto)]
