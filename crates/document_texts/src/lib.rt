//! The text of a document, and the text of a table of shared parts. Definitions alone; `specs/Lib.antt` lists them.
#![tactic(auto)]
