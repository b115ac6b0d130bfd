//! Families of pairs of schemas, each growing with a number: what time and memory are measured on. Definitions and
//! worked examples alone; `specs/Lib.antt` lists the definitions.
#![tactic(auto)]
