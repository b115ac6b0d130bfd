//! What a pattern is and what it matches: sets of characters, trees, the match relation and a test that decides it.
//!
//! `specs/Lib.antt` lists the definitions, which contracts of the crates above cite. There is no code here, and the
//! laws about them are in `pattern_laws`.
#![tactic(auto)]
