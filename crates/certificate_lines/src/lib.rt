//! The lines of a certificate as plain data, their text, the line of a text, and bytes cut into lines. Definitions
//! alone.
#![tactic(auto)]
