//! What is decided of two positions of a table. Definitions alone.
#![tactic(auto)]
