//! The number group of a set of signed positions, and the number that is found for the set. Definitions alone.
#![tactic(auto)]
