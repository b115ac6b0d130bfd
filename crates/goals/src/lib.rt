//! Signed positions, goals, the choices of a signed position, and the tree of a set at a kind. Definitions alone.
#![tactic(auto)]
