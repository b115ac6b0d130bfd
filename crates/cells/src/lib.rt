//! Cells of names, of which the literals of a set say the same, and words in order. Definitions alone.
#![tactic(auto)]
