//! What is found at strings and at names: the word of a set, and the cells of its names, with the limits of their
//! automata. Definitions alone.
#![tactic(auto)]
