//! What holds of a name, as determined by the truths of the atoms of which a position is made there, and the atoms of
//! what a set says of names. Definitions alone: no automaton is in them, and their laws are in `name_laws`.
#![tactic(auto)]
