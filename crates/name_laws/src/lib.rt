//! Laws of what holds of a name: where truths are those of a word, a position holds of the name exactly where it holds
//! of the word as a string; in a table it holds where what it requires is met, and its atoms are its own and those of
//! the positions that it depends on. The laws are lemmas of `proofs/`; there is no code here.
#![tactic(auto)]
