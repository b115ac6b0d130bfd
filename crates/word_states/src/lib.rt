//! What is kept of a word: the positions of a pattern and its state after a word, the conditions on a word, which
//! characters are alike, and the rows that the states of all words make.
//!
//! `specs/Lib.antt` lists the definitions, which contracts of the crates above cite. There is no code here, and the
//! laws about them are in `word_laws`. None of them knows an automaton.
#![tactic(auto)]
