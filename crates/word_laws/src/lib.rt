//! Laws about words: classes divide the characters, a state goes on by classes and determines every truth, and there is
//! one list of rows, which has the states of all words.
//!
//! Each law that other crates rely on is the contract of a function here, which does nothing. Their proofs are in
//! `proofs`, and so do the lemmas that crates above cite.
#![tactic(auto)]

ghost use Rattle.word_laws.specs.Laws.{ClassesDivide, FirstsComeFirst, ClassesInOrder, StateGoesOn, StateTellsTruths, RowsAreOne, RowsHaveAll, RowsGoOn};

/// Each character is in exactly one class.
pub fn classes_divide()
    ensures { ClassesDivide }
{}

/// The first character of a class comes before the others of it.
pub fn firsts_come_first()
    ensures { FirstsComeFirst }
{}

/// Classes are numbered by their first characters.
pub fn classes_in_order()
    ensures { ClassesInOrder }
{}

/// A state and a character's class determine the next state.
pub fn state_goes_on()
    ensures { StateGoesOn }
{}

/// A state determines the truth of every atom.
pub fn state_tells_truths()
    ensures { StateTellsTruths }
{}

/// A list of atoms has at most one list of rows.
pub fn rows_are_one()
    ensures { RowsAreOne }
{}

/// The rows have the states of all words, and each once.
pub fn rows_have_all()
    ensures { RowsHaveAll }
{}

/// A row leads on by classes, and has the truths of every word that leads to it.
pub fn rows_go_on()
    ensures { RowsGoOn }
{}
