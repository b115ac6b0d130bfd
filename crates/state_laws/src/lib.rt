//! Laws about a pattern's states: what is kept of a word is enough for every longer word, and it decides matching.
//! What comes next is the union of what comes next after each position that was read last, and of what comes first; a
//! character then picks the positions whose set has it.
//!
//! Each law that other crates rely on is the contract of a function here, which does nothing. Their proofs are in
//! `proofs`, and so do the lemmas that crates above cite.
#![tactic(auto)]

ghost use Rattle.state_laws.specs.Laws.{BeginsWith, GoesOn, Decides, SameStateOfSame, SameTruthOfSame};
ghost use Rattle.state_laws.specs.UnionLaws.{EndsJoin, FollowJoins, NextJoins, NextAsksSets, NothingEnds, NothingFollows, NothingReads, EndsOfEach, FollowsEach, NextOfEach, FlagsJoin, StepsByFollowSets};

/// The state of the empty word.
pub fn state_begins()
    ensures { BeginsWith }
{}

/// The state after one more character depends only on the state, on whether the word is empty, and on the character.
pub fn state_goes_on()
    ensures { GoesOn }
{}

/// Whether a pattern matches in a word depends only on the word's state and on whether the word is empty.
pub fn state_decides()
    ensures { Decides }
{}

/// Characters that no position's set distinguishes lead from one state to one state.
pub fn same_state_of_same()
    ensures { SameStateOfSame }
{}

/// In words of one state the pattern matches, or in none of them.
pub fn same_truth_of_same()
    ensures { SameTruthOfSame }
{}

/// A match can end, of all that was read in one way or another, where it can of the one or of the other.
pub fn ends_join()
    ensures { EndsJoin }
{}

/// What may follow all that was read in one way or another is what may follow the one or the other.
pub fn follow_joins()
    ensures { FollowJoins }
{}

/// What reads a character next, of all that was read in one way or another, does so of the one or of the other.
pub fn next_joins()
    ensures { NextJoins }
{}

/// A position reads a character where it may follow and its set has the character.
pub fn next_asks_sets()
    ensures { NextAsksSets }
{}

/// Where nothing was read and no match can begin, no match can end.
pub fn nothing_ends()
    ensures { NothingEnds }
{}

/// Where nothing was read and no match can begin, nothing follows.
pub fn nothing_follows()
    ensures { NothingFollows }
{}

/// Where nothing was read and no match can begin, nothing reads a character.
pub fn nothing_reads()
    ensures { NothingReads }
{}

/// A match can end where it can with one of the positions that were read, or with none, at each edge of the word.
pub fn ends_of_each()
    ensures { EndsOfEach }
{}

/// What may follow is what may follow one of the positions that were read, or may come first.
pub fn follows_each()
    ensures { FollowsEach }
{}

/// What reads a character next is the union of the follow sets of the positions that were read, where their sets have
/// the character.
pub fn next_of_each()
    ensures { NextOfEach }
{}

/// A flag of what either of two lists has, and of what both have.
pub fn flags_join()
    ensures { FlagsJoin }
{}

/// The next state, whether it is done and whether it is accepted are known of the follow sets of the positions read
/// last.
pub fn steps_by_follow_sets()
    ensures { StepsByFollowSets }
{}
