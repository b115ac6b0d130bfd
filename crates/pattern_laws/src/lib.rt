//! Laws about patterns: the test that decides matching is the match relation, and a set has one list of ranges.
//!
//! Each law that other crates rely on is the contract of a function here, which does nothing. Their proofs are in
//! `proofs`, and so do the lemmas that crates above cite.
#![tactic(auto)]

ghost use Rattle.pattern_laws.specs.Laws.{FoundIsDecided, SetIsItsMembers, UnionHasBoth, ComplementHasTheRest, WidthIsTheCount};

/// A pattern matches somewhere in a word exactly where the test that computes says so.
pub fn found_is_decided()
    ensures { FoundIsDecided }
{}

/// A set of characters has one list of ranges: lists with the same members are equal.
pub fn set_is_its_members()
    ensures { SetIsItsMembers }
{}

/// The set of some ranges has the numbers that lie in one of them.
pub fn union_has_both()
    ensures { UnionHasBoth }
{}

/// The complement of a set has the characters that the set lacks.
pub fn complement_has_the_rest()
    ensures { ComplementHasTheRest }
{}

/// The lengths of a set's ranges add up to the number of its members.
pub fn width_is_the_count()
    ensures { WidthIsTheCount }
{}
