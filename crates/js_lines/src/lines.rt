//! The lines of a certificate.

use crate::lists::{NumberList, ShortEntryList};
use js_algebra::{JsonKind, Pos, Signed, SignedList};

/// The version of the format, which the first line of a certificate names.
#[derive(Clone, Copy, PartialEq, Eq, Debug)]
pub enum Version {
    One,
}

/// Why a list of signed positions has no document: it clashes, or its goal contains the listed goal of that number.
#[derive(Clone, Copy, PartialEq, Eq, Debug)]
pub enum CertEnd {
    Clash,
    Goal(u32),
}

/// What becomes of a filler of a plan that falls short: it is kept, or it has no document.
#[derive(Clone, Copy, PartialEq, Eq, Debug)]
pub enum ShortEntry {
    Kept,
    Clash,
    Goal(u32),
}

/// A line of a certificate.
#[derive(Drop)]
pub enum CertLine {
    Certificate(Version),
    /// How many goal lines follow.
    Goals(u32),
    Goal(SignedList),
    /// The trees of the goal of that number follow.
    Entry(u32),
    /// The tree at that kind follows.
    At(JsonKind),
    Rule(Signed),
    /// An end with a position of both signs.
    Clash(Pos),
    /// An end with a literal that is wrong at the kind.
    Kind(Signed),
    /// The bounds of a set cross, or a plan has too many elements.
    Count,
    /// No truth value is left.
    Bool,
    /// No number is left.
    Number,
    /// How many rows follow, and then the shortest lengths.
    Strings(u32),
    /// The target of a row for each class.
    Row(NumberList),
    /// For each row a lower bound of the length that leads to a wanted one.
    Least(NumberList),
    /// A plan follows.
    Array,
    /// How many rows and how many bounds of cells follow, and then a plan.
    Object(u32, u32),
    /// A cell, and for each row a bound of the number of words that lead into it.
    Cap(u32, NumberList),
    /// The next demand of a plan; a plan for each option follows.
    Split,
    Member(u32, CertEnd),
    Index(u32, CertEnd),
    Tail(u32, CertEnd),
    /// The fillers that are kept have too little room; an entry a filler.
    Short(ShortEntryList),
    End,
}
