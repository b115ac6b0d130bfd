//! Rules by name, and their numbers.

ghost use Rattle.std.specs.Prelude.{◌≡◌};
ghost use Rattle.js_rules.specs.RuleView.{rule_view};

/// A rule that a line of a certificate can break. Where a line breaks several, the first of them in this order is
/// reported. Contracts see its number, by `rule_view`.
#[derive(Clone, Copy, PartialEq, Eq, Debug)]
pub enum Rule {
    /// The line isn't in the grammar.
    NotALine,
    /// The line has more bytes than the longest one.
    TooLong,
    /// The bytes end before the line `end`.
    NoEnd,
    /// The line isn't allowed here, or comes behind `end`.
    OutOfPlace,
    /// A position isn't in the table, or a goal isn't the one that is formed from its list.
    NoGoal,
    /// The root neither clashes nor contains a listed goal.
    RootNotListed,
    /// Another goal's number than the next.
    OtherEntry,
    /// Another kind than the next.
    OtherKind,
    /// A signed position that isn't in the set, or has no choices.
    NoChoices,
    /// The set hasn't both signs of the position.
    NoClash,
    /// A signed position that isn't in the set, or isn't wrong at the kind.
    NotWrong,
    /// A line of a leaf of another kind.
    OtherLeaf,
    /// The bounds aren't crossed.
    BoundsMeet,
    /// A truth value is left.
    TruthLeft,
    /// A number is left, or a limit is passed in deciding that none is.
    NumberLeft,
    /// No rows, or atoms with too many positions or classes.
    NoRows,
    /// A row that wasn't mentioned, or another number of targets than there are classes.
    NoRow,
    /// A target that isn't the row to which the row leads.
    WrongTarget,
    /// A least length that is too great, or another number of them than there are rows.
    WrongLeast,
    /// A wanted row whose least length is within the upper bound.
    WantedLeft,
    /// A bound of no cell, out of order, too small, or with another number of labels than there are rows.
    WrongBound,
    /// No demand of the plan is left.
    NoDemand,
    /// Nothing is placed there, or it neither clashes nor contains the listed goal.
    NotRefuted,
    /// The plan hasn't too many; or it has demands left, or fillers with room enough, or not an entry for each filler.
    PlanLeft,
}

impl Rule {
    /// The number that is printed, from 1 to 24.
    pub fn number(self) -> u8
        ensures { result ≡ rule_view self }
    {
        match self {
            Rule::NotALine => 1,
            Rule::TooLong => 2,
            Rule::NoEnd => 3,
            Rule::OutOfPlace => 4,
            Rule::NoGoal => 5,
            Rule::RootNotListed => 6,
            Rule::OtherEntry => 7,
            Rule::OtherKind => 8,
            Rule::NoChoices => 9,
            Rule::NoClash => 10,
            Rule::NotWrong => 11,
            Rule::OtherLeaf => 12,
            Rule::BoundsMeet => 13,
            Rule::TruthLeft => 14,
            Rule::NumberLeft => 15,
            Rule::NoRows => 16,
            Rule::NoRow => 17,
            Rule::WrongTarget => 18,
            Rule::WrongLeast => 19,
            Rule::WantedLeft => 20,
            Rule::WrongBound => 21,
            Rule::NoDemand => 22,
            Rule::NotRefuted => 23,
            Rule::PlanLeft => 24,
        }
    }
}
