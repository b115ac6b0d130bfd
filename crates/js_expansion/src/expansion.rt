//! Alternatives of branches, expansions of goals, and the limits that cut them.

use crate::lists::AlternativeList;

/// A limit of the search; `limit_view` says what it counts.
#[derive(Clone, Copy, PartialEq, Eq, Debug)]
pub enum LimitKind {
    /// Ends of the tree of a goal at a kind.
    Branches,
    /// Positions of an automaton.
    Positions,
    /// Classes of characters of an automaton.
    Classes,
    /// States of an automaton.
    States,
    /// The least number of elements or members.
    Counts,
    /// A least common multiple of numbers, or the next candidate.
    Multiples,
    /// Candidates among numbers.
    Candidates,
    /// Ends of the plans of a branch.
    Plans,
    /// Signed positions of a goal that an alternative names.
    Width,
    /// Places of the alternatives of one goal.
    Places,
    /// Explored goals.
    Goals,
    /// Places of all explored goals.
    Total,
}

/// The alternatives of a goal in the order of kinds, branches and plans, and the first limit that left some out;
/// `expansion_view` is the expansion that it stands for.
#[derive(Drop)]
pub struct Expansion {
    pub alternatives: AlternativeList,
    pub hole: Option<LimitKind>,
}

/// The alternatives of one branch, in order.
#[derive(Drop)]
pub struct Leaf {
    pub alternatives: AlternativeList,
}
