//! Branches of goals, by number.

use crate::node::JsonKind;

/// A branch of a goal: the kind of its tree, and its number among the branches of that tree, from 0 on.
#[derive(Clone, Copy, PartialEq, Eq, Debug)]
pub struct BranchId {
    pub kind: JsonKind,
    pub number: u32,
}
