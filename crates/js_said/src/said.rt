//! What a literal says of a name, by the numbers of atoms.

use js_tableau::NamePlan;

/// What a literal says of a name.
#[derive(Drop)]
pub enum Said {
    /// One of the atoms with these numbers is true.
    AnyOf(Vec<usize>),
    /// None of the atoms with these numbers is true.
    NoneOf(Vec<usize>),
    /// The root of a plan holds, by the truths of the atoms of its leaves.
    Planned(NamePlan, Vec<usize>),
}
