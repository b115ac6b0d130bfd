//! Where something is, and what serves a demand of a frame.

/// Where something is; `place_view` is the place that it stands for.
#[derive(Clone, Copy, PartialEq, Eq, Debug)]
pub enum Place {
    /// At a first place.
    Head(u32),
    /// In a cell, past the first places.
    In(u32),
}

/// What serves a demand.
#[derive(Clone, Copy, PartialEq, Eq, Debug)]
pub enum Server {
    /// What is at a first place.
    Head(u32),
    /// The member of the plan with that number.
    Member(usize),
    /// A new member in that cell.
    New(u32),
}
