//! The places of an alternative.

/// A place of an alternative. Of a member the goal must have a document; a filler has room for so many, a member for
/// none.
#[derive(Clone, Copy)]
pub struct Place {
    pub is_member: bool,
    pub room: u32,
    /// Whether the goal that is named there was taken.
    pub counted: bool,
}
