//! Where a goal is named.

/// A place of an alternative of a goal; members are numbered from 0, and fillers after them.
#[derive(Clone, Copy)]
pub struct Mention {
    pub goal: u32,
    pub alternative: u32,
    pub place: u32,
}
