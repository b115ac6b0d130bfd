//! A bound as it is stated.

/// A cell, and a label for each row: so many words, at most, lead from the row into the cell.
#[derive(Drop)]
pub(crate) struct StatedBound {
    pub cell: u32,
    pub labels: Vec<u32>,
}
