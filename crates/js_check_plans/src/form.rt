//! Whose plans are shown empty.

/// Whose plans: this decides which lines name what is placed.
#[derive(Clone, Copy, PartialEq, Eq, Debug)]
pub enum PlanForm {
    /// Elements are named as one of the first places, or as one behind those that are placed.
    OfArrays,
    /// Members are named by their number.
    OfObjects,
}
