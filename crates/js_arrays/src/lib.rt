//! The alternatives of branches at arrays: their bounds, their frames and the limit on counts.
//!
//! `array_alternatives` answers the leaf of the definition, and its contract says what the alternatives mean. It costs
//! a pass over the set, and the walk through the plans.
#![tactic(auto)]

mod array_frame;
mod fault;
mod leaf;

pub use array_frame::ArrayFrame;
pub use fault::ArrayFault;
pub use leaf::{MOST_COUNTS, array_alternatives};
