//! The lines that show that nothing is arranged by the plans of a frame, as they are printed.
//!
//! A frame of arrays or of objects is a `PlanFrame`. Which goals no document meets is answered by `Dead`: a goal
//! without number counts as met. A plan is kept as what serves each of its demands so far; what is placed, and which
//! demands that serves, is read off that.
#![tactic(auto)]

mod before;
mod extent;
mod form;
mod lines;
mod path;
mod placed;
mod tree;

pub use form::PlanForm;
pub use tree::add_plan_lines;
