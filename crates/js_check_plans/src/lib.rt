//! The plans of a frame that lines of a certificate still have to show empty.
//!
//! A frame of arrays or of objects is a `CheckFrame`. A plan is kept as what serves each of its demands so far; which
//! demands a place serves, how many members there are and how far the plan reaches are read off that. A line ends the
//! plan at hand or splits it into its options, and is judged as the definition of verdicts has it.
#![tactic(auto)]

mod check_frame;
mod choices;
mod extent;
mod form;
mod lines;
mod members;
mod open_plans;
mod path;
mod placed;
mod refuted;
mod rooms;

pub use check_frame::CheckFrame;
pub use form::PlanForm;
pub use open_plans::OpenPlans;
pub use refuted::is_refuted;
