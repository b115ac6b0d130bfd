//! The plans of a frame, of arrays or of objects, and the alternatives of the complete ones.
//!
//! A plan says which place serves which demand. A walk gives the steps of the tree of plans one after another; it keeps
//! what serves the demands so far, with the goal of each, and forms a goal anew only for what serves the next one. The
//! leaves of arrays and of objects are each a `PlanFrame` and a call of `plan_alternatives`.
#![tactic(auto)]

mod alternative_list;
mod choices;
mod fault;
mod formed;
mod naming;
mod path;
mod plan_frame;
mod server;
mod walk;

pub use alternative_list::plan_alternatives;
pub use choices::{choices_at, count};
pub use fault::PlanFault;
pub use naming::Naming;
pub use path::{Extent, members_after, serves_too};
pub use plan_frame::PlanFrame;
pub use server::{Place, Server};
pub use walk::{PlanStep, PlanWalk, add_cell, is_at_end, size};
