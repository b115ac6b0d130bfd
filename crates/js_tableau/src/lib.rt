//! Trees of goals at a kind of document, and positions at names.
//!
//! A goal's tree is an analytic tableau (R. M. Smullyan, 1968) of signed positions: what a position requires in place
//! is added to the set, a choice splits it, and a set that has both signs of a position is closed.
//!
//! [`Tree`] gives the steps of a goal's tree one after another, [`branches`] lists its saturated ends, and
//! [`next_step`] is the step at any set. A walk keeps one set, which grows along a path and goes back, and an ordered
//! set of its members that may still need a choice; so a step costs the members that it adds, each with a look-up in
//! order, and not the set. Sets still to be visited are in a list and share what they have in common.
//!
//! [`name_truth`] says whether a position holds of a member's name, from the truths of the atoms of which it is made.
//! It takes no memory.
#![tactic(auto)]

mod branch_list;
mod branch_walk;
mod fault;
mod members;
mod name_plan;
mod name_room;
mod names;
mod reached;
mod rising;
mod set_step;
mod step;
mod truths;
mod visits;
mod waiting;
mod walk;

pub use branch_list::{Branch, BranchList, branches};
pub use branch_walk::BranchWalk;
pub use fault::TableauFault;
pub use name_plan::NamePlan;
pub use names::name_truth;
pub use set_step::{TableauStep, next_step};
pub use truths::Truths;
pub use visits::{MOST_ENDS, Tree};
pub use walk::Step;
