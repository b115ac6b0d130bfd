//! Certificates judged, line by line: a checker that knows nothing of the search.
//!
//! Each line does the next duty, or breaks a rule. What is still to be shown is kept by the parts of a checker: the
//! goals that were listed, the tree of the goal at hand, and the leaf of the set at hand.
#![tactic(auto)]

mod checker;
mod entries;
mod entry;
mod fault;
mod judge;
mod leaf;
mod listing;
mod piece;
mod question;
mod tree;

pub use checker::{Accepted, Checker};
pub use fault::CheckFault;
