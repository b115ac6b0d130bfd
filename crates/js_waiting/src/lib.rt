//! Waiting counts: of each alternative how many of its members weren't counted yet, and how much room is still needed.
//!
//! A goal's places are counted one after another, and each count costs a step. With the last place that it waits for an
//! alternative wakes. What is counted stays counted, and each place is counted once.
#![tactic(auto)]

mod counts;
mod mention;
mod mentions;
mod place;
mod steps;
mod waiting;

pub use mention::Mention;
pub use mentions::Mentions;
pub use steps::Steps;
pub use waiting::Waiting;
