//! The alternatives of null, boolean and number branches.
//!
//! Each answer is that of `leaf`: one alternative at null, one for each truth value that meets the set, and at numbers
//! the one whose number is found first, none exactly where no number meets the set. A set's lists are borrowed, so to
//! read it takes memory for what it has of divisors and lists, and no copy of a list.
#![tactic(auto)]

mod asked;
mod fault;
mod numbers;
mod scalar;
mod truths;

pub use fault::NumberFault;
pub use numbers::number_alternatives;
pub use scalar::null_alternatives;
pub use truths::truth_alternatives;
