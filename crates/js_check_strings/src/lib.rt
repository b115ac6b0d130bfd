//! The lines of a leaf of strings, judged one by one: rows, and then least lengths.
//!
//! No string meets a set where each row whose words the literals want has a least length past the upper bound. What is
//! kept from line to line are the rows that were stated, the truths that the literals require, and the bound.
#![tactic(auto)]

mod open_strings;
mod wanted;

pub use open_strings::OpenStrings;
