//! The arrays of a set, shown empty line by line: the frame of the set, and its plans that are still open.
//!
//! `OpenArray` takes the lines behind the line `array` as the definition of verdicts has them. What a set requires of
//! elements is found when it is made; a line then costs what it does to plans.
#![tactic(auto)]

mod array_frame;
mod open_array;

pub use open_array::OpenArray;
