//! Explored goals: numbered in order of first mention from a root on, as goals are taken by number and expanded.
//!
//! Past a limit what was found before stays. `explore` has the limits; what it calls takes them as arguments.
#![tactic(auto)]

mod explored;
mod exploring;
mod numbered;
mod numbering;
mod waves;

pub use explored::Explored;
pub use exploring::{MOST_GOALS, MOST_TOTAL, explore};
pub use numbered::{
    Numbered, NumberedFiller, NumberedFillerList, NumberedPlaced, NumberedPlacedList,
};

#[cfg(test)]
mod tests;
