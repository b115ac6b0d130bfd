//! Alternatives and expansions of goals as the program holds them, and the traits through which a search sees what
//! expands a goal and which goals have no document.
//!
//! Contracts see each type as plain data of `alternatives`, by the views of `specs/View.antt`, and each list as a list:
//! so two expansions that stand for the same are equal. The search, the leaves of its trees and their certificates
//! stand on this crate.
#![tactic(auto)]

mod alternative;
mod dead;
mod expander;
mod expansion;
mod lists;

pub use alternative::{Alternative, Filler, Placed, Shape, Slot};
pub use dead::Dead;
pub use expander::Expander;
pub use expansion::{Expansion, Leaf, LimitKind};
pub use lists::{AlternativeList, FillerList, PlacedList};
