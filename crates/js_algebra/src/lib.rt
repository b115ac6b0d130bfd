//! Tables of core positions, goals over them, and the choices of a signed position.
//!
//! Contracts see a [`Core`] as its positions with their ranks, a [`Goal`] as its rising list of signed positions, and
//! every other list as a list. Forming a goal costs what sorting its list costs; the other calls are linear in what
//! they read. The search, the trees and the certificates stand on this crate.
#![tactic(auto)]

mod branch;
mod choice;
mod copies;
mod ends;
mod goal;
mod keys;
mod kinds;
mod lists;
mod names;
mod node;
mod rules;
mod signed;
mod signed_set;
mod table;

pub use branch::BranchId;
pub use choice::{Choice, Rule};
pub use goal::{Goal, contains, form};
pub use lists::{Choices, KindList, NodeList, PatternList, PosList, RankList, SignedList};
pub use names::{NameFormula, NameList, NameSet, Pattern};
pub use node::{JsonKind, Node, Pos};
pub use rules::rule_choices;
pub use signed::Signed;
pub use signed_set::SignedSet;
pub use table::Core;
