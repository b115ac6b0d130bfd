//! Whether some document meets one position of a core table and not another, by a search for goals.
//!
//! From the root, the goal of the two positions, goals are explored and rounds are run. Where a round has the root, its
//! document is given in parts; else the first limit that may have hidden one, and else that there is none, with the
//! certificate of it.
#![tactic(auto)]

mod certified;
mod outcome;
mod pair;
mod root;
mod verdict;

pub use outcome::{Outcome, Searched};
pub use pair::decide;
pub use root::search_root;
pub use verdict::{Decided, Verdict};
