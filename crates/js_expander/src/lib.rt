//! What expands goals over a core table.
//!
//! `CoreExpander` is the `Expander` that a search calls: it walks the branches of a goal kind by kind, calls the leaf
//! of each kind for the branch's alternatives, and keeps them within the limits of an expansion. An expansion costs the
//! trees of the goal, each walked twice, and the leaves of all branches; nothing is kept between two of them.
#![tactic(auto)]

mod branches;
mod core_expander;
mod kept;
mod leaves;

pub use core_expander::CoreExpander;
