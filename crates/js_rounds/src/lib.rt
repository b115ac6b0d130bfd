//! Rounds over explored goals: which goals have a document, by which alternative, and the document's parts.
//!
//! A round has the goals with an alternative whose goals the round before has; so the least round of a goal is no less
//! than the depth of its document. `run` finds the least fixed point by a worklist: it counts each place of each
//! alternative once at most, as unit resolution of Horn clauses does (W. F. Dowling and J. H. Gallier, 1984).
#![tactic(auto)]

mod elements;
mod meeting;
mod names;
mod parts;
mod rounds;
mod runs;
mod used;
mod waking;

pub use rounds::Rounds;
