//! What is known of a root before a certificate is made.

use js_algebra::Goal;
use js_doc::{PartId, Parts};
use js_expansion::LimitKind;
use js_explore::Explored;
use js_rounds::Rounds;

/// What the rounds show of a root; `outcome_view` is the verdict that it stands for.
#[derive(Drop)]
pub enum Outcome {
    /// The parts of a document that meets the root, and the number of the part that is the document: the last one.
    Document(Parts, PartId),

    /// No document was found, and a limit hides whether there is one. It comes with the explored goal of least number
    /// that passes one; a limit on all goals comes without a goal, where none passes one of its own.
    Limit(LimitKind, Option<Goal>),

    /// No document meets the root.
    NoDocument,
}

/// The goals that were explored from a root, their rounds, and what these show of the root.
#[derive(Drop)]
pub struct Searched {
    pub explored: Explored,
    pub rounds: Rounds,
    pub outcome: Outcome,
}
