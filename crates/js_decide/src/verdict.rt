//! What is decided.

use js_algebra::Goal;
use js_doc::{PartId, Parts};
use js_expansion::LimitKind;

/// What is known of two positions; `verdict_view` is the verdict that it stands for.
#[derive(Drop)]
pub enum Verdict {
    /// The parts of a document that meets the first position and not the second one, and the number of the part that
    /// is the document: the last one.
    Document(Parts, PartId),

    /// No document was found, and a limit hides whether there is one. It comes with the explored goal of least number
    /// that passes one; a limit on all goals comes without a goal, where none passes one of its own.
    Limit(LimitKind, Option<Goal>),

    /// There is no such document: the bytes of the certificate that each document which meets the first position meets
    /// the second one.
    Certificate(Vec<u8>),
}

/// A verdict, and what was looked at for it; `decided_view` is what it stands for.
#[derive(Drop)]
pub struct Decided {
    pub verdict: Verdict,
    /// The goals that got a number, none where the root is no goal.
    pub goals: u32,
    /// The last round that added a goal, 0 where there is none.
    pub rounds: u32,
}
