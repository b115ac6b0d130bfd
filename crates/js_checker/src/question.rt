//! What a certificate is to show.

ghost use Rattle.std.specs.Prelude.{◌<◌, length};

use js_algebra::{Core, Goal, Pos, Signed, form};
use js_doc::Memory;
use std::alloc::Global;

/// Whether every document of which the position `premise` of a table holds has `conclusion` holding.
#[derive(Clone, Copy)]
pub(crate) struct Question<'a> {
    pub core: &'a Core,
    pub premise: Pos,
    pub conclusion: Pos,
    ghost premise_in_table: { premise.0 < length core.now.positions },
    ghost conclusion_in_table: { conclusion.0 < length core.now.positions },
}

impl Question<'_> {
    ghost use Rattle.std.specs.Prelude.{◌≡◌, [], ◌∷◌, IfOk};
    ghost use Rattle.goals.specs.Signed.{Plus, Minus};
    ghost use Rattle.goals.specs.Goal as G;

    /// The goal of a document that answers it with no, unless it clashes.
    pub(crate) fn root(self, alloc: Global) -> Result<Option<Goal>, Memory>
        ensures { IfOk result (λ root. root
            ≡ G.form self.entry.core.now.positions (Plus self.entry.premise.0 ∷ Minus self.entry.conclusion.0 ∷ [])) }
    {
        form(
            alloc,
            self.core,
            &[Signed::plus(self.premise), Signed::minus(self.conclusion)],
        )
    }
}
