//! The expander of the goals of a core table.

ghost use Rattle.std.specs.Prelude.{◌≡◌, ◌≤◌, List, true, IfOk, take};
ghost use Rattle.documents.specs.Tests.{every};
ghost use Rattle.goals.specs.Signed.{Signed};
ghost use Rattle.alternatives.specs.Expansion.{names_branch};
ghost use Rattle.alternatives.specs.Slots.{capacity, cell_at};
ghost use Rattle.expander_laws.specs.Expander.{takes, words_by};
ghost use Rattle.expander_laws.specs.Sound.{AreSound};
ghost use Rattle.js_algebra.specs.View.{kind_view};
ghost use Rattle.js_expander.specs.Found.{goal_expansion, cells_at};

use crate::branches::{branch_set, keep_kind};
use crate::kept::Kept;
use js_algebra::{BranchId, Core, Goal, JsonKind};
use js_doc::{Memory, StrList};
use js_expansion::{Expander, Expansion};
use js_objects::{object_words, object_words_by_cell};
use js_strings::string_words;
use js_tableau::Branch;
use std::alloc::Global;

/// Expands goals of a table. Each answer is that of the definitions: `goal_expansion`, `branch_count` and `cells_at` of
/// the table's positions.
#[derive(Drop)]
pub struct CoreExpander<'a> {
    pub core: &'a Core,
}

impl<'a> CoreExpander<'a> {
    /// Borrows the table and computes nothing: each call expands the goal that it is given.
    pub fn new(core: &'a Core) -> CoreExpander<'a>
        ensures core { result.core.now ≡ core.now }

        // What the alternatives of goals that are taken build meets these goals of the table.
        ensures sound { (goals : List (List Signed))
            → every (takes core.now.positions core.now.ranks) goals ≡ true
            → AreSound core.now.positions (words_by (cells_at core.now.positions)) (goal_expansion core.now.positions)
            goals }
    {
        CoreExpander { core }
    }

    /// As many words of cell 0 as are needed.
    fn first_cell(
        &self,
        alloc: Global,
        goal: &Goal,
        branch: BranchId,
        need: u64,
    ) -> Result<StrList, Memory>
        requires taken { takes self.now.core.now.positions self.now.core.now.ranks goal.now ≡ true }
        requires branch { names_branch (goal_expansion self.now.core.now.positions goal.now) (kind_view branch.kind)
            branch.number ≡ true }
        requires need { need ≤ capacity (cell_at (cells_at self.now.core.now.positions goal.now (kind_view branch.kind)
            branch.number) 0) }
        ensures { IfOk result (λ l. l ≡ take need (cell_at (cells_at self.now.core.now.positions goal.now
            (kind_view branch.kind) branch.number) 0)) }
    {
        if need == 0 {
            return Ok(StrList::from_vec(Vec::new(alloc)));
        }
        self.words(alloc, goal, branch, 0, need as u32)
    }
}

impl Expander for CoreExpander<'_> {
    ghost use Rattle.std.specs.Prelude.{◌≡◌, List, ℕ, Bool};
    ghost use Rattle.expander_laws.specs.Expander.{takes, branch_count};
    ghost use Rattle.js_expander.specs.Found.{goal_expansion, cells_at};
    ghost use Rattle.js_expander.specs.Laws as L;

    ghost takes = { λ x g. takes x.core.now.positions x.core.now.ranks g };

    ghost expansion = { λ x g. goal_expansion x.core.now.positions g };

    ghost branches = { λ x g t. branch_count x.core.now.positions g t };

    ghost cells = { λ x g t k. cells_at x.core.now.positions g t k };

    fn expand(&self, alloc: Global, goal: &Goal) -> Result<Expansion, Memory> {
        let mut kept = Kept::new(alloc);
        for kind in JsonKind::ALL {
            keep_kind(alloc, self.core, goal, kind, &mut kept)?;
        }
        Ok(kept.into_expansion())
    }

    fn words(
        &self,
        alloc: Global,
        goal: &Goal,
        branch: BranchId,
        cell: u32,
        count: u32,
    ) -> Result<StrList, Memory> {
        match branch.kind {
            JsonKind::Text => {
                let set = branch_set(alloc, self.core, goal, branch)?;
                string_words(alloc, self.core, &Branch { id: branch, set }, cell, count)
            }
            JsonKind::Object => {
                let set = branch_set(alloc, self.core, goal, branch)?;
                object_words(alloc, self.core, &Branch { id: branch, set }, cell, count)
            }
            _ => unreachable!(),
        }
    }

    fn words_by_cell(
        &self,
        alloc: Global,
        goal: &Goal,
        branch: BranchId,
        needs: &[u64],
    ) -> Result<Vec<StrList>, Memory> {
        match branch.kind {
            JsonKind::Text => match needs.first() {
                Some(need) => {
                    let words = self.first_cell(alloc, goal, branch, *need)?;
                    Ok(vec![in alloc; words]?)
                }
                None => Ok(Vec::new(alloc)),
            },
            JsonKind::Object => {
                let set = branch_set(alloc, self.core, goal, branch)?;
                object_words_by_cell(alloc, self.core, &Branch { id: branch, set }, needs)
            }
            _ => Ok(Vec::new(alloc)),
        }
    }

    ghost named_taken = { λ x g h. L.named_taken x.core.now.positions x.core.now.ranks g h };

    ghost of_branches = { λ x g h. L.of_branches x.core.now.positions g };

    ghost words_named = { λ x g h. L.words_named x.core.now.positions x.core.now.ranks g h };

    ghost slots_fit = { λ x g h. L.slots_fit x.core.now.positions g };

    ghost slots_differ = { λ x g h. L.slots_differ x.core.now.positions g };

    ghost words_differ = { λ x g h. L.words_differ x.core.now.positions x.core.now.ranks g h };
}
