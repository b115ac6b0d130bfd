//! What expands goals, as a search sees it.

use crate::expansion::Expansion;
use js_algebra::{BranchId, Goal};
use js_doc::{Memory, StrList};
use std::alloc::Global;

/// Expands goals. An expansion and the cells of a branch are functions of the expander and the goal: so two answers for
/// one goal are equal, but for want of memory.
pub trait Expander {
    ghost use Rattle.std.specs.Prelude.{◌≡◌, ◌<◌, ◌≤◌, ◌^◌, [], ℕ, List, Bool, true, IfOk, length, take, get_or, nat_lt};
    ghost use Rattle.documents.specs.Kind.{Kind};
    ghost use Rattle.documents.specs.Tests.{every};
    ghost use Rattle.goals.specs.Signed.{Signed};
    ghost use Rattle.alternatives.specs.Alternative.{named};
    ghost use Rattle.alternatives.specs.Slots.{capacity, cell_at, has_words, has_fitting_slots, has_different_slots, has_different_words};
    ghost use Rattle.alternatives.specs.Expansion.{Expansion, names_branch};
    ghost use Rattle.js_algebra.specs.View.{kind_view};
    ghost use Rattle.js_expansion.specs.ExpansionView.{expansion_view};

    /// The goals that it takes.
    ghost takes: { Self → List Signed → Bool };

    /// The expansion of a goal.
    ghost expansion: { Self → List Signed → Expansion };

    /// How many branches of a kind a goal has.
    ghost branches: { Self → List Signed → Kind → ℕ };

    /// The cells of a branch of a goal, each by its words in order.
    ghost cells: { Self → List Signed → Kind → ℕ → List (List (List ℕ)) };

    fn expand(&self, alloc: Global, goal: &Goal) -> Result<Expansion, Memory>
        requires { takes self.now goal.now ≡ true }
        ensures { IfOk result (λ e. expansion_view e ≡ expansion self.now goal.now) };

    /// The first words of a cell of a branch of which the goal has an alternative.
    fn words(
        &self,
        alloc: Global,
        goal: &Goal,
        branch: BranchId,
        cell: u32,
        count: u32,
    ) -> Result<StrList, Memory>
        requires taken { takes self.now goal.now ≡ true }
        requires branch { names_branch (expansion self.now goal.now) (kind_view branch.kind) branch.number ≡ true }
        requires cell { cell < length (cells self.now goal.now (kind_view branch.kind) branch.number) }
        requires count { count ≤ capacity (cell_at (cells self.now goal.now (kind_view branch.kind) branch.number) cell) }
        ensures { IfOk result (λ l. l ≡ take count (cell_at (cells self.now goal.now (kind_view branch.kind) branch.number) cell)) };

    /// Of each cell of a branch of which the goal has an alternative as many first words as are needed of it. Of what
    /// is no cell none may be needed.
    ///
    /// Requests each cell's words for themselves. An expander that finds all cells of a branch at once does better.
    fn words_by_cell(
        &self,
        alloc: Global,
        goal: &Goal,
        branch: BranchId,
        needs: &[u64],
    ) -> Result<Vec<StrList>, Memory>
        requires taken { takes self.now goal.now ≡ true }
        requires branch { names_branch (expansion self.now goal.now) (kind_view branch.kind) branch.number ≡ true }
        requires few { length needs.now ≤ 2 ^ 32 }
        requires needs { (c : ℕ) → get_or needs.now c 0
            ≤ capacity (cell_at (cells self.now goal.now (kind_view branch.kind) branch.number) c) }
        ensures { IfOk result (λ v. (c : ℕ) → get_or v.items c [] ≡ take (get_or needs.now c 0)
            (cell_at (cells self.now goal.now (kind_view branch.kind) branch.number) c)) }
    {
        let mut lists = Vec::with_capacity(alloc, needs.len())?;
        for cell in 0..needs.len() {
            match needs[cell] {
                0 => lists.push(StrList::from_vec(Vec::new(alloc)))?,
                need => lists.push(self.words(alloc, goal, branch, cell as u32, need as u32)?)?,
            }
        }
        Ok(lists)
    }

    /// Each goal that an expansion names is taken.
    ghost named_taken: { (x : Self) (g : List Signed) → takes x g ≡ true
        → every (takes x) (named (expansion x g).alternatives) ≡ true };

    /// Each alternative is of a branch of the goal.
    ghost of_branches: { (x : Self) (g : List Signed) → takes x g ≡ true
        → every (λ a. nat_lt a.branch (branches x g a.kind)) (expansion x g).alternatives ≡ true };

    /// Each slot that an alternative names is a word of a cell of its branch, those of fillers up to their room.
    ghost words_named: { (x : Self) (g : List Signed) → takes x g ≡ true
        → every (λ a. has_words (cells x g a.kind a.branch) a) (expansion x g).alternatives ≡ true };

    /// Elements are at indices and members under names; a scalar has neither.
    ghost slots_fit: { (x : Self) (g : List Signed) → takes x g ≡ true
        → every has_fitting_slots (expansion x g).alternatives ≡ true };

    /// No slot of an alternative comes twice.
    ghost slots_differ: { (x : Self) (g : List Signed) → takes x g ≡ true
        → every has_different_slots (expansion x g).alternatives ≡ true };

    /// No word of a branch comes twice.
    ghost words_differ: { (x : Self) (g : List Signed) → takes x g ≡ true
        → every (λ a. has_different_words (cells x g a.kind a.branch)) (expansion x g).alternatives ≡ true };
}
