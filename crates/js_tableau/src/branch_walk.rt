//! The branches of a goal at a kind, one after another.
//!
//! A first walk through the tree counts its ends, so that too many are reported before any branch is given; a second
//! one in the same room gives the branches. So a walk holds one path, and not the branches.

ghost use Rattle.std.specs.Prelude.{◌≡◌, ◌<◌, ◌≤◌, ◌+◌, [], ◌∷◌, IfOk, IfErr, OnOk, IfSome, MatchOption, IsNone, true};
ghost use Rattle.documents.specs.Tests.{some};
ghost use Rattle.documents.specs.Document.{Document, kind_of};
ghost use Rattle.goals.specs.Signed.{meets, is_rising};
ghost use Rattle.goals.specs.Tree.{steps, ends, branches};
ghost use Rattle.js_algebra.specs.View.{kind_view, are_in_table};
ghost use Rattle.js_tableau.specs.Progress.{left, IsTree, AfterStep};
ghost use Rattle.js_tableau.specs.Branches.{most_ends, AreBranches};
ghost use Rattle.js_tableau.specs.BranchWalks.{IsBranchWalk, branches_left};

use crate::fault::TableauFault;
use crate::visits::Tree;
use crate::walk::Step;
use js_algebra::{Core, Goal, JsonKind, SignedList};
use js_doc::Memory;
use std::alloc::Global;

/// The branches of a goal at a kind, of which some were given; `branches_left` are the others, in their order. All its
/// calls are to be given the same table.
#[derive(Drop)]
pub struct BranchWalk {
    tree: Tree,
    kind: JsonKind,
}

impl BranchWalk {
    /// The branches of the goal at documents of the kind, of which none was given. `LimitBranches` exactly where the
    /// tree has more than 16,384 ends, closed ends included. It takes a walk through the tree, in the memory of one
    /// path.
    pub fn new(
        alloc: Global,
        core: &Core,
        goal: &Goal,
        kind: JsonKind,
    ) -> Result<BranchWalk, TableauFault>
        requires in_table { are_in_table core.now.positions goal.now ≡ true }
        ensures walk { IfOk result (λ w. IsBranchWalk core.now.positions w) }
        ensures left { IfOk result (λ w. branches_left core.now.positions w
            ≡ branches (steps core.now.positions (kind_view kind) goal.now)) }
        ensures few { OnOk result (ends (steps core.now.positions (kind_view kind) goal.now) ≤ most_ends) }
        ensures limit { IfErr result (λ fault. fault ≡ TableauFault.LimitBranches
            → most_ends < ends (steps core.now.positions (kind_view kind) goal.now)) }

        // Each is saturated, and has all that the goal has.
        ensures saturated { IfOk result (λ w. AreBranches core.now.positions (kind_view kind) goal.now
            (branches_left core.now.positions w)) }

        // A document of the kind meets the goal exactly where it meets one of them.
        ensures meaning { IfOk result (λ w. (J : Document) → kind_of J ≡ kind_view kind
            → meets core.now.positions goal.now J
            ≡ some (λ S. meets core.now.positions S J) (branches_left core.now.positions w)) }
    {
        let mut tree = Tree::new(alloc, core, goal)?;
        see_all(&mut tree, core, kind)?;
        tree.begin(core, goal)?;
        Ok(BranchWalk { tree, kind })
    }

    /// The set of the next branch, none after the last one. It costs the sorting of its set, and the steps of the tree
    /// since the branch before it.
    pub fn next(&mut self, alloc: Global, core: &Core) -> Result<Option<SignedList>, Memory>
        requires { IsBranchWalk core.now.positions self.old }
        ensures next { IfOk result (λ o. MatchOption o (branches_left core.now.positions self.old ≡ [])
            (λ S. branches_left core.now.positions self.old ≡ S ∷ branches_left core.now.positions self.new)) }
        ensures end { IfOk result (λ o. IsNone o → branches_left core.now.positions self.new ≡ []) }
        ensures in_table { IfOk result (λ o. IfSome o (λ S. are_in_table core.now.positions S ≡ true)) }
        ensures rising { IfOk result (λ o. IfSome o (λ S. is_rising S ≡ true)) }
        ensures walk { OnOk result (IsBranchWalk core.now.positions self.new) }
    {
        while let Some(step) = self.step(core)? {
            if let Step::Saturated = step {
                let set = self.tree.set(alloc)?;
                return Ok(Some(set));
            }
        }
        Ok(None)
    }

    /// The next step of the tree. As its ends were counted, an error is want of memory.
    fn step(&mut self, core: &Core) -> Result<Option<Step>, Memory>
        requires { IsBranchWalk core.now.positions self.old }
        ensures next { IfOk result (λ o. AfterStep core.now.positions (kind_view self.old.kind) self.old.tree
            self.new.tree o) }
        ensures walk { OnOk result (IsBranchWalk core.now.positions self.new) }
        ensures kind { self.new.kind ≡ self.old.kind }
    {
        match self.tree.next(core, self.kind) {
            Ok(step) => Ok(step),
            Err(TableauFault::LimitBranches) => unreachable!(),
            Err(TableauFault::Memory) => Err(Memory),
        }
    }
}

/// Goes through the whole tree; `LimitBranches` exactly where it has more ends than a tree may have.
fn see_all(tree: &mut Tree, core: &Core, kind: JsonKind) -> Result<(), TableauFault>
    requires { IsTree core.now.positions (kind_view kind) tree.old }
    ensures few { OnOk result (tree.old.ends + ends (left core.now.positions (kind_view kind) tree.old) ≤ most_ends) }
    ensures limit { IfErr result (λ fault. fault ≡ TableauFault.LimitBranches
        → most_ends < tree.old.ends + ends (left core.now.positions (kind_view kind) tree.old)) }
{
    while let Some(_step) = tree.next(core, kind)? {}
    Ok(())
}
