//! The branches of a goal at a kind: all of them answered, or one by its number.

ghost use Rattle.std.specs.Prelude.{◌≡◌, ◌<◌, ◌≤◌, [], length, get_or, true, IfOk, OnOk};
ghost use Rattle.goals.specs.Tree.{steps, ends, branches};
ghost use Rattle.alternatives.specs.Expansion.{keep_all};
ghost use Rattle.alternatives.specs.Limit.{most_ends};
ghost use Rattle.expansions.specs.Expansion.{at_kind};
ghost use Rattle.js_algebra.specs.View.{kind_view, are_in_table};
ghost use Rattle.js_tableau.specs.BranchWalks.{IsBranchWalk, branches_left};
ghost use Rattle.js_expander.specs.Found.{leaf_of, from_branches};

use crate::kept::Kept;
use crate::leaves::answer;
use js_algebra::{BranchId, Core, Goal, JsonKind, SignedList};
use js_doc::Memory;
use js_expansion::LimitKind;
use js_kept_automaton::KeptAutomaton;
use js_tableau::{Branch, BranchWalk, TableauFault};
use std::alloc::Global;

/// Keeps the answers of all branches of the goal at the kind, or the limit on its tree.
pub(crate) fn keep_kind(
    alloc: Global,
    core: &Core,
    goal: &Goal,
    kind: JsonKind,
    kept: &mut Kept,
) -> Result<(), Memory>
    requires { are_in_table core.now.positions goal.now ≡ true }
    ensures { OnOk result (kept.new
        ≡ keep_all kept.old (at_kind core.now.positions (leaf_of core.now.positions) goal.now (kind_view kind))) }
{
    match BranchWalk::new(alloc, core, goal, kind) {
        Ok(walk) => keep_branches(alloc, core, kind, walk, kept),
        Err(TableauFault::LimitBranches) => {
            kept.pass(LimitKind::Branches);
            Ok(())
        }
        Err(TableauFault::Memory) => Err(Memory),
    }
}

/// Keeps the answers of the branches of a walk that gave none yet.
fn keep_branches(
    alloc: Global,
    core: &Core,
    kind: JsonKind,
    mut walk: BranchWalk,
    kept: &mut Kept,
) -> Result<(), Memory>
    requires walk { IsBranchWalk core.now.positions walk }
    requires few { length (branches_left core.now.positions walk) ≤ 16384 }
    ensures { OnOk result (kept.new
        ≡ keep_all kept.old (from_branches core.now.positions (kind_view kind) 0
        (branches_left core.now.positions walk))) }
{
    let mut number = 0;
    let mut automaton = KeptAutomaton::new();
    while let Some(set) = walk.next(alloc, core)? {
        let branch = Branch {
            id: BranchId { kind, number },
            set,
        };
        kept.keep(answer(alloc, core, &branch, &mut automaton)?)?;
        number += 1;
    }
    Ok(())
}

/// The set of a branch of the goal, found by going to it.
pub(crate) fn branch_set(
    alloc: Global,
    core: &Core,
    goal: &Goal,
    branch: BranchId,
) -> Result<SignedList, Memory>
    requires in_table { are_in_table core.now.positions goal.now ≡ true }
    requires there { branch.number < length (branches (steps core.now.positions (kind_view branch.kind) goal.now)) }
    ensures set { IfOk result (λ S. S
        ≡ get_or (branches (steps core.now.positions (kind_view branch.kind) goal.now)) branch.number []) }
    ensures in_table { IfOk result (λ S. are_in_table core.now.positions S ≡ true) }
{
    let Ok(mut walk) = BranchWalk::new(alloc, core, goal, branch.kind) else {
        return Err(Memory);
    };
    for _ in 0..branch.number {
        let _earlier = walk.next(alloc, core)?;
    }
    match walk.next(alloc, core)? {
        Some(set) => Ok(set),
        None => Err(Memory),
    }
}
