//! The branches of a goal at a kind.

ghost use Rattle.std.specs.Prelude.{◌≡◌, ◌<◌, ◌≤◌, ◌^◌, ◌++◌, [], ◌∷◌, length, true, IfOk, OnOk, IfErr};
ghost use Rattle.documents.specs.Tests.{every, some};
ghost use Rattle.documents.specs.Document.{Document, kind_of};
ghost use Rattle.goals.specs.Signed.{meets};
ghost use Rattle.goals.specs.Tree.{steps, ends, branches};
ghost use Rattle.js_algebra.specs.View.{kind_view, are_in_table};
ghost use Rattle.js_tableau.specs.Branches.{most_ends, sets_of, AreNumbered, AreBranches};

use crate::branch_walk::BranchWalk;
use crate::fault::TableauFault;
use js_algebra::{BranchId, Core, Goal, JsonKind, SignedList};
use js_doc::Memory;
use std::alloc::Global;
use std::marker::Model;

/// A saturated end of the tree of a goal at a kind.
#[derive(Drop)]
pub struct Branch {
    pub id: BranchId,

    /// All signed positions of the end, strictly rising by position with plus before minus.
    pub set: SignedList,
}

/// A list of branches.
#[derive(Drop)]
pub struct BranchList {
    items: Vec<Branch>,
}

impl Model for BranchList {
    ghost use Rattle.std.specs.Prelude.{List};
    ghost use Rattle.js_tableau.specs.declared.branch_list.Branch.{Branch};

    ghost Value = { List Branch };

    ghost view = { λ l. l.items.items };
}

impl BranchList {
    /// Takes the vector over, without a copy.
    pub fn from_vec(items: Vec<Branch>) -> BranchList
        ensures { result ≡ items.items }
    {
        BranchList { items }
    }

    /// Gives the vector back, without a copy.
    pub fn into_vec(self) -> Vec<Branch>
        ensures { result.items ≡ self }
    {
        let BranchList { items } = self;
        items
    }

    /// The elements in order, lent without a copy.
    pub fn as_slice(&self) -> &[Branch]
        ensures { result.now ≡ self.now }
    {
        self.items.as_slice()
    }
}

/// The saturated ends of the goal's tree at documents of the kind, in order, numbered from 0 on. `LimitBranches`
/// exactly where the tree has more than 16,384 ends, closed ends included.
pub fn branches(
    alloc: Global,
    core: &Core,
    goal: &Goal,
    kind: JsonKind,
) -> Result<BranchList, TableauFault>
    requires in_table { are_in_table core.now.positions goal.now ≡ true }
    ensures sets { IfOk result (λ bs. sets_of bs ≡ branches (steps core.now.positions (kind_view kind) goal.now)) }
    ensures numbered { IfOk result (λ bs. AreNumbered kind 0 bs) }
    ensures few { OnOk result (ends (steps core.now.positions (kind_view kind) goal.now) ≤ most_ends) }
    ensures limit { IfErr result (λ fault. fault ≡ TableauFault.LimitBranches
        → most_ends < ends (steps core.now.positions (kind_view kind) goal.now)) }
    ensures in_table { IfOk result (λ bs. every (are_in_table core.now.positions) (sets_of bs) ≡ true) }

    // Each is saturated, and has all that the goal has.
    ensures saturated { IfOk result (λ bs. AreBranches core.now.positions (kind_view kind) goal.now (sets_of bs)) }

    // A document of the kind meets the goal exactly where it meets one of them.
    ensures meaning { IfOk result (λ bs. (J : Document) → kind_of J ≡ kind_view kind
        → meets core.now.positions goal.now J ≡ some (λ S. meets core.now.positions S J) (sets_of bs)) }
{
    let mut walk = BranchWalk::new(alloc, core, goal, kind)?;
    let mut found = Vec::new(alloc);
    while let Some(set) = walk.next(alloc, core)? {
        add_branch(kind, set, &mut found)?;
    }
    Ok(BranchList::from_vec(found))
}

/// Adds the branch of a set, with the next number.
fn add_branch(kind: JsonKind, set: SignedList, found: &mut Vec<Branch>) -> Result<(), Memory>
    requires { length found.old.items < 2 ^ 32 }
    ensures sets { OnOk result (sets_of found.new.items ≡ sets_of found.old.items ++ set ∷ []) }
    ensures numbered { OnOk result (AreNumbered kind 0 found.old.items → AreNumbered kind 0 found.new.items) }
{
    let number = found.len() as u32;
    found.push(Branch {
        id: BranchId { kind, number },
        set,
    })?;
    Ok(())
}
