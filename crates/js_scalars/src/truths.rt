//! The alternatives of a boolean branch.

ghost use Rattle.std.specs.Prelude.{◌≡◌, [], ◌∷◌, ◌++◌, map, filter, true, IfOk, OnOk, Ok};
ghost use Rattle.documents.specs.Tests.{every};
ghost use Rattle.documents.specs.Kind as K;
ghost use Rattle.expansions.specs.Leaves.{agrees, leaf, scalars, Finders};
ghost use Rattle.alternatives.specs.Alternative as A;
ghost use Rattle.js_expansion.specs.AlternativeView.{alternative_view};
ghost use Rattle.js_algebra.specs.View.{signed_view, is_in_table, are_in_table};

use crate::scalar::scalar;
use js_algebra::{Core, JsonKind, Node, Signed};
use js_doc::Memory;
use js_expansion::{Alternative, AlternativeList, Leaf, Shape};
use js_tableau::Branch;
use std::alloc::Global;

/// An alternative for each truth value that meets the branch's set, false first.
pub fn truth_alternatives(alloc: Global, core: &Core, branch: &Branch) -> Result<Leaf, Memory>
    requires { are_in_table core.now.positions branch.now.set ≡ true }
    ensures { IfOk result (λ l. (F : Finders) → Ok l.alternatives
        ≡ leaf F core.now.positions K.Boolean branch.now.id.number branch.now.set) }
{
    let mut alternatives = Vec::new(alloc);
    add_truth(alloc, core, branch, false, &mut alternatives)?;
    add_truth(alloc, core, branch, true, &mut alternatives)?;
    Ok(Leaf {
        alternatives: AlternativeList::from_vec(alternatives),
    })
}

/// Adds the alternative of the truth value, where it meets the branch's set.
fn add_truth(
    alloc: Global,
    core: &Core,
    branch: &Branch,
    truth: bool,
    alternatives: &mut Vec<Alternative>,
) -> Result<(), Memory>
    requires { are_in_table core.now.positions branch.now.set ≡ true }
    ensures { OnOk result (map alternative_view alternatives.new.items ≡ map alternative_view alternatives.old.items
        ++ scalars K.Boolean A.Truth branch.now.id.number
        (filter (λ b. every (agrees core.now.positions b) branch.now.set) (truth ∷ []))) }
{
    if all_agree(core, branch.set.as_slice(), truth) {
        let shape = Shape::Bool(truth);
        alternatives.push(scalar(alloc, JsonKind::Boolean, branch.id.number, shape))?;
    }
    Ok(())
}

/// Whether the truth value meets what each position of the set says of truth values.
fn all_agree(core: &Core, set: &[Signed], truth: bool) -> bool
    requires { are_in_table core.now.positions (map signed_view set.now) ≡ true }
    ensures { result ≡ every (agrees core.now.positions truth) (map signed_view set.now) }
{
    for x in set {
        if !agrees(core, *x, truth) {
            return false;
        }
    }
    true
}

fn agrees(core: &Core, x: Signed, truth: bool) -> bool
    requires { is_in_table core.now.positions (signed_view x) ≡ true }
    ensures { result ≡ agrees core.now.positions truth (signed_view x) }
{
    match core.node(x.pos) {
        Node::BoolIs(b) => (*b == truth) == x.plus,
        _ => true,
    }
}
