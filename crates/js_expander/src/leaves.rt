//! The answer of the leaf of each kind.

ghost use Rattle.std.specs.Prelude.{◌≡◌, true, IfOk};
ghost use Rattle.documents.specs.Kind as K;
ghost use Rattle.js_algebra.specs.View.{kind_view, are_in_table};
ghost use Rattle.js_expander.specs.Found.{leaf_of};
ghost use Rattle.js_expander.specs.Answers.{answer_view};

use crate::kept::Answer;
use js_algebra::{Core, JsonKind};
use js_arrays::{ArrayFault, array_alternatives};
use js_automaton::AutoFault;
use js_doc::Memory;
use js_expansion::LimitKind;
use js_kept_automaton::KeptAutomaton;
use js_objects::{ObjectFault, object_alternatives};
use js_scalars::{NumberFault, null_alternatives, number_alternatives, truth_alternatives};
use js_strings::string_alternatives;
use js_tableau::Branch;
use std::alloc::Global;

/// What the leaf of its kind answers for a branch. The automaton that is kept serves branches at strings or at objects,
/// one after another.
pub(crate) fn answer(
    alloc: Global,
    core: &Core,
    branch: &Branch,
    kept: &mut KeptAutomaton,
) -> Result<Answer, Memory>
    requires { are_in_table core.now.positions branch.now.set ≡ true }
    ensures { IfOk result (λ a. answer_view a ≡ leaf_of core.now.positions (kind_view branch.now.id.kind)
        branch.now.id.number branch.now.set) }
{
    match branch.id.kind {
        JsonKind::Null => Ok(Ok(null_alternatives(alloc, branch)?)),
        JsonKind::Boolean => Ok(Ok(truth_alternatives(alloc, core, branch)?)),
        JsonKind::Number => number_answer(alloc, core, branch),
        JsonKind::Text => string_answer(alloc, core, branch, kept),
        JsonKind::Array => array_answer(alloc, core, branch),
        JsonKind::Object => object_answer(alloc, core, branch, kept),
    }
}

fn number_answer(alloc: Global, core: &Core, branch: &Branch) -> Result<Answer, Memory>
    requires { are_in_table core.now.positions branch.now.set ≡ true }
    ensures { IfOk result (λ a. answer_view a
        ≡ leaf_of core.now.positions K.Number branch.now.id.number branch.now.set) }
{
    match number_alternatives(alloc, core, branch) {
        Ok(leaf) => Ok(Ok(leaf)),
        Err(NumberFault::Multiples) => Ok(Err(LimitKind::Multiples)),
        Err(NumberFault::Candidates) => Ok(Err(LimitKind::Candidates)),
        Err(NumberFault::Memory) => Err(Memory),
    }
}

fn string_answer(
    alloc: Global,
    core: &Core,
    branch: &Branch,
    kept: &mut KeptAutomaton,
) -> Result<Answer, Memory>
    requires kind { branch.now.id.kind ≡ JsonKind.Text }
    requires in_table { are_in_table core.now.positions branch.now.set ≡ true }
    ensures { IfOk result (λ a. answer_view a
        ≡ leaf_of core.now.positions K.Text branch.now.id.number branch.now.set) }
{
    match string_alternatives(alloc, core, branch, kept) {
        Ok(leaf) => Ok(Ok(leaf)),
        Err(AutoFault::LimitPositions) => Ok(Err(LimitKind::Positions)),
        Err(AutoFault::LimitClasses) => Ok(Err(LimitKind::Classes)),
        Err(AutoFault::LimitStates) => Ok(Err(LimitKind::States)),
        Err(AutoFault::Memory) => Err(Memory),
    }
}

fn array_answer(alloc: Global, core: &Core, branch: &Branch) -> Result<Answer, Memory>
    requires { are_in_table core.now.positions branch.now.set ≡ true }
    ensures { IfOk result (λ a. answer_view a
        ≡ leaf_of core.now.positions K.Array branch.now.id.number branch.now.set) }
{
    match array_alternatives(alloc, core, branch) {
        Ok(leaf) => Ok(Ok(leaf)),
        Err(ArrayFault::LimitCounts) => Ok(Err(LimitKind::Counts)),
        Err(ArrayFault::LimitPlans) => Ok(Err(LimitKind::Plans)),
        Err(ArrayFault::Memory) => Err(Memory),
    }
}

fn object_answer(
    alloc: Global,
    core: &Core,
    branch: &Branch,
    kept: &mut KeptAutomaton,
) -> Result<Answer, Memory>
    requires { are_in_table core.now.positions branch.now.set ≡ true }
    ensures { IfOk result (λ a. answer_view a
        ≡ leaf_of core.now.positions K.Object branch.now.id.number branch.now.set) }
{
    match object_alternatives(alloc, core, branch, kept) {
        Ok(leaf) => Ok(Ok(leaf)),
        Err(ObjectFault::LimitCounts) => Ok(Err(LimitKind::Counts)),
        Err(ObjectFault::LimitPositions) => Ok(Err(LimitKind::Positions)),
        Err(ObjectFault::LimitClasses) => Ok(Err(LimitKind::Classes)),
        Err(ObjectFault::LimitStates) => Ok(Err(LimitKind::States)),
        Err(ObjectFault::LimitPlans) => Ok(Err(LimitKind::Plans)),
        Err(ObjectFault::Memory) => Err(Memory),
    }
}
