//! Whether a set has no truth value, or no number.

ghost use Rattle.std.specs.Prelude.{◌≡◌, true, IfOk};
ghost use Rattle.verdicts.specs.Leaves as V;
ghost use Rattle.js_algebra.specs.View.{are_in_table};

use js_algebra::{BranchId, Core, JsonKind, SignedList};
use js_doc::Memory;
use js_scalars::{NumberFault, number_alternatives, truth_alternatives};
use js_tableau::Branch;
use std::alloc::Global;

/// Whether no truth value meets what the set says of truth values: a pass over the set.
pub(crate) fn has_no_truth(alloc: Global, core: &Core, set: SignedList) -> Result<bool, Memory>
    requires { are_in_table core.now.positions set ≡ true }
    ensures { IfOk result (λ none. none ≡ V.has_no_truth core.now.positions set) }
{
    let branch = branch(JsonKind::Boolean, set);
    let leaf = truth_alternatives(alloc, core, &branch)?;
    Ok(leaf.alternatives.as_slice().is_empty())
}

/// Whether no number meets what the set says of numbers; false where a limit is passed. It costs what
/// deciding costs.
pub(crate) fn has_no_number(alloc: Global, core: &Core, set: SignedList) -> Result<bool, Memory>
    requires { are_in_table core.now.positions set ≡ true }
    ensures { IfOk result (λ none. none ≡ V.has_no_number core.now.positions set) }
{
    let branch = branch(JsonKind::Number, set);
    match number_alternatives(alloc, core, &branch) {
        Ok(leaf) => Ok(leaf.alternatives.as_slice().is_empty()),
        Err(NumberFault::Memory) => Err(Memory),
        Err(_) => Ok(false),
    }
}

/// A branch with that set; its number is of no account.
fn branch(kind: JsonKind, set: SignedList) -> Branch
    ensures { result.set ≡ set }
{
    Branch {
        id: BranchId { kind, number: 0 },
        set,
    }
}
