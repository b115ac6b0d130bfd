//! The alternatives of a branch at arrays.

ghost use Rattle.std.specs.Prelude.{◌≡◌, true, IfOk};
ghost use Rattle.js_algebra.specs.View.{are_in_table};
ghost use Rattle.js_arrays.specs.Leaves.{Answers, Follows, Makes};

use crate::array_frame::ArrayFrame;
use crate::fault::ArrayFault;
use js_algebra::{BranchId, Core, JsonKind};
use js_bounds::Bounds;
use js_expansion::{AlternativeList, Leaf};
use js_plans::{Naming, plan_alternatives};
use js_tableau::Branch;
use std::alloc::Global;

/// The most elements that a branch may require.
pub const MOST_COUNTS: u32 = 65_536;

/// The alternatives of a branch at arrays: one for each complete plan, in order. Without any where the bounds of the
/// count cross; `LimitCounts` exactly where they don't and the branch requires more than 65,536 elements; `LimitPlans`
/// exactly where neither holds and the tree of plans has more than 65,536 ends.
pub fn array_alternatives(alloc: Global, core: &Core, branch: &Branch) -> Result<Leaf, ArrayFault>
    requires { are_in_table core.now.positions branch.now.set ≡ true }
    ensures answer { Answers core.now.positions branch.now.id.number branch.now.set result }

    // An array that meets a saturated set meets one of its alternatives, for any test that passes the goals of lesser
    // documents.
    ensures follows { IfOk result (λ leaf. Follows core.now.positions branch.now.set leaf.alternatives) }

    // An alternative that is met by goals with documents builds an array that meets the set.
    ensures makes { IfOk result (λ leaf. Makes core.now.positions branch.now.set leaf.alternatives) }
{
    // The length comes with the fact that the table is one, on which the meaning rests.
    let _length = core.len();
    leaf(alloc, core, branch)
}

fn leaf(alloc: Global, core: &Core, branch: &Branch) -> Result<Leaf, ArrayFault>
    requires { are_in_table core.now.positions branch.now.set ≡ true }
    ensures { Answers core.now.positions branch.now.id.number branch.now.set result }
{
    let set = branch.set.as_slice();
    let bounds = Bounds::of_arrays(core, set);
    if bounds.are_crossed() {
        return Ok(Leaf {
            alternatives: AlternativeList::from_vec(Vec::new(alloc)),
        });
    }
    if bounds.lower > u128::from(MOST_COUNTS) {
        return Err(ArrayFault::LimitCounts);
    }
    let frame = ArrayFrame::new(alloc, core, set, bounds)?;
    let id = BranchId {
        kind: JsonKind::Array,
        number: branch.id.number,
    };
    let alternatives = plan_alternatives(alloc, &frame, Naming::ByIndex, id)?;
    Ok(Leaf { alternatives })
}
