//! The alternatives of a branch at objects.

ghost use Rattle.std.specs.Prelude.{◌≡◌, ◌≤◌, map, true, IfOk};
ghost use Rattle.documents.specs.Kind as K;
ghost use Rattle.positions.specs.Position.{is_table};
ghost use Rattle.frames.specs.ObjectFrame as O;
ghost use Rattle.expansions.specs.Leaves.{by_name, plan_alternative, by_plans};
ghost use Rattle.finders.specs.Names.{cells_of};
ghost use Rattle.js_algebra.specs.View.{signed_view, are_in_table};
ghost use Rattle.js_automaton.specs.AutomatonView.{rows_of};
ghost use Rattle.js_cells.specs.View.{cells_view};
ghost use Rattle.js_objects.specs.FrameView.{frame_view};
ghost use Rattle.js_objects.specs.Leaves.{Answers, Follows, Makes, Says, planned_leaf};
ghost use Rattle.js_objects.specs.Steps.{AreOpen, IsOfNames, cells_by};

use crate::fault::ObjectFault;
use crate::names::name_automaton;
use crate::object_frame::ObjectFrame;
use js_algebra::{BranchId, Core, JsonKind, Signed};
use js_automaton::Automaton;
use js_bounds::Bounds;
use js_cells::Cells;
use js_doc::Memory;
use js_expansion::{AlternativeList, Leaf};
use js_kept_automaton::KeptAutomaton;
use js_plans::{Naming, plan_alternatives};
use js_tableau::Branch;
use std::alloc::Global;

/// The most members that a branch may require.
pub const MOST_COUNTS: u32 = 65_536;

/// The alternatives of a branch at objects: one for each complete plan, in order. Without any where the bounds of the
/// count cross; `LimitCounts` exactly where they don't and the branch requires more than 65,536 members; where neither
/// holds, the limits of the automaton of names, each exactly where it is passed first; and then `LimitPlans` exactly
/// where the tree of plans has more than 65,536 ends.
///
/// The automaton of the names is kept, or its limit: it serves a later branch that says the same of them, and changes
/// no answer.
pub fn object_alternatives(
    alloc: Global,
    core: &Core,
    branch: &Branch,
    kept: &mut KeptAutomaton,
) -> Result<Leaf, ObjectFault>
    requires { are_in_table core.now.positions branch.now.set ≡ true }
    ensures answer { Answers core.now.positions branch.now.id.number branch.now.set result }

    // An object that meets a saturated set meets one of its alternatives, for any test that passes the goals of lesser
    // documents.
    ensures follows { IfOk result (λ leaf. Follows core.now.positions branch.now.set leaf.alternatives) }

    // An alternative that is met by goals with documents builds an object that meets the set.
    ensures makes { IfOk result (λ leaf. Makes core.now.positions branch.now.set leaf.alternatives) }
{
    // The length comes with the fact that the table is one, on which the meaning rests.
    let _length = core.len();
    leaf(alloc, core, branch.set.as_slice(), branch.id.number, kept)
}

/// The leaf of the set of a branch of that number.
fn leaf(
    alloc: Global,
    core: &Core,
    set: &[Signed],
    number: u32,
    kept: &mut KeptAutomaton,
) -> Result<Leaf, ObjectFault>
    requires in_table { are_in_table core.now.positions (map signed_view set.now) ≡ true }
    requires table { is_table core.now.positions core.now.ranks ≡ true }
    ensures { Answers core.now.positions number (map signed_view set.now) result }
{
    let bounds = Bounds::of_objects(core, set);
    if bounds.are_crossed() {
        return Ok(Leaf {
            alternatives: AlternativeList::from_vec(Vec::new(alloc)),
        });
    }
    if bounds.lower > u128::from(MOST_COUNTS) {
        return Err(ObjectFault::LimitCounts);
    }
    open_leaf(alloc, core, set, number, bounds, kept)
}

/// The leaf where a count is within the bounds.
fn open_leaf(
    alloc: Global,
    core: &Core,
    set: &[Signed],
    number: u32,
    bounds: Bounds,
    kept: &mut KeptAutomaton,
) -> Result<Leaf, ObjectFault>
    requires in_table { are_in_table core.now.positions (map signed_view set.now) ≡ true }
    requires table { is_table core.now.positions core.now.ranks ≡ true }
    requires bounds { AreOpen core.now.positions (map signed_view set.now) bounds }
    ensures { Says (planned_leaf core.now.positions number (map signed_view set.now)
        (cells_of core.now.positions (map signed_view set.now))) result }
{
    let automaton = name_automaton(alloc, core, set, kept)?;
    leaf_of_names(alloc, core, set, number, bounds, automaton)
}

/// The leaf over the cells of the automaton's rows.
fn leaf_of_names(
    alloc: Global,
    core: &Core,
    set: &[Signed],
    number: u32,
    bounds: Bounds,
    automaton: &Automaton,
) -> Result<Leaf, ObjectFault>
    requires in_table { are_in_table core.now.positions (map signed_view set.now) ≡ true }
    requires table { is_table core.now.positions core.now.ranks ≡ true }
    requires bounds { AreOpen core.now.positions (map signed_view set.now) bounds }
    requires automaton { IsOfNames core.now.positions (map signed_view set.now) automaton.now }
    ensures { Says (planned_leaf core.now.positions number (map signed_view set.now)
        (cells_of core.now.positions (map signed_view set.now))) result }
{
    let frame = frame_of(alloc, core, set, bounds, automaton)?;
    planned(alloc, &frame, number)
}

/// The leaf by the plans of a frame.
fn planned(alloc: Global, frame: &ObjectFrame, number: u32) -> Result<Leaf, ObjectFault>
    requires { (frame_view frame.now).lower ≤ 65536 }
    ensures { Says (by_plans (plan_alternative by_name K.Object number frame.now.core.now.positions)
        frame.now.core.now.positions (frame_view frame.now)) result }
{
    let branch = BranchId {
        kind: JsonKind::Object,
        number,
    };
    let alternatives = plan_alternatives(alloc, frame, Naming::ByName, branch)?;
    Ok(Leaf { alternatives })
}

/// The frame over the cells of the automaton's rows.
pub fn frame_of<'a>(
    alloc: Global,
    core: &'a Core,
    set: &'a [Signed],
    bounds: Bounds,
    automaton: &'a Automaton,
) -> Result<ObjectFrame<'a>, Memory>
    requires in_table { are_in_table core.now.positions (map signed_view set.now) ≡ true }
    requires table { is_table core.now.positions core.now.ranks ≡ true }
    requires bounds { AreOpen core.now.positions (map signed_view set.now) bounds }
    requires automaton { IsOfNames core.now.positions (map signed_view set.now) automaton.now }
    ensures frame { IfOk result (λ f. frame_view f ≡ O.object_frame core.now.positions
        (cells_by core.now.positions (map signed_view set.now) automaton.now) (map signed_view set.now)) }
    ensures table { IfOk result (λ f. f.core.now.positions ≡ core.now.positions) }
    ensures cells { IfOk result (λ f. cells_view f.cells
        ≡ cells_by core.now.positions (map signed_view set.now) automaton.now) }
    ensures cell_table { IfOk result (λ f. f.cells.core.now.positions ≡ core.now.positions) }
    ensures rows { IfOk result (λ f. rows_of f.cells.automaton.now ≡ rows_of automaton.now) }
{
    let cells = Cells::new(alloc, core, set, automaton)?;
    ObjectFrame::new(alloc, core, set, bounds, cells)
}
