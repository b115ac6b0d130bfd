//! The lines of a set that no array meets.

ghost use Rattle.std.specs.Prelude.{◌≡◌, ◌++◌, ◌∷◌, map, drop, length, true, IfOk, OnOk};
ghost use Rattle.documents.specs.Kind as K;
ghost use Rattle.frames.specs.ArrayFrame as A;
ghost use Rattle.certificate_lines.specs.Line as L;
ghost use Rattle.verdicts.specs.Duties as Duties;
ghost use Rattle.refutations.specs.PlanTreeLines.{plan_lines};
ghost use Rattle.js_algebra.specs.View.{signed_view, are_in_table};
ghost use Rattle.js_lines.specs.View.{line_view};
ghost use Rattle.js_arrays.specs.FrameView.{frame_view};
ghost use Rattle.js_goal_lines.specs.Dead.{AreDeadAt};

use js_algebra::{Core, Signed};
use js_arrays::{ArrayFrame, MOST_COUNTS};
use js_bounds::Bounds;
use js_doc::Memory;
use js_expansion::Dead;
use js_lines::CertLine;
use js_plan_lines::{PlanForm, add_plan_lines};
use std::alloc::Global;

/// Adds the lines of a set's plans at arrays.
pub(crate) fn add_array_lines<D: Dead>(
    alloc: Global,
    core: &Core,
    dead: &D,
    set: &[Signed],
    lines: &mut Vec<CertLine>,
) -> Result<(), Memory>
    requires { are_in_table core.now.positions (map signed_view set.now) ≡ true }
    ensures lines { OnOk result (map line_view lines.new.items ≡ map line_view lines.old.items
        ++ L.Arrays ∷ plan_lines (D.number_of dead.now) Duties.OfArrays core.now.positions
        (A.array_frame core.now.positions (map signed_view set.now))) }

    // Where no alternative of the set is met, they show by the checker's rules that no array meets it.
    ensures dead { OnOk result (AreDeadAt (D.number_of dead.now) core.now.positions K.Array
        (map signed_view set.now) (drop (length lines.old.items) (map line_view lines.new.items))) }
{
    let frame = frame_of(alloc, core, set)?;
    lines.push(CertLine::Array)?;
    add_plan_lines(alloc, &frame, PlanForm::OfArrays, dead, lines)
}

/// The frame of a set; want of memory where it requires too many elements.
fn frame_of<'a>(alloc: Global, core: &'a Core, set: &'a [Signed]) -> Result<ArrayFrame<'a>, Memory>
    requires { are_in_table core.now.positions (map signed_view set.now) ≡ true }
    ensures frame { IfOk result (λ f. frame_view f ≡ A.array_frame core.now.positions (map signed_view set.now)) }
    ensures table { IfOk result (λ f. f.core.now.positions ≡ core.now.positions) }
{
    let bounds = Bounds::of_arrays(core, set);
    if bounds.lower > u128::from(MOST_COUNTS) {
        return Err(Memory);
    }
    ArrayFrame::new(alloc, core, set, bounds)
}
