//! The lines of a set that no object meets.

ghost use Rattle.std.specs.Prelude.{◌≡◌, ◌++◌, map, drop, length, true, IfOk, OnOk};
ghost use Rattle.documents.specs.Kind as K;
ghost use Rattle.frames.specs.ObjectFrame.{object_frame};
ghost use Rattle.refutations.specs.ObjectLines as O;
ghost use Rattle.refutations.specs.ObjectLines.{object_lines, member_lines};
ghost use Rattle.js_algebra.specs.View.{signed_view, are_in_table};
ghost use Rattle.js_automaton.specs.AutomatonView.{atoms_of, rows_of};
ghost use Rattle.js_cells.specs.View.{cells_view};
ghost use Rattle.js_lines.specs.View.{line_view};
ghost use Rattle.js_objects.specs.FrameView.{frame_view};
ghost use Rattle.js_objects.specs.Steps.{IsOfNames, cells_by};
ghost use Rattle.js_goal_lines.specs.Dead.{AreDeadAt};

use js_algebra::{Core, Signed};
use js_automaton::Automaton;
use js_bounds::Bounds;
use js_doc::Memory;
use js_expansion::Dead;
use js_kept_automaton::KeptAutomaton;
use js_lines::CertLine;
use js_objects::{MOST_COUNTS, ObjectFrame, name_automaton};
use js_plan_lines::{PlanForm, add_plan_lines};
use js_plans::PlanFrame;
use js_row_lines::{add_cap_lines, add_row_lines};
use std::alloc::Global;

/// Adds the lines of a set's rows of names, of bounds of their cells, and of its plans at objects.
///
/// The automaton of the names is kept: it serves a later set that says the same of them, and changes no line.
pub(crate) fn add_object_lines<D: Dead>(
    alloc: Global,
    core: &Core,
    dead: &D,
    set: &[Signed],
    kept: &mut KeptAutomaton,
    lines: &mut Vec<CertLine>,
) -> Result<(), Memory>
    requires { are_in_table core.now.positions (map signed_view set.now) ≡ true }
    ensures lines { OnOk result (map line_view lines.new.items ≡ map line_view lines.old.items
        ++ object_lines (D.number_of dead.now) core.now.positions (map signed_view set.now)) }

    // Where no alternative of the set is met, they show by the checker's rules that no object meets it.
    ensures dead { OnOk result (AreDeadAt (D.number_of dead.now) core.now.positions K.Object
        (map signed_view set.now) (drop (length lines.old.items) (map line_view lines.new.items))) }
{
    match name_automaton(alloc, core, set, kept) {
        Ok(automaton) => add_lines_of(alloc, core, dead, set, automaton, lines),
        Err(_) => Err(Memory),
    }
}

/// Adds the lines of a set by the automaton of its names.
fn add_lines_of<D: Dead>(
    alloc: Global,
    core: &Core,
    dead: &D,
    set: &[Signed],
    automaton: &Automaton,
    lines: &mut Vec<CertLine>,
) -> Result<(), Memory>
    requires in_table { are_in_table core.now.positions (map signed_view set.now) ≡ true }
    requires automaton { IsOfNames core.now.positions (map signed_view set.now) automaton.now }
    ensures { OnOk result (map line_view lines.new.items ≡ map line_view lines.old.items
        ++ object_lines (D.number_of dead.now) core.now.positions (map signed_view set.now)) }
{
    let frame = frame_of(alloc, core, set, automaton)?;
    add_member_lines(alloc, dead, automaton, &frame, lines)
}

/// The frame over the cells of the automaton's rows; want of memory where the set requires too many members.
fn frame_of<'a>(
    alloc: Global,
    core: &'a Core,
    set: &'a [Signed],
    automaton: &'a Automaton,
) -> Result<ObjectFrame<'a>, Memory>
    requires in_table { are_in_table core.now.positions (map signed_view set.now) ≡ true }
    requires automaton { IsOfNames core.now.positions (map signed_view set.now) automaton.now }
    ensures frame { IfOk result (λ f. frame_view f ≡ object_frame core.now.positions
        (cells_by core.now.positions (map signed_view set.now) automaton.now) (map signed_view set.now)) }
    ensures table { IfOk result (λ f. f.core.now.positions ≡ core.now.positions) }
    ensures cells { IfOk result (λ f. cells_view f.cells
        ≡ cells_by core.now.positions (map signed_view set.now) automaton.now) }
    ensures cell_table { IfOk result (λ f. f.cells.core.now.positions ≡ core.now.positions) }
    ensures rows { IfOk result (λ f. rows_of f.cells.automaton.now ≡ rows_of automaton.now) }
{
    // The length comes with the fact that the table is one, on which the frame rests.
    let _length = core.len();
    let bounds = Bounds::of_objects(core, set);
    if bounds.lower > u128::from(MOST_COUNTS) {
        return Err(Memory);
    }
    js_objects::frame_of(alloc, core, set, bounds, automaton)
}

/// Adds the lines of the rows of an automaton, of the bounds of the frame's cells, and of its plans.
fn add_member_lines<D: Dead>(
    alloc: Global,
    dead: &D,
    automaton: &Automaton,
    frame: &ObjectFrame,
    lines: &mut Vec<CertLine>,
) -> Result<(), Memory>
    requires table { frame.now.cells.core.now.positions ≡ frame.now.core.now.positions }
    requires rows { rows_of frame.now.cells.automaton.now ≡ rows_of automaton.now }
    ensures { OnOk result (map line_view lines.new.items ≡ map line_view lines.old.items
        ++ member_lines (D.number_of dead.now) frame.now.core.now.positions (map signed_view frame.now.set.now)
        (atoms_of automaton.now) (rows_of automaton.now) (cells_view frame.now.cells) (frame_view frame.now)) }
{
    let capped = capped(alloc, frame)?;
    let Ok(count) = u32::try_from(capped.len()) else {
        return Err(Memory);
    };
    lines.push(CertLine::Object(automaton.rows(), count))?;
    add_row_lines(alloc, automaton, lines)?;
    add_cap_lines(alloc, frame.name_cells(), capped.as_slice(), lines)?;
    add_plan_lines(alloc, frame, PlanForm::OfObjects, dead, lines)
}

/// The cells of which a bound is stated, in order.
fn capped(alloc: Global, frame: &ObjectFrame) -> Result<Vec<u32>, Memory>
    ensures { IfOk result (λ v. v.items ≡ O.capped (frame_view frame.now)) }
{
    let mut capped = Vec::new(alloc);
    for cell in frame.cells() {
        if frame.cap(*cell).is_some() {
            capped.push(*cell)?;
        }
    }
    Ok(capped)
}
