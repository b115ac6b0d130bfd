//! The lines of a saturated set, by its kind.

ghost use Rattle.std.specs.Prelude.{◌≡◌, ◌++◌, [], ◌∷◌, List, map, cond, true, OnOk};
ghost use Rattle.certificate_lines.specs.Line as L;
ghost use Rattle.verdicts.specs.Leaves as V;
ghost use Rattle.refutations.specs.GoalLines.{unless_crossed, open_lines, leaf_lines};
ghost use Rattle.js_algebra.specs.View.{signed_view, kind_view, are_in_table};
ghost use Rattle.js_lines.specs.View.{line_view};

use crate::arrays::add_array_lines;
use crate::objects::add_object_lines;
use js_algebra::{Core, JsonKind, Signed};
use js_bounds::crossed;
use js_doc::Memory;
use js_expansion::Dead;
use js_kept_automaton::KeptAutomaton;
use js_lines::CertLine;
use js_row_lines::add_string_lines;
use std::alloc::Global;

/// Adds the lines of a saturated set: that its bounds cross, or what shows that no document of the kind meets it.
pub(crate) fn add_leaf_lines<D: Dead>(
    alloc: Global,
    core: &Core,
    dead: &D,
    kind: JsonKind,
    set: &[Signed],
    kept: &mut KeptAutomaton,
    lines: &mut Vec<CertLine>,
) -> Result<(), Memory>
    requires { are_in_table core.now.positions (map signed_view set.now) ≡ true }
    ensures { OnOk result (map line_view lines.new.items ≡ map line_view lines.old.items
        ++ leaf_lines (D.number_of dead.now) core.now.positions (kind_view kind) (map signed_view set.now)) }
{
    if is_crossed(core, kind, set) {
        lines.push(CertLine::Count)?;
        return Ok(());
    }
    add_open_lines(alloc, core, dead, kind, set, kept, lines)
}

/// Whether no count is within the bounds of the set.
fn is_crossed(core: &Core, kind: JsonKind, set: &[Signed]) -> bool
    requires { are_in_table core.now.positions (map signed_view set.now) ≡ true }
    ensures { (ls : List L.Line)
        → unless_crossed (V.crossed core.now.positions (map signed_view set.now) (kind_view kind)) ls
        ≡ cond result (L.Count ∷ []) ls }
{
    match crossed(core, kind, set) {
        Some(crossed) => crossed,
        None => false,
    }
}

/// Adds the lines of a set whose bounds don't cross. At null it has none: null meets it.
fn add_open_lines<D: Dead>(
    alloc: Global,
    core: &Core,
    dead: &D,
    kind: JsonKind,
    set: &[Signed],
    kept: &mut KeptAutomaton,
    lines: &mut Vec<CertLine>,
) -> Result<(), Memory>
    requires { are_in_table core.now.positions (map signed_view set.now) ≡ true }
    ensures { OnOk result (map line_view lines.new.items ≡ map line_view lines.old.items
        ++ open_lines (D.number_of dead.now) core.now.positions (kind_view kind) (map signed_view set.now)) }
{
    match kind {
        JsonKind::Null => Ok(()),
        JsonKind::Boolean => {
            lines.push(CertLine::Bool)?;
            Ok(())
        }
        JsonKind::Number => {
            lines.push(CertLine::Number)?;
            Ok(())
        }
        JsonKind::Text => add_string_lines(alloc, core, set, kept, lines),
        JsonKind::Array => add_array_lines(alloc, core, dead, set, lines),
        JsonKind::Object => add_object_lines(alloc, core, dead, set, kept, lines),
    }
}
