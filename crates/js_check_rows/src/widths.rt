//! The number of characters of each class.

ghost use Rattle.std.specs.Prelude.{◌≡◌, length, IfOk};
ghost use Rattle.word_states.specs.Classes.{class_count};
ghost use Rattle.js_automaton.specs.TuplesView.{atoms_of};
ghost use Rattle.js_check_rows.specs.Widths.{AreWidths};

use js_automaton::Tuples;
use js_doc::Memory;
use std::alloc::Global;

/// The number of characters of each class.
pub(crate) fn widths_of(alloc: Global, tuples: &Tuples) -> Result<Vec<u32>, Memory>
    ensures length { IfOk result (λ widths. length widths.items ≡ class_count (atoms_of tuples.now)) }
    ensures widths { IfOk result (λ widths. AreWidths (atoms_of tuples.now) widths.items) }
{
    let mut widths = Vec::with_capacity(alloc, tuples.classes() as usize)?;
    for class in 0..tuples.classes() {
        widths.push(tuples.class_set(class).width())?;
    }
    Ok(widths)
}
