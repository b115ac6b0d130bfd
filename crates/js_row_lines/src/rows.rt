//! The lines of rows.

ghost use Rattle.std.specs.Prelude.{◌≡◌, ◌<◌, ◌++◌, [], ◌∷◌, map, length, get_or, IfOk, OnOk};
ghost use Rattle.word_states.specs.Rows.{targets_of};
ghost use Rattle.certificate_lines.specs.Line as L;
ghost use Rattle.refutations.specs.StatedRows.{row_lines};
ghost use Rattle.js_automaton.specs.AutomatonView.{atoms_of, rows_of};
ghost use Rattle.js_lines.specs.View.{line_view};

use js_automaton::Automaton;
use js_doc::Memory;
use js_lines::{CertLine, NumberList};
use std::alloc::Global;

/// Adds a line for each row: the rows to which it leads, class by class.
pub fn add_row_lines(
    alloc: Global,
    automaton: &Automaton,
    lines: &mut Vec<CertLine>,
) -> Result<(), Memory>
    ensures { OnOk result (map line_view lines.new.items ≡ map line_view lines.old.items
        ++ row_lines (atoms_of automaton.now) (rows_of automaton.now)) }
{
    for row in 0..automaton.rows() {
        add_row_line(alloc, automaton, row, lines)?;
    }
    Ok(())
}

/// Adds the line of a row.
fn add_row_line(
    alloc: Global,
    automaton: &Automaton,
    row: u32,
    lines: &mut Vec<CertLine>,
) -> Result<(), Memory>
    requires { row < length (rows_of automaton.now) }
    ensures { OnOk result (map line_view lines.new.items ≡ map line_view lines.old.items
        ++ L.Row (targets_of (atoms_of automaton.now) (rows_of automaton.now)
        (get_or (rows_of automaton.now) row [])) ∷ []) }
{
    let targets = targets(alloc, automaton, row)?;
    lines.push(CertLine::Row(NumberList::from_vec(targets)))?;
    Ok(())
}

/// The rows to which a row leads, class by class.
fn targets(alloc: Global, automaton: &Automaton, row: u32) -> Result<Vec<u32>, Memory>
    requires { row < length (rows_of automaton.now) }
    ensures { IfOk result (λ targets. targets.items ≡ targets_of (atoms_of automaton.now) (rows_of automaton.now)
        (get_or (rows_of automaton.now) row [])) }
{
    let mut targets = Vec::with_capacity(alloc, automaton.classes() as usize)?;
    for class in 0..automaton.classes() {
        targets.push(automaton.target(row, class))?;
    }
    Ok(targets)
}
