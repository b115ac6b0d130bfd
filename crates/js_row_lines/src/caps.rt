//! The lines of bounds of cells.

ghost use Rattle.std.specs.Prelude.{◌≡◌, ◌<◌, ◌++◌, ℕ, [], ◌∷◌, map, length, get_or, IfOk, OnOk};
ghost use Rattle.refutations.specs.ObjectLines.{cap_line, label_of};
ghost use Rattle.js_automaton.specs.AutomatonView.{rows_of};
ghost use Rattle.js_cells.specs.View.{cells_view};
ghost use Rattle.js_lines.specs.View.{line_view};

use js_cells::Cells;
use js_doc::Memory;
use js_lines::{CertLine, NumberList};
use std::alloc::Global;

/// Adds a line for each of these cells: for each row, how many words lead from it into the cell, cut at the most that
/// are counted.
pub fn add_cap_lines(
    alloc: Global,
    cells: &Cells,
    capped: &[u32],
    lines: &mut Vec<CertLine>,
) -> Result<(), Memory>
    requires { (i : ℕ) → i < length capped.now
        → get_or capped.now i 0 < length (cells_view cells.now).vectors }
    ensures { OnOk result (map line_view lines.new.items ≡ map line_view lines.old.items
        ++ map (cap_line cells.now.core.now.positions (cells_view cells.now)
        (rows_of cells.now.automaton.now)) capped.now) }
{
    for cell in capped {
        add_cap_line(alloc, cells, *cell, lines)?;
    }
    Ok(())
}

/// Adds the line of a cell.
fn add_cap_line(
    alloc: Global,
    cells: &Cells,
    cell: u32,
    lines: &mut Vec<CertLine>,
) -> Result<(), Memory>
    requires { cell < length (cells_view cells.now).vectors }
    ensures { OnOk result (map line_view lines.new.items ≡ map line_view lines.old.items
        ++ cap_line cells.now.core.now.positions (cells_view cells.now) (rows_of cells.now.automaton.now) cell ∷ []) }
{
    let labels = labels(alloc, cells, cell)?;
    lines.push(CertLine::Cap(cell, NumberList::from_vec(labels)))?;
    Ok(())
}

/// For each row, how many words lead from it into a cell.
fn labels(alloc: Global, cells: &Cells, cell: u32) -> Result<Vec<u32>, Memory>
    requires { cell < length (cells_view cells.now).vectors }
    ensures { IfOk result (λ labels. labels.items
        ≡ map (label_of cells.now.core.now.positions (cells_view cells.now) cell) (rows_of cells.now.automaton.now)) }
{
    cells.words_from(alloc, cell)
}
