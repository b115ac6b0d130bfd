//! The cells of the names of a set, by rows that were stated.

ghost use Rattle.std.specs.Prelude.{◌≡◌, map, true, IfOk};
ghost use Rattle.cells.specs.Cells.{naming};
ghost use Rattle.finders.specs.Names.{atoms_of_names};
ghost use Rattle.js_algebra.specs.View.{signed_view, are_in_table};
ghost use Rattle.js_check_rows.specs.RowsView.{atoms_of};
ghost use Rattle.js_said.specs.Vectors.{vectors_in, row_vectors, row_places};
ghost use Rattle.js_check_objects.specs.Cells.{rows_of};

use crate::grouping::group;
use crate::name_cells::NameCells;
use indexmap::IndexSet;
use js_algebra::{Core, Signed};
use js_check_rows::Rows;
use js_doc::Memory;
use js_said::Taken;
use std::alloc::Global;

/// The cells, and for each row the number of its cell.
#[derive(Drop)]
pub(crate) struct StatedCells {
    pub cells: NameCells,
    pub places: Vec<u32>,
}

/// The cells of the names of a set, in order of their first rows. It costs for each row what the literals say of it.
pub(crate) fn stated_cells(
    alloc: Global,
    core: &Core,
    set: &[Signed],
    rows: &Rows,
) -> Result<StatedCells, Memory>
    requires in_table { are_in_table core.now.positions (map signed_view set.now) ≡ true }
    requires atoms { atoms_of rows.now ≡ atoms_of_names core.now.positions (map signed_view set.now) }
    ensures names { IfOk result (λ s. map signed_view s.cells.names.items
        ≡ naming core.now.positions (map signed_view set.now)) }
    ensures vectors { IfOk result (λ s. vectors_in s.cells.vectors.items
        ≡ row_vectors core.now.positions (map signed_view set.now) (rows_of rows.now)) }
    ensures places { IfOk result (λ s. s.places.items
        ≡ row_places core.now.positions (map signed_view set.now) (rows_of rows.now)) }
{
    // There are no more cells than rows, and these are counted with 32 bits.
    let _mentioned = rows.mentioned();
    let taken = Taken::of(alloc, core, set)?;
    let grouped = group(alloc, core, rows, taken.said.as_slice())?;
    let vectors = listed(alloc, grouped.vectors)?;
    Ok(StatedCells {
        cells: NameCells {
            names: taken.names,
            vectors,
        },
        places: grouped.cells,
    })
}

/// The vectors in order.
fn listed(alloc: Global, vectors: IndexSet<Vec<bool>>) -> Result<Vec<Vec<bool>>, Memory>
    ensures { IfOk result (λ list. vectors_in list.items ≡ vectors_in vectors.keys) }
{
    Ok(vectors.into_iter().collect(alloc)?)
}
