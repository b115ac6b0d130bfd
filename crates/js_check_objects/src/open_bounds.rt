//! Bounds of cells that are still to be stated.

ghost use Rattle.std.specs.Prelude.{◌≡◌, ◌+◌, ◌≤◌, ℕ, map, length, get_or, true, OnOk};
ghost use Rattle.cells.specs.Cells.{naming};
ghost use Rattle.finders.specs.Names.{atoms_of_names};
ghost use Rattle.verdicts.specs.Bounds.{bounds_of};
ghost use Rattle.js_algebra.specs.View.{signed_view, are_in_table};
ghost use Rattle.js_check_rows.specs.RowsView.{atoms_of, count_of, table_of};
ghost use Rattle.js_check_rows.specs.Labels.{are_kept, AreBounds};
ghost use Rattle.js_said.specs.AtomCode.{same_atoms-prop};
ghost use Rattle.js_said.specs.Vectors.{vectors_in, row_vectors, row_places};
ghost use Rattle.js_check_objects.specs.Cells.{rows_of};
ghost use Rattle.js_check_objects.specs.Bounds.{bounds_in, cap_at, past, with_cap};

use crate::name_cells::NameCells;
use crate::open_rows::OpenRows;
use crate::stated_bound::StatedBound;
use crate::stated_cells::stated_cells;
use js_algebra::{Core, Signed};
use js_check_rows::Rows;
use js_doc::Memory;
use std::alloc::Global;

/// The cells of the rows of a set, with the bounds that were stated, and how many are left. `caps` has the bound of
/// each cell, up to the last one of which a bound was stated.
#[derive(Drop)]
pub(crate) struct OpenBounds<'a> {
    pub core: &'a Core,
    pub set: Vec<Signed>,
    pub rows: Rows,
    pub cells: NameCells,
    pub places: Vec<u32>,
    pub left: u32,
    pub stated: Vec<StatedBound>,
    pub caps: Vec<Option<u32>>,
    ghost in_table: { are_in_table core.now.positions (map signed_view set.items) ≡ true },
    ghost atoms: { atoms_of rows ≡ atoms_of_names core.now.positions (map signed_view set.items) } by { same_atoms-prop _ _ },
    ghost whole: { length (table_of rows).targets ≡ count_of rows },
    ghost named: { map signed_view cells.names.items ≡ naming core.now.positions (map signed_view set.items) },
    ghost grouped: { vectors_in cells.vectors.items
        ≡ row_vectors core.now.positions (map signed_view set.items) (rows_of rows) },
    ghost placed: { places.items ≡ row_places core.now.positions (map signed_view set.items) (rows_of rows) },
    ghost capped: { (c : ℕ) → cap_at caps.items c ≡ bounds_of (bounds_in stated.items) c },
    ghost ended: { length caps.items ≡ past (bounds_in stated.items) },
}

impl<'a> OpenBounds<'a> {
    ghost use Rattle.std.specs.Prelude.{◌≡◌, ◌-◌, [], ◌∷◌, map, length, nat_eq, true, IfOk};
    ghost use Rattle.finders.specs.Names.{atoms_of_names};
    ghost use Rattle.verdicts.specs.RowLines.{stated};
    ghost use Rattle.verdicts.specs.Bounds.{is_right};
    ghost use Rattle.verdicts.specs.Leaves.{comes_after, table_cells, bound_right};
    ghost use Rattle.js_algebra.specs.View.{signed_view};
    ghost use Rattle.js_check_rows.specs.RowsView.{atoms_of, count_of, table_of};
    ghost use Rattle.js_check_objects.specs.Bounds.{bounds_in};

    /// The cells of whole rows, of which no bound is stated.
    pub(crate) fn new(alloc: Global, from: OpenRows<'a>) -> Result<OpenBounds<'a>, Memory>
        requires { length (table_of from.rows).targets ≡ count_of from.rows }
        ensures table { IfOk result (λ made. made.core.now.positions ≡ from.entry.core.now.positions) }
        ensures set { IfOk result (λ made. map signed_view made.set.items ≡ map signed_view from.entry.set.items) }
        ensures rows { IfOk result (λ made. table_of made.rows ≡ table_of from.entry.rows) }
        ensures left { IfOk result (λ made. made.left ≡ from.entry.bounds) }
        ensures stated { IfOk result (λ made. bounds_in made.stated.items ≡ []) }
    {
        let made = stated_cells(alloc, from.core, from.set.as_slice(), &from.rows)?;
        Ok(OpenBounds {
            core: from.core,
            set: from.set,
            rows: from.rows,
            cells: made.cells,
            places: made.places,
            left: from.bounds,
            stated: Vec::new(alloc),
            caps: Vec::new(alloc),
        })
    }

    /// Whether the bound is of a cell that comes after those before, and the labels are enough.
    pub(crate) fn is_right(&self, alloc: Global, cell: u32, labels: &[u32]) -> Result<bool, Memory>
        ensures { IfOk result (λ right. right ≡ bound_right self.now.core.now.positions
            (map signed_view self.now.set.items) (table_of self.now.rows) (bounds_in self.now.stated.items)
            (cell, labels.now)) }
    {
        if cell >= self.cells.len() {
            return Ok(false);
        }
        if (cell as usize) < self.caps.len() {
            return Ok(false);
        }
        self.are_right(alloc, cell, labels)
    }

    /// Whether the labels are enough for a cell.
    fn are_right(&self, alloc: Global, cell: u32, labels: &[u32]) -> Result<bool, Memory>
        ensures { IfOk result (λ right. right ≡ is_right self.now.core.now.positions
            (atoms_of_names self.now.core.now.positions (map signed_view self.now.set.items))
            (table_of self.now.rows).words (stated (table_of self.now.rows))
            (table_cells self.now.core.now.positions (map signed_view self.now.set.items) (table_of self.now.rows))
            (cell, labels.now)) }
    {
        let marks = self.marks(alloc, cell)?;
        Ok(are_enough(&self.rows, labels, marks.as_slice()))
    }

    /// The rows of a cell.
    fn marks(&self, alloc: Global, cell: u32) -> Result<Vec<bool>, Memory>
        ensures { IfOk result (λ marks. marks.items ≡ map (λ c. nat_eq c cell) self.now.places.items) }
    {
        Ok(self.places.iter().map(|c| *c == cell).collect(alloc)?)
    }

    /// Takes one more stated bound, that of the next cell.
    pub(crate) fn state(
        self,
        alloc: Global,
        cell: u32,
        labels: &[u32],
    ) -> Result<OpenBounds<'a>, Memory>
        requires { comes_after (bounds_in self.stated.items) cell ≡ true }
        ensures table { IfOk result (λ made. made.core.now.positions ≡ self.entry.core.now.positions) }
        ensures set { IfOk result (λ made. map signed_view made.set.items ≡ map signed_view self.entry.set.items) }
        ensures rows { IfOk result (λ made. table_of made.rows ≡ table_of self.entry.rows) }
        ensures left { IfOk result (λ made. made.left ≡ self.entry.left - 1) }
        ensures stated { IfOk result (λ made. bounds_in made.stated.items
            ≡ (cell, labels.now) ∷ bounds_in self.entry.stated.items) }
    {
        let OpenBounds {
            core,
            set,
            rows,
            cells,
            places,
            left,
            mut stated,
            mut caps,
        } = self;
        put_cap(&mut caps, cell, first_of(labels))?;
        stated.push(StatedBound {
            cell,
            labels: labels.to_vec(alloc)?,
        })?;
        Ok(OpenBounds {
            core,
            set,
            rows,
            cells,
            places,
            left: left.saturating_sub(1),
            stated,
            caps,
        })
    }
}

/// Whether the labels of rows are enough for the rows that are marked.
fn are_enough(rows: &Rows, labels: &[u32], marks: &[bool]) -> bool
    requires { length (table_of rows.now).targets ≡ count_of rows.now }
    ensures kept { result ≡ are_kept (atoms_of rows.now) (table_of rows.now) marks.now labels.now }
    ensures rule { AreBounds (atoms_of rows.now) (table_of rows.now) marks.now labels.now }
{
    match rows.capacity(labels, marks) {
        Ok(_) => true,
        Err(_) => false,
    }
}

/// The label of the first row.
fn first_of(labels: &[u32]) -> u32
    ensures { result ≡ get_or labels.now 0 0 }
{
    match labels.first() {
        Some(label) => *label,
        None => 0,
    }
}

/// Puts the bound of a cell behind those of cells before it.
fn put_cap(caps: &mut Vec<Option<u32>>, cell: u32, cap: u32) -> Result<(), Memory>
    requires { length caps.old.items ≤ cell }
    ensures length { OnOk result (length caps.new.items ≡ cell + 1) }
    ensures caps { OnOk result ((c : ℕ) → cap_at caps.new.items c ≡ with_cap cell cap (cap_at caps.old.items) c) }
{
    while caps.len() < cell as usize {
        caps.push(None)?;
    }
    caps.push(Some(cap))?;
    Ok(())
}
