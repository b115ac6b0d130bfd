//! What literals say of the cells of names.

ghost use Rattle.std.specs.Prelude.{◌≡◌, ◌<◌, ◌≤◌, ℕ, min, not, map, flat_map, true, length, filter, get_or, IfOk};
ghost use Rattle.std.specs.List.{range_with_len};
ghost use Rattle.documents.specs.Tests.{some};
ghost use Rattle.js_cells.specs.View.{cells_view};
ghost use Rattle.js_name_tests.specs.NameTests.{says_at, passes, asks, are_within, values_within};

use js_algebra::{Signed, SignedList};
use js_cells::Cells;
use js_doc::Memory;
use js_name_tests::{NameTest, ValueTest};
use std::alloc::Global;

/// What the literal of that number says of the names of a cell; false where there is no such cell.
pub(crate) fn says(cells: &Cells, cell: u32, literal: usize) -> bool
    requires { literal < length (cells_view cells.now).names }
    ensures { result ≡ says_at (cells_view cells.now) cell literal }
{
    cell < cells.len() && cells.truth(cell, literal)
}

/// Whether the names of a cell pass one of the tests.
fn is_barred(cells: &Cells, bars: &[NameTest], cell: u32) -> bool
    requires { are_within (length (cells_view cells.now).names) bars.now ≡ true }
    ensures { result ≡ some (passes (cells_view cells.now) cell) bars.now }
{
    for bar in bars {
        if says(cells, cell, bar.literal) == bar.truth {
            return true;
        }
    }
    false
}

/// The cells of which no name passes a test, in order.
pub(crate) fn allowed(alloc: Global, cells: &Cells, bars: &[NameTest]) -> Result<Vec<u32>, Memory>
    requires { are_within (length (cells_view cells.now).names) bars.now ≡ true }
    ensures { IfOk result (λ v. v.items ≡ filter (λ c. not (some (passes (cells_view cells.now) c) bars.now))
        (range_with_len 0 (length (cells_view cells.now).vectors))) }
{
    let mut allowed = Vec::new(alloc);
    for cell in 0..cells.len() {
        if !is_barred(cells, bars, cell) {
            allowed.push(cell)?;
        }
    }
    Ok(allowed)
}

/// How many names each cell has, cut at 65,537.
pub(crate) fn counts(alloc: Global, cells: &Cells) -> Result<Vec<u32>, Memory>
    ensures length { IfOk result (λ v. length v.items ≡ length (cells_view cells.now).vectors) }
    ensures counts { IfOk result (λ v. (c : ℕ) → c < length (cells_view cells.now).vectors
        → get_or v.items c 0 ≡ min 65537 (length ((cells_view cells.now).words c))) }
{
    let mut counts = Vec::with_capacity(alloc, cells.len() as usize)?;
    for cell in 0..cells.len() {
        counts.push(cells.capacity(alloc, cell)?)?;
    }
    Ok(counts)
}

/// What is required of the value of each name of a cell.
fn asked_at(
    alloc: Global,
    cells: &Cells,
    values: &[ValueTest],
    cell: u32,
) -> Result<SignedList, Memory>
    requires { values_within (length (cells_view cells.now).names) values.now ≡ true }
    ensures { IfOk result (λ l. l ≡ flat_map (asks (cells_view cells.now) cell) values.now) }
{
    let mut asked = Vec::new(alloc);
    for test in values {
        if says(cells, cell, test.literal) {
            asked.push(Signed::plus(test.value))?;
        }
    }
    Ok(SignedList::from_vec(asked))
}

/// What is required of the values of the names of each cell. It costs a look for each value and cell.
pub(crate) fn asked(
    alloc: Global,
    cells: &Cells,
    values: &[ValueTest],
) -> Result<Vec<SignedList>, Memory>
    requires { values_within (length (cells_view cells.now).names) values.now ≡ true }
    ensures { IfOk result (λ v. v.items ≡ map (λ c. flat_map (asks (cells_view cells.now) c) values.now)
        (range_with_len 0 (length (cells_view cells.now).vectors))) }
{
    let mut asked = Vec::with_capacity(alloc, cells.len() as usize)?;
    for cell in 0..cells.len() {
        asked.push(asked_at(alloc, cells, values, cell)?)?;
    }
    Ok(asked)
}
