//! What literals say of the cells of names.

ghost use Rattle.std.specs.Prelude.{◌≡◌, ◌<◌, not, true, false, length, filter, get_or, IfOk};
ghost use Rattle.std.specs.List.{range_with_len};
ghost use Rattle.documents.specs.Tests.{some};
ghost use Rattle.js_check_objects.specs.Cells.{cells_in};
ghost use Rattle.js_name_tests.specs.NameTests.{says_at, passes, are_within};

use crate::name_cells::NameCells;
use js_doc::Memory;
use js_name_tests::NameTest;
use std::alloc::Global;

/// What the literal of that number says of the names of a cell; false where there is no such cell.
pub(crate) fn says(cells: &NameCells, cell: u32, literal: usize) -> bool
    requires { literal < length (cells_in cells.now).names }
    ensures { result ≡ says_at (cells_in cells.now) cell literal }
{
    match cells.vectors.get(cell as usize) {
        Some(vector) => bit_at(vector, literal),
        None => false,
    }
}

/// What a vector has at a number; false where it has nothing there.
fn bit_at(vector: &[bool], literal: usize) -> bool
    ensures { result ≡ get_or vector.now literal false }
{
    match vector.get(literal) {
        Some(bit) => *bit,
        None => false,
    }
}

/// Whether the names of a cell pass one of the tests.
fn is_barred(cells: &NameCells, bars: &[NameTest], cell: u32) -> bool
    requires { are_within (length (cells_in cells.now).names) bars.now ≡ true }
    ensures { result ≡ some (passes (cells_in cells.now) cell) bars.now }
{
    for bar in bars {
        if says(cells, cell, bar.literal) == bar.truth {
            return true;
        }
    }
    false
}

/// The cells of which no name passes a test, in order.
pub(crate) fn allowed(
    alloc: Global,
    cells: &NameCells,
    bars: &[NameTest],
) -> Result<Vec<u32>, Memory>
    requires { are_within (length (cells_in cells.now).names) bars.now ≡ true }
    ensures { IfOk result (λ v. v.items ≡ filter (λ c. not (some (passes (cells_in cells.now) c) bars.now))
        (range_with_len 0 (length (cells_in cells.now).vectors))) }
{
    let mut allowed = Vec::new(alloc);
    for cell in 0..cells.len() {
        if !is_barred(cells, bars, cell) {
            allowed.push(cell)?;
        }
    }
    Ok(allowed)
}
