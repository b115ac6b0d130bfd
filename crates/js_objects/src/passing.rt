//! Which tests the names of each cell pass.
//!
//! A walk through plans looks up one test at all cells, and then another one, and there are many walks and few tests:
//! so what the cells say is read off once, cell by cell, and kept test by test.

ghost use Rattle.std.specs.Prelude.{◌≡◌, ◌≢◌, ◌+◌, ◌*◌, ◌<◌, ◌≤◌, ◌^◌, ℕ, length, get_or, true, false, IfOk};
ghost use Rattle.js_cells.specs.View.{cells_view};
ghost use Rattle.js_name_tests.specs.NameTests.{passes, are_within};
ghost use Rattle.js_objects.specs.Passing.{is_passed_at, ArePassed};

use crate::cell_tests::says;
use js_cells::Cells;
use js_doc::Memory;
use js_name_tests::NameTest;
use std::alloc::Global;

/// A row for each test, with a truth for each cell, and a last one for cells that aren't there.
#[derive(Drop)]
pub(crate) struct Passing {
    width: usize,
    truths: Vec<bool>,
}

impl Passing {
    /// What the cells say of all tests. It costs a look for each test and cell.
    pub(crate) fn new(alloc: Global, cells: &Cells, tests: &[NameTest]) -> Result<Passing, Memory>
        requires { are_within (length (cells_view cells.now).names) tests.now ≡ true }
        ensures { IfOk result (λ p. ArePassed (cells_view cells.now) tests.now p) }
    {
        let width = cells.len() as usize + 1;
        let mut passing = Passing::none(alloc, tests.len(), width)?;
        for (row, test) in tests.iter().enumerate() {
            passing.read(cells, *test, row);
        }
        Ok(passing)
    }

    /// So many rows of which nothing was read.
    fn none(alloc: Global, rows: usize, width: usize) -> Result<Passing, Memory>
        ensures wide { IfOk result (λ p. p.width ≡ width) }
        ensures long { IfOk result (λ p. length p.truths.items ≡ rows * width) }
    {
        let Some(count) = rows.checked_mul(width) else {
            return Err(Memory);
        };
        Ok(Passing {
            width,
            truths: vec![in alloc; false; count]?,
        })
    }

    /// Reads off into a row of which cells the names pass a test.
    fn read(&mut self, cells: &Cells, test: NameTest, row: usize)
        requires literal { test.literal < length (cells_view cells.now).names }
        requires few { self.old.width ≤ 2 ^ 32 }
        requires row { row * self.old.width + self.old.width ≤ length self.old.truths.items }
        ensures wide { self.new.width ≡ self.old.width }
        ensures long { length self.new.truths.items ≡ length self.old.truths.items }
        ensures told { (c : ℕ) → c < self.old.width
            → is_passed_at self.new row c ≡ passes (cells_view cells.now) c test }
        ensures others { (d c : ℕ) → c < self.old.width → d ≢ row
            → is_passed_at self.new d c ≡ is_passed_at self.old d c }
    {
        for column in 0..self.width {
            let is_passed = says(cells, column as u32, test.literal) == test.truth;
            self.truths[row * self.width + column] = is_passed;
        }
    }

    /// For each cell whether its names pass the test of that number, and a last truth for cells that aren't there.
    pub(crate) fn row(&self, test: usize) -> &[bool]
        requires { test * self.now.width + self.now.width ≤ length self.now.truths.items }
        ensures long { length result.now ≡ self.now.width }
        ensures truths { (c : ℕ) → c < self.now.width → get_or result.now c false ≡ is_passed_at self.now test c }
    {
        let start = test * self.width;
        &self.truths[start..start + self.width]
    }
}
