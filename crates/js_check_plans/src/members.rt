//! The cells of the members of a plan, with how many members are in each.

ghost use Rattle.std.specs.Prelude.{◌≡◌, ◌≤◌, ◌++◌, ◌∷◌, [], take, length, IfOk, OnOk};
ghost use Rattle.frames.specs.Fillers.{times};
ghost use Rattle.js_check_plans.specs.Counts.{count_in, Puts, AreCounts};

use js_doc::Memory;
use std::alloc::Global;
use std::collections::BTreeMap;

/// The cells of the members, in order; how many are in a cell is counted as they come and go.
#[derive(Drop)]
pub(crate) struct Members {
    pub cells: Vec<u32>,
    /// By cell, of those that had a member.
    counts: BTreeMap<u32, usize>,
    ghost counted: { AreCounts counts cells.items },
}

fn count_in(counts: &BTreeMap<u32, usize>, cell: u32) -> usize
    ensures { result ≡ count_in counts.now cell }
{
    match counts.get(&cell) {
        Some(count) => *count,
        None => 0,
    }
}

fn put(counts: &mut BTreeMap<u32, usize>, cell: u32, count: usize) -> Result<(), Memory>
    ensures { OnOk result (Puts counts.old counts.new cell count) }
{
    counts.insert(cell, count)?;
    Ok(())
}

impl Members {
    pub(crate) fn new(alloc: Global) -> Members
        ensures { result.cells.items ≡ [] }
    {
        Members {
            cells: Vec::new(alloc),
            counts: BTreeMap::new(alloc),
        }
    }

    /// How many members are in the cell.
    pub(crate) fn count(&self, cell: u32) -> usize
        ensures { result ≡ times cell self.now.cells.items }
    {
        count_in(&self.counts, cell)
    }

    /// One more member.
    pub(crate) fn with(self, cell: u32) -> Result<Members, Memory>
        ensures { IfOk result (λ m. m.cells.items ≡ self.cells.items ++ cell ∷ []) }
    {
        let Members {
            mut cells,
            mut counts,
        } = self;
        let count = count_in(&counts, cell);
        put(&mut counts, cell, count.saturating_add(1))?;
        cells.push(cell)?;
        Ok(Members { cells, counts })
    }

    /// So many members, the first ones.
    pub(crate) fn cut(self, count: usize) -> Result<Members, Memory>
        requires { count ≤ length self.cells.items }
        ensures { IfOk result (λ m. m.cells.items ≡ take count self.cells.items) }
    {
        let Members {
            mut cells,
            mut counts,
        } = self;
        for i in count..cells.len() {
            let cell = cells[i];
            let more = count_in(&counts, cell);
            put(&mut counts, cell, more.saturating_sub(1))?;
        }
        cells.truncate(count);
        Ok(Members { cells, counts })
    }
}
