//! The first names of a cell, or of each.

ghost use Rattle.std.specs.Prelude.{◌≡◌, ◌<◌, ◌≤◌, ◌^◌, ℕ, [], map, length, take, get_or, true, Ok, IfOk};
ghost use Rattle.cells.specs.Cells.{Cells as NameCells};
ghost use Rattle.finders.specs.Names.{cells_of};
ghost use Rattle.js_algebra.specs.View.{signed_view, are_in_table};
ghost use Rattle.js_cells.specs.View.{cells_view};
ghost use Rattle.js_objects.specs.Steps.{IsOfNames, HasNeeded, cells_by};

use crate::names::name_automaton;
use js_algebra::{Core, Signed};
use js_automaton::Automaton;
use js_cells::Cells;
use js_doc::{Memory, StrList};
use js_kept_automaton::KeptAutomaton;
use js_tableau::Branch;
use std::alloc::Global;

/// The first names of a cell, in order. The branch has cells, so no limit is passed.
pub fn object_words(
    alloc: Global,
    core: &Core,
    branch: &Branch,
    cell: u32,
    count: u32,
) -> Result<StrList, Memory>
    requires in_table { are_in_table core.now.positions branch.now.set ≡ true }
    requires found { (C : NameCells) × (cells_of core.now.positions branch.now.set ≡ Ok C)
        × (cell < length C.vectors) × (count ≤ length (C.words cell)) }
    ensures words { IfOk result (λ words. (C : NameCells) → cells_of core.now.positions branch.now.set ≡ Ok C
        → words ≡ take count (C.words cell)) }
{
    let set = branch.set.as_slice();
    let mut kept = KeptAutomaton::new();
    match name_automaton(alloc, core, set, &mut kept) {
        Ok(automaton) => words_of_names(alloc, core, set, automaton, cell, count),
        Err(_) => Err(Memory),
    }
}

/// The first names of a cell of the automaton's rows.
fn words_of_names(
    alloc: Global,
    core: &Core,
    set: &[Signed],
    automaton: &Automaton,
    cell: u32,
    count: u32,
) -> Result<StrList, Memory>
    requires in_table { are_in_table core.now.positions (map signed_view set.now) ≡ true }
    requires automaton { IsOfNames core.now.positions (map signed_view set.now) automaton.now }
    requires cell { cell < length (cells_by core.now.positions (map signed_view set.now) automaton.now).vectors }
    requires count { count
        ≤ length ((cells_by core.now.positions (map signed_view set.now) automaton.now).words cell) }
    ensures { IfOk result (λ words. words
        ≡ take count ((cells_by core.now.positions (map signed_view set.now) automaton.now).words cell)) }
{
    let cells = Cells::new(alloc, core, set, automaton)?;
    cells.first_words(alloc, cell, count)
}

/// Of each cell as many first names as are needed of it, in order. The branch has cells, so no limit is passed.
///
/// The automaton of the names and its cells are made once for all.
pub fn object_words_by_cell(
    alloc: Global,
    core: &Core,
    branch: &Branch,
    needs: &[u64],
) -> Result<Vec<StrList>, Memory>
    requires in_table { are_in_table core.now.positions branch.now.set ≡ true }
    requires few { length needs.now ≤ 2 ^ 32 }
    requires found { (C : NameCells) × (cells_of core.now.positions branch.now.set ≡ Ok C)
        × HasNeeded C needs.now }
    ensures words { IfOk result (λ lists. (C : NameCells) → cells_of core.now.positions branch.now.set ≡ Ok C
        → (c : ℕ) → get_or lists.items c [] ≡ take (get_or needs.now c 0) (C.words c)) }
{
    let set = branch.set.as_slice();
    let mut kept = KeptAutomaton::new();
    match name_automaton(alloc, core, set, &mut kept) {
        Ok(automaton) => words_by_cell(alloc, core, set, automaton, needs),
        Err(_) => Err(Memory),
    }
}

/// The needed names of each cell of the automaton's rows.
fn words_by_cell(
    alloc: Global,
    core: &Core,
    set: &[Signed],
    automaton: &Automaton,
    needs: &[u64],
) -> Result<Vec<StrList>, Memory>
    requires in_table { are_in_table core.now.positions (map signed_view set.now) ≡ true }
    requires automaton { IsOfNames core.now.positions (map signed_view set.now) automaton.now }
    requires few { length needs.now ≤ 2 ^ 32 }
    requires needs { HasNeeded (cells_by core.now.positions (map signed_view set.now) automaton.now) needs.now }
    ensures { IfOk result (λ lists. (c : ℕ) → get_or lists.items c [] ≡ take (get_or needs.now c 0)
        ((cells_by core.now.positions (map signed_view set.now) automaton.now).words c)) }
{
    let cells = Cells::new(alloc, core, set, automaton)?;
    needed_words(alloc, &cells, needs)
}

/// The needed names of each cell.
fn needed_words(alloc: Global, cells: &Cells, needs: &[u64]) -> Result<Vec<StrList>, Memory>
    requires few { length needs.now ≤ 2 ^ 32 }
    requires needs { HasNeeded (cells_view cells.now) needs.now }
    ensures { IfOk result (λ lists. (c : ℕ) → get_or lists.items c []
        ≡ take (get_or needs.now c 0) ((cells_view cells.now).words c)) }
{
    let mut lists = Vec::with_capacity(alloc, needs.len())?;
    for cell in 0..needs.len() {
        match needs[cell] {
            0 => lists.push(StrList::from_vec(Vec::new(alloc)))?,
            need => lists.push(cells.first_words(alloc, cell as u32, need as u32)?)?,
        }
    }
    Ok(lists)
}
