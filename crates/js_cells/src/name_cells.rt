//! The cells of the names of a set.

ghost use Rattle.std.specs.Prelude.{◌≡◌, map};
ghost use Rattle.cells.specs.Cells.{naming};
ghost use Rattle.js_algebra.specs.View.{signed_view};
ghost use Rattle.js_automaton.specs.AutomatonView.{atoms_of, rows_of};
ghost use Rattle.js_row_words.specs.CounterView as counted;
ghost use Rattle.js_said.specs.Vectors.{row_vectors, row_places};
ghost use Rattle.js_cells.specs.Groups.{ShareVectors};
ghost use Rattle.js_said.specs.AtomCode.{same_atoms-prop};

use crate::flags::Flags;
use crate::grouping::group;
use crate::row_length::word_length;
use indexmap::IndexSet;
use js_algebra::{Core, Signed};
use js_automaton::Automaton;
use js_doc::{Memory, StrList};
use js_row_words::WordCounter;
use js_said::Taken;
use std::alloc::Global;

/// The cells of the names of a set. Contracts see them by `cells_view`, with the cell of a name by the row to which it
/// leads.
///
/// `vectors` has for each cell what the literals say of its names, and `places` for each row the number of its cell.
#[derive(Drop)]
pub struct Cells<'a> {
    core: &'a Core,
    set: &'a [Signed],
    automaton: &'a Automaton,
    counter: WordCounter<'a>,
    names: Vec<Signed>,
    vectors: IndexSet<Flags>,
    places: Vec<u32>,
    ghost atoms: { counted.atoms_of counter ≡ atoms_of automaton.now } by { same_atoms-prop _ _ },
    ghost rows: { counted.rows_of counter ≡ rows_of automaton.now },
    ghost named: { map signed_view names.items ≡ naming core.now.positions (map signed_view set.now) },
    ghost grouped: { vectors.keys
        ≡ row_vectors core.now.positions (map signed_view set.now) (rows_of automaton.now) },
    ghost placed: { places.items ≡ row_places core.now.positions (map signed_view set.now) (rows_of automaton.now) },
    ghost same: { ShareVectors core.now.positions (map signed_view set.now) (atoms_of automaton.now) },
}

impl<'a> Cells<'a> {
    ghost use Rattle.std.specs.Prelude.{◌≡◌, ◌<◌, ◌≤◌, ℕ, List, [], ◌∷◌, ◌++◌, map, length, get_or, min, take, true, nat_eq, IfOk};
    ghost use Rattle.std.specs.Option.{MatchOption};
    ghost use Rattle.word_states.specs.Classes.{characters};
    ghost use Rattle.word_states.specs.Rows.{row_of};
    ghost use Rattle.word_laws.specs.Laws.{IsWord};
    ghost use Rattle.goals.specs.Signed as G;
    ghost use Rattle.alternatives.specs.Limit.{most_words};
    ghost use Rattle.finders.specs.WordsFound.{far, words_found};
    ghost use Rattle.finders.specs.Names.{atoms_of_names};
    ghost use Rattle.cells.specs.Cells.{cells, cell_of, truth};
    ghost use Rattle.cell_laws.specs.RightCells.{IsOf};
    ghost use Rattle.js_algebra.specs.View.{signed_view, are_in_table};
    ghost use Rattle.js_automaton.specs.AutomatonView.{atoms_of, rows_of};
    ghost use Rattle.js_cells.specs.View.{cells_view};
    ghost use Rattle.js_cells.specs.Counting.{IsCount};

    /// The cells of the names of a set, by the automaton of its atoms. It costs a walk for each listed word, a look at
    /// each row for each pattern and each length, for each literal the rows of its atoms, and a bit of memory for each
    /// row and literal.
    pub fn new(
        alloc: Global,
        core: &'a Core,
        set: &'a [Signed],
        automaton: &'a Automaton,
    ) -> Result<Cells<'a>, Memory>
        requires in_table { are_in_table core.now.positions (map signed_view set.now) ≡ true }
        requires atoms { atoms_of automaton.now ≡ atoms_of_names core.now.positions (map signed_view set.now) }
        ensures cells { IfOk result (λ c. cells_view c ≡ cells characters far most_words core.now.positions
            (map signed_view set.now) (rows_of automaton.now)) }
        ensures table { IfOk result (λ c. c.core.now.positions ≡ core.now.positions) }
        ensures rows { IfOk result (λ c. rows_of c.automaton.now ≡ rows_of automaton.now) }
    {
        let taken = Taken::of(alloc, core, set)?;
        let atoms = taken.atoms.as_slice();
        let grouped = group(alloc, core, automaton, atoms, taken.said.as_slice())?;
        Ok(Cells {
            core,
            set,
            automaton,
            counter: WordCounter::new(alloc, automaton)?,
            names: taken.names,
            vectors: grouped.vectors,
            places: grouped.cells,
        })
    }

    /// How many cells there are.
    pub fn len(&self) -> u32
        ensures { result ≡ length (cells_view self.now).vectors }
    {
        self.vectors.len() as u32
    }

    /// The literals that say something of names, in order.
    pub fn names(&self) -> &[Signed]
        ensures { map signed_view result.now ≡ (cells_view self.now).names }
    {
        self.names.as_slice()
    }

    /// The cell of the words that lead to a row.
    pub fn cell_of(&self, row: u32) -> u32
        requires { row < length (rows_of self.now.automaton.now) }
        ensures row { result ≡ cell_of self.now.core.now.positions (cells_view self.now)
            (get_or (rows_of self.now.automaton.now) row []) }
        ensures words { (w : List ℕ) → IsWord w
            → row_of (atoms_of self.now.automaton.now) (rows_of self.now.automaton.now) w ≡ row
            → cell_of self.now.core.now.positions (cells_view self.now) w ≡ result }
        ensures within { result < length (cells_view self.now).vectors }
    {
        self.places[row as usize]
    }

    /// What the literal of that number among `names` says of the names of a cell.
    pub fn truth(&self, cell: u32, literal: usize) -> bool
        requires cell { cell < length (cells_view self.now).vectors }
        requires literal { literal < length (cells_view self.now).names }
        ensures { result ≡ truth (cells_view self.now) cell
            (get_or (cells_view self.now).names literal (G.Plus 0)) }
    {
        self.vectors.as_slice()[cell as usize].get(literal)
    }

    /// For each row, how many words lead from it into a cell, cut at 65,537.
    pub fn words_from(&self, alloc: Global, cell: u32) -> Result<Vec<u32>, Memory>
        requires { cell < length (cells_view self.now).vectors }
        ensures length { IfOk result (λ numbers. length numbers.items ≡ length (rows_of self.now.automaton.now)) }
        ensures numbers { IfOk result (λ numbers. (r : ℕ) → r < length (rows_of self.now.automaton.now)
            → get_or numbers.items r 0 ≡ min 65537 (length (words_found characters far
            (λ w. nat_eq (cell_of self.now.core.now.positions (cells_view self.now)
            (get_or (rows_of self.now.automaton.now) r [] ++ w)) cell)))) }

        // From each row as many different words lead to names of the cell, and where the number isn't cut no more.
        ensures exact { IfOk result (λ numbers. (r : ℕ) → r < length (rows_of self.now.automaton.now)
            → IsCount self.now.core.now.positions (cells_view self.now) cell
            (get_or (rows_of self.now.automaton.now) r []) (get_or numbers.items r 0)) }
    {
        let marks = self.marks(alloc, cell)?;
        self.counter.count(alloc, &marks)
    }

    /// How many names a cell has, cut at 65,537.
    pub fn capacity(&self, alloc: Global, cell: u32) -> Result<u32, Memory>
        requires { cell < length (cells_view self.now).vectors }
        ensures number { IfOk result (λ n. n ≡ min 65537 (length ((cells_view self.now).words cell))) }

        // There are as many different names of the cell, and where the number isn't cut no more.
        ensures exact { IfOk result (λ n.
            IsCount self.now.core.now.positions (cells_view self.now) cell [] n) }
    {
        // There is a first row, which is that of the empty word.
        let _rows = self.automaton.rows();
        let numbers = self.words_from(alloc, cell)?;
        Ok(numbers[0])
    }

    /// How many characters the first name of a cell has; no name of it is shorter. It costs the rows before the first
    /// of the cell, with their classes, and takes no memory.
    pub fn least(&self, cell: u32) -> u32
        requires { cell < length (cells_view self.now).vectors }
        ensures first { map length (take 1 ((cells_view self.now).words cell)) ≡ result ∷ [] }
        ensures least { (w : List ℕ) → IsOf self.now.core.now.positions (cells_view self.now) cell w
            → result ≤ length w }
    {
        match self.first_row(cell) {
            Some(row) => word_length(self.automaton, row),
            None => 0,
        }
    }

    /// The first names of a cell, in order.
    pub fn first_words(&self, alloc: Global, cell: u32, count: u32) -> Result<StrList, Memory>
        requires cell { cell < length (cells_view self.now).vectors }
        requires count { count ≤ length ((cells_view self.now).words cell) }
        ensures { IfOk result (λ words. words ≡ take count ((cells_view self.now).words cell)) }
    {
        let marks = self.marks(alloc, cell)?;
        js_row_words::first_words(alloc, self.automaton, &marks, count)
    }

    /// The first row of a cell.
    fn first_row(&self, cell: u32) -> Option<u32>
        ensures { MatchOption result
            ((r : ℕ) → r < length (rows_of self.now.automaton.now)
            → cell_of self.now.core.now.positions (cells_view self.now) (get_or (rows_of self.now.automaton.now) r [])
            ≡ cell → ⊥)
            (λ row. (row < length (rows_of self.now.automaton.now))
            × (cell_of self.now.core.now.positions (cells_view self.now)
            (get_or (rows_of self.now.automaton.now) row []) ≡ cell)
            × ((r : ℕ) → r < row
            → cell_of self.now.core.now.positions (cells_view self.now) (get_or (rows_of self.now.automaton.now) r [])
            ≡ cell → ⊥)) }
    {
        for row in 0..self.automaton.rows() {
            if self.cell_of(row) == cell {
                return Some(row);
            }
        }
        None
    }

    /// The rows of a cell.
    fn marks(&self, alloc: Global, cell: u32) -> Result<Vec<bool>, Memory>
        ensures { IfOk result (λ marks. marks.items ≡ map (λ c. nat_eq c cell) self.now.places.items) }
    {
        Ok(self.places.iter().map(|c| *c == cell).collect(alloc)?)
    }
}
