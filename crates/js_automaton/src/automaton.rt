//! The automaton of a list of atoms, which leads from row to row by classes of characters.

ghost use Rattle.std.specs.Prelude.{◌<◌, ◌*◌, length, map};
ghost use Rattle.js_nfa.specs.View.{tree_of};
ghost use Rattle.js_automaton.specs.TuplesView.{atoms_of as atoms_in};
ghost use Rattle.js_automaton.specs.Told.{AreTold, AreTold-prop};
ghost use Rattle.js_automaton.specs.Building.{HaveRows};
ghost use Rattle.js_automaton.specs.RowsProp.{HaveRows-prop};

use crate::state::TupleState;
use crate::tuples::Tuples;
use indexmap::IndexSet;
use js_pattern::CharSet;
use js_pattern_positions::PositionSet;

/// The rows of a list of atoms: the states that words reach, in order of first mention, with row 0 that of the empty
/// word. Contracts see the atoms, by `atoms_of`, and the first word of each row, by `rows_of`.
///
/// `told` has a bit for each row and pattern, one row after another: whether the pattern matches in the row's words.
#[derive(Drop)]
pub struct Automaton {
    pub(crate) tuples: Tuples,
    pub(crate) states: IndexSet<TupleState>,
    pub(crate) targets: Vec<u32>,
    pub(crate) told: PositionSet,
    ghost found: { HaveRows (atoms_in tuples) states.keys targets.items } by { HaveRows-prop (atoms_in tuples) states.keys targets.items },
    ghost tells: { AreTold (atoms_in tuples) (map tree_of tuples.patterns.items) states.keys told.flags } by { AreTold-prop (atoms_in tuples) (map tree_of tuples.patterns.items) states.keys told.flags },
    ghost small: { length states.keys * length tuples.patterns.items < 4294967296 },
}

impl Automaton {
    ghost use Rattle.std.specs.Prelude.{◌≡◌, ◌<◌, ◌≤◌, ◌++◌, ◌∷◌, [], ℕ, List, length, get_or, true, false};
    ghost use Rattle.patterns.specs.CharSet.{has, is_scalar};
    ghost use Rattle.word_states.specs.Atom.{LengthMin, is_true};
    ghost use Rattle.word_states.specs.Classes.{class_count, class_of, is_in_class};
    ghost use Rattle.word_states.specs.Rows.{AreRows, row_of, signature_of, targets_of};
    ghost use Rattle.word_laws.specs.Laws.{IsWord};
    ghost use Rattle.js_automaton.specs.AutomatonView.{atoms_of, rows_of};

    /// The number of rows, which every word leads to one of.
    pub fn rows(&self) -> u32
        ensures count { result ≡ length (rows_of self.now) }
        ensures limit { result ≤ 65536 }
        ensures rows { AreRows (atoms_of self.now) (rows_of self.now) }
        ensures start { row_of (atoms_of self.now) (rows_of self.now) [] ≡ 0 }
        ensures words { (w : List ℕ) → IsWord w → row_of (atoms_of self.now) (rows_of self.now) w < result }
        ensures own { (r : ℕ) → r < result → IsWord (get_or (rows_of self.now) r [])
            × (row_of (atoms_of self.now) (rows_of self.now) (get_or (rows_of self.now) r []) ≡ r) }
    {
        self.states.len() as u32
    }

    /// The number of classes.
    pub fn classes(&self) -> u32
        ensures { result ≡ class_count (atoms_of self.now) }
    {
        self.tuples.classes()
    }

    /// The characters of a class.
    pub fn class_set(&self, class: u32) -> &CharSet
        requires { class < class_count (atoms_of self.now) }
        ensures { (c : ℕ) → has result.now c ≡ is_in_class (atoms_of self.now) class c }
    {
        self.tuples.class_set(class)
    }

    /// The row to which a row leads by a class.
    pub fn target(&self, row: u32, class: u32) -> u32
        requires row { row < length (rows_of self.now) }
        requires class { class < class_count (atoms_of self.now) }
        ensures target { result ≡ get_or (targets_of (atoms_of self.now) (rows_of self.now)
            (get_or (rows_of self.now) row [])) class 0 }
        ensures within { result < length (rows_of self.now) }
        ensures words { (w : List ℕ) (c : ℕ) → IsWord w → is_scalar c ≡ true
            → row ≡ row_of (atoms_of self.now) (rows_of self.now) w → class ≡ class_of (atoms_of self.now) c
            → result ≡ row_of (atoms_of self.now) (rows_of self.now) (w ++ c ∷ []) }
    {
        self.targets[row as usize * self.classes() as usize + class as usize]
    }

    /// Whether an atom is true of the words that lead to a row: of a pattern one bit, of a list of words one look in a
    /// table, of a length one comparison.
    pub fn signature(&self, row: u32, atom: usize) -> bool
        requires row { row < length (rows_of self.now) }
        requires atom { atom < length (atoms_of self.now) }
        ensures signature { result ≡ get_or (signature_of (atoms_of self.now)
            (get_or (rows_of self.now) row [])) atom false }
        ensures words { (w : List ℕ) → IsWord w → row ≡ row_of (atoms_of self.now) (rows_of self.now) w
            → result ≡ is_true (get_or (atoms_of self.now) atom (LengthMin 0)) w }
    {
        match self.tuples.place_of(atom) {
            Some(place) => {
                let first = row as usize * self.tuples.count_patterns();
                self.told.contains(first + place)
            }
            None => self.tuples.truth(&self.states[row as usize], atom),
        }
    }
}
