//! For each atom the rows of whose words it is true.
//!
//! A list of words is true of the rows to which they lead, so it costs a walk for each word, whatever the number of
//! rows. A pattern or a length is tested at each row.

ghost use Rattle.std.specs.Prelude.{◌≡◌, ◌<◌, ℕ, [], map, get_or, length, IfOk};
ghost use Rattle.word_states.specs.Atom.{Words, LengthMin};
ghost use Rattle.js_nfa.specs.AtomView.{atom_view};
ghost use Rattle.js_automaton.specs.AutomatonView.{atoms_of, rows_of};
ghost use Rattle.js_said.specs.AtomNumbers.{is_true_at};
ghost use Rattle.js_cells.specs.Truths.{AreFirst, AreTruths, IsTruth};

use crate::walk::{first_classes, row_of_word};
use js_automaton::Automaton;
use js_doc::{Memory, Str};
use js_nfa::Atom;
use std::alloc::Global;
use std::marker::Model;

/// The numbers of rows.
#[derive(Drop)]
struct RowList {
    rows: Vec<u32>,
}

impl Model for RowList {
    ghost use Rattle.std.specs.Prelude.{ℕ, List};

    ghost Value = { List ℕ };

    ghost view = { λ l. l.rows.items };
}

/// For each atom the rows of whose words it is true, in any order.
#[derive(Drop)]
pub(crate) struct Truths {
    atoms: Vec<RowList>,
}

impl Model for Truths {
    ghost use Rattle.std.specs.Prelude.{ℕ, List};

    ghost Value = { List (List ℕ) };

    ghost view = { λ t. t.atoms.items };
}

impl Truths {
    /// Of the atoms of the automaton.
    pub(crate) fn new(
        alloc: Global,
        automaton: &Automaton,
        atoms: &[Atom],
    ) -> Result<Truths, Memory>
        requires { map atom_view atoms.now ≡ atoms_of automaton.now }
        ensures { IfOk result (λ t. AreTruths (atoms_of automaton.now) (rows_of automaton.now) t) }
    {
        let classes = first_classes(alloc, automaton)?;
        let mut lists = Vec::with_capacity(alloc, atoms.len())?;
        for (number, atom) in atoms.iter().enumerate() {
            lists.push(rows_of_atom(alloc, automaton, &classes, number, atom)?)?;
        }
        Ok(Truths { atoms: lists })
    }

    /// The rows of an atom.
    pub(crate) fn of(&self, atom: usize) -> &[u32]
        requires { atom < length self.now }
        ensures { result.now ≡ get_or self.now atom [] }
    {
        self.atoms[atom].rows.as_slice()
    }
}

fn rows_of_atom(
    alloc: Global,
    automaton: &Automaton,
    classes: &[u32],
    number: usize,
    atom: &Atom,
) -> Result<RowList, Memory>
    requires classes { AreFirst (atoms_of automaton.now) classes.now }
    requires number { number < length (atoms_of automaton.now) }
    requires atom { atom_view atom.now ≡ get_or (atoms_of automaton.now) number (LengthMin 0) }
    ensures { IfOk result (λ l. IsTruth (atoms_of automaton.now) (rows_of automaton.now) number l) }
{
    match atom {
        Atom::Words(words) => rows_of_words(alloc, automaton, classes, words.as_slice()),
        Atom::Match(_) | Atom::LengthMin(_) => rows_where(alloc, automaton, number),
    }
}

/// The rows to which words lead.
fn rows_of_words(
    alloc: Global,
    automaton: &Automaton,
    classes: &[u32],
    words: &[Str],
) -> Result<RowList, Memory>
    requires { AreFirst (atoms_of automaton.now) classes.now }
    ensures { IfOk result (λ l. (k : ℕ) → k < length (atoms_of automaton.now)
        → get_or (atoms_of automaton.now) k (LengthMin 0) ≡ Words words.now
        → IsTruth (atoms_of automaton.now) (rows_of automaton.now) k l) }
{
    let mut rows = Vec::with_capacity(alloc, words.len())?;
    for word in words {
        rows.push(row_of_word(alloc, automaton, classes, word)?)?;
    }
    Ok(RowList { rows })
}

/// The rows at which an atom is true.
fn rows_where(alloc: Global, automaton: &Automaton, atom: usize) -> Result<RowList, Memory>
    requires { atom < length (atoms_of automaton.now) }
    ensures { IfOk result (λ l. IsTruth (atoms_of automaton.now) (rows_of automaton.now) atom l) }
{
    let mut rows = Vec::new(alloc);
    for row in 0..automaton.rows() {
        if is_true(automaton, atom, row) {
            rows.push(row)?;
        }
    }
    Ok(RowList { rows })
}

/// Whether the atom of that number is true of the words of a row.
pub(crate) fn is_true(automaton: &Automaton, number: usize, row: u32) -> bool
    requires number { number < length (atoms_of automaton.now) }
    requires row { row < length (rows_of automaton.now) }
    ensures { result ≡ is_true_at (atoms_of automaton.now) (get_or (rows_of automaton.now) row []) number }
{
    automaton.signature(row, number)
}
