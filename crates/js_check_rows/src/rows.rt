//! The rows that a certificate states, line by line.

ghost use Rattle.std.specs.Prelude.{◌≡◌, ◌<◌, ◌≤◌, ◌*◌, ℕ, length, get_or};
ghost use Rattle.word_states.specs.Classes.{class_count};
ghost use Rattle.js_check_rows.specs.MentionsView.{atoms_in};
ghost use Rattle.js_check_rows.specs.Widths.{AreWidths};

use crate::fault::RowFault;
use crate::mentions::Mentions;
use crate::widths::widths_of;
use js_automaton::Tuples;
use js_nfa::Atom;
use std::alloc::Global;

/// Rows of atoms, of which more are stated with each line. Contracts see the atoms, by `atoms_of`, how many rows there
/// are to be, by `count_of`, and what was stated of them, by `table_of`.
///
/// It keeps a state for each row that was mentioned, the targets of those that were stated, one row after another, and
/// the number of characters of each class.
#[derive(Drop)]
pub struct Rows {
    mentions: Mentions,
    widths: Vec<u32>,
    stated: u32,
    targets: Vec<u32>,
    ghost wide: { AreWidths (atoms_in mentions) widths.items },
    ghost all: { length widths.items ≡ class_count (atoms_in mentions) },
    ghost known: { stated ≤ length mentions.list.items },
    ghost size: { length targets.items ≡ stated * class_count (atoms_in mentions) },
    ghost within: { (i : ℕ) → get_or targets.items i 0 < length mentions.list.items },
}

impl Rows {
    ghost use Rattle.std.specs.Prelude.{◌≡◌, ◌<◌, ◌≤◌, ◌+◌, [], map, length, get_or, nat_eq, true, IfOk, OnOk, OnErr, IfErr, Ok};
    ghost use Rattle.word_states.specs.Atom.{LengthMin, is_true};
    ghost use Rattle.word_states.specs.Classes.{class_count};
    ghost use Rattle.js_nfa.specs.AtomView.{atom_view};
    ghost use Rattle.verdicts.specs.Bounds.{width_of};
    ghost use Rattle.verdicts.specs.RowLines.{begin_table, row_taken, stated};
    ghost use Rattle.js_check_rows.specs.RowsView.{atoms_of, count_of, table_of};
    ghost use Rattle.js_check_rows.specs.RowTaking.{may_begin, BeginTells, RowTells};

    /// No row is stated, and the first is that of the empty word. It finds the classes of the atoms, as an automaton
    /// does.
    pub fn new(alloc: Global, atoms: &[Atom], count: u32) -> Result<Rows, RowFault>
        ensures atoms { IfOk result (λ rows. atoms_of rows ≡ map atom_view atoms.now) }
        ensures count { IfOk result (λ rows. count_of rows ≡ count) }
        ensures table { IfOk result (λ rows. table_of rows ≡ begin_table) }
        ensures right { OnOk result (may_begin (map atom_view atoms.now) count ≡ true) }
        ensures wrong { IfErr result (λ fault. BeginTells (map atom_view atoms.now) count fault) }
    {
        if count == 0 {
            return Err(RowFault::Start);
        }
        let tuples = Tuples::new(alloc, atoms)?;
        let widths = widths_of(alloc, &tuples)?;
        let mentions = Mentions::new(alloc, tuples, count)?;
        Ok(Rows {
            mentions,
            widths,
            stated: 0,
            targets: Vec::new(alloc),
        })
    }

    /// Takes the line of the next row: its targets, one for each class.
    ///
    /// It costs a step and a comparison of states for each class. After a fault the value is as before.
    pub fn take(&mut self, alloc: Global, targets: &[u32]) -> Result<(), RowFault>
        ensures atoms { atoms_of self.new ≡ atoms_of self.old }
        ensures count { count_of self.new ≡ count_of self.old }
        ensures right { OnOk result (row_taken (atoms_of self.old) (count_of self.old) (table_of self.old) targets.now
            ≡ Ok (table_of self.new)) }
        ensures wrong { IfErr result (λ fault. RowTells (atoms_of self.old) (count_of self.old) (table_of self.old)
            targets.now fault) }
        ensures same { OnErr result (table_of self.new ≡ table_of self.old) }
    {
        let mentioned = self.mentions.len();
        if self.stated >= mentioned {
            return Err(RowFault::Width);
        }
        if targets.len() != self.mentions.tuples.classes() as usize {
            return Err(RowFault::Width);
        }
        let before = self.targets.len();
        self.targets.extend_from_slice(targets)?;
        match self.mentions.follow(alloc, self.stated, targets) {
            Ok(()) => {
                self.stated += 1;
                Ok(())
            }
            Err(fault) => {
                self.targets.truncate(before);
                self.mentions.keep_first(mentioned);
                Err(fault)
            }
        }
    }

    /// How many rows there are to be.
    pub fn rows(&self) -> u32
        ensures { result ≡ count_of self.now }
    {
        self.mentions.count
    }

    /// How many were mentioned, among them those that were stated.
    pub fn mentioned(&self) -> u32
        ensures count { result ≡ length (table_of self.now).words }
        ensures some { 0 < result }
        ensures few { result ≤ count_of self.now }
    {
        self.mentions.len()
    }

    /// How many were stated.
    pub fn stated(&self) -> u32
        ensures count { result ≡ length (table_of self.now).targets }
        ensures known { result ≤ length (table_of self.now).words }
    {
        self.stated
    }

    /// Whether all rows were stated. Then no further one was mentioned.
    pub fn is_whole(&self) -> bool
        ensures whole { result ≡ nat_eq (length (table_of self.now).targets) (count_of self.now) }
        ensures words { result ≡ true → length (table_of self.now).words ≡ count_of self.now }
    {
        self.stated == self.mentions.count
    }

    /// The number of classes.
    pub fn classes(&self) -> u32
        ensures { result ≡ class_count (atoms_of self.now) }
    {
        self.mentions.tuples.classes()
    }

    /// The number of characters of a class.
    pub fn width(&self, class: u32) -> u32
        requires { class < class_count (atoms_of self.now) }
        ensures { result ≡ width_of (atoms_of self.now) class }
    {
        self.widths[class as usize]
    }

    /// The target of a row that was stated.
    pub fn target(&self, row: u32, class: u32) -> u32
        requires row { row < length (table_of self.now).targets }
        requires class { class < class_count (atoms_of self.now) }
        ensures target { result ≡ stated (table_of self.now) row class }
        ensures within { result < length (table_of self.now).words }
    {
        self.targets[row as usize * self.classes() as usize + class as usize]
    }

    /// Whether an atom is true of the words with the state of a row that was mentioned.
    pub fn truth(&self, row: u32, atom: usize) -> bool
        requires row { row < length (table_of self.now).words }
        requires atom { atom < length (atoms_of self.now) }
        ensures { result ≡ is_true (get_or (atoms_of self.now) atom (LengthMin 0))
            (get_or (table_of self.now).words row []) }
    {
        self.mentions
            .tuples
            .truth(&self.mentions.list[row as usize].state, atom)
    }
}
