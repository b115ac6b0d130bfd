//! How many words lead from each row to rows that are marked.
//!
//! Labels of rows are raised from below, to what the labels of their targets require, until a pass writes nothing. Only
//! rows from which a marked row is reached are looked at, and those from which words go on for ever among them have the
//! most at once. So the count for one listed word costs the rows of its beginnings, and not all rows.

ghost use Rattle.std.specs.Prelude.{◌≡◌, ◌+◌, ℕ, length, map, min, cond, IfOk};
ghost use Rattle.js_automaton.specs.AutomatonView as automata;
ghost use Rattle.js_row_words.specs.Labels.{AreWidths, AreWidths-prop};
ghost use Rattle.js_row_words.specs.Edges.{AreSources, AreSources-prop};

use crate::endless::keep_endless;
use crate::reached::Reached;
use crate::sources::{Sources, find_sources};
use js_automaton::Automaton;
use js_doc::Memory;
use std::alloc::Global;

/// Where the numbers of words are cut.
pub const MOST_WORDS: u32 = 65_537;

/// An automaton whose words are counted. Contracts see its atoms and its rows, by `atoms_of` and `rows_of`.
///
/// It keeps the number of characters of each class, and the edges that lead to each row.
#[derive(Drop)]
pub struct WordCounter<'a> {
    automaton: &'a Automaton,
    widths: Vec<u32>,
    sources: Sources,
    ghost wide: { AreWidths (automata.atoms_of automaton.now)
        widths.items } by { AreWidths-prop (automata.atoms_of automaton.now) widths.items },
    ghost led: { AreSources (automata.atoms_of automaton.now) (automata.rows_of automaton.now)
        sources.last.items sources.before.items } by { AreSources-prop (automata.atoms_of automaton.now)
            (automata.rows_of automaton.now) sources.last.items sources.before.items },
}

impl<'a> WordCounter<'a> {
    ghost use Rattle.std.specs.Prelude.{◌≡◌, ◌<◌, ℕ, length, get_or, min, true, false, IfOk};
    ghost use Rattle.std.specs.List.{sum};
    ghost use Rattle.js_automaton.specs.AutomatonView as automata;
    ghost use Rattle.js_row_words.specs.CounterView.{atoms_of, rows_of};
    ghost use Rattle.js_row_words.specs.Labels.{asked_of, AreCut, IsSettled, HaveWords};
    ghost use Rattle.js_row_words.specs.RowWords.{words_from};

    /// Costs one pass over the rows and classes of the automaton.
    pub fn new(alloc: Global, automaton: &'a Automaton) -> Result<WordCounter<'a>, Memory>
        ensures atoms { IfOk result (λ c. atoms_of c ≡ automata.atoms_of automaton.now) }
        ensures rows { IfOk result (λ c. rows_of c ≡ automata.rows_of automaton.now) }
    {
        let widths = widths_of(alloc, automaton)?;
        let sources = find_sources(alloc, automaton)?;
        Ok(WordCounter {
            automaton,
            widths,
            sources,
        })
    }

    /// For each row, how many words lead from it to a row that is marked, cut at 65,537.
    ///
    /// Costs the rows, and then the classes of the rows from which a marked row is reached, as often as labels rise.
    pub fn count(&self, alloc: Global, marks: &[bool]) -> Result<Vec<u32>, Memory>
        requires marks { length marks.now ≡ length (rows_of self.now) }
        ensures length { IfOk result (λ numbers. length numbers.items ≡ length (rows_of self.now)) }
        ensures numbers { IfOk result (λ numbers. (r : ℕ) → r < length (rows_of self.now)
            → get_or numbers.items r 0
            ≡ min 65537 (length (words_from (atoms_of self.now) (rows_of self.now) marks.now r))) }
    {
        let reached = Reached::find(alloc, self.automaton, &self.sources, marks)?;
        let mut endless = Vec::from_slice(alloc, &reached.seen)?;
        keep_endless(self.automaton, &reached.list, &mut endless);
        let mut labels = first_labels(alloc, &endless)?;
        self.settle(marks, &reached.list, &mut labels);
        Ok(labels)
    }

    /// Raises labels of listed rows until none rises.
    fn settle(&self, marks: &[bool], list: &[u32], labels: &mut [u32])
        requires marks { length marks.now ≡ length (rows_of self.now) }
        requires list { (i : ℕ) → i < length list.now → get_or list.now i 0 < length (rows_of self.now) }
        requires size { length labels.old ≡ length (rows_of self.now) }
        requires cut { AreCut labels.old }
        ensures size { length labels.new ≡ length labels.old }
        ensures cut { AreCut labels.new }
        ensures words { HaveWords (atoms_of self.now) (rows_of self.now) marks.now labels.old
            → HaveWords (atoms_of self.now) (rows_of self.now) marks.now labels.new }
        ensures others { (r : ℕ) → ((i : ℕ) → i < length list.now → get_or list.now i 0 ≡ r → ⊥)
            → get_or labels.new r 0 ≡ get_or labels.old r 0 }
        ensures settled { (i : ℕ) → i < length list.now
            → IsSettled (atoms_of self.now) (rows_of self.now) marks.now labels.new (get_or list.now i 0) }
    {
        let mut rising = true;
        while rising {
            rising = self.sweep(marks, list, labels);
        }
    }

    /// Raises labels of listed rows, and says whether one rose.
    fn sweep(&self, marks: &[bool], list: &[u32], labels: &mut [u32]) -> bool
        requires marks { length marks.now ≡ length (rows_of self.now) }
        requires list { (i : ℕ) → i < length list.now → get_or list.now i 0 < length (rows_of self.now) }
        requires size { length labels.old ≡ length (rows_of self.now) }
        requires cut { AreCut labels.old }
        ensures size { length labels.new ≡ length labels.old }
        ensures cut { AreCut labels.new }
        ensures rose { result ≡ true → sum labels.old < sum labels.new }
        ensures same { result ≡ false → labels.new ≡ labels.old }
        ensures words { HaveWords (atoms_of self.now) (rows_of self.now) marks.now labels.old
            → HaveWords (atoms_of self.now) (rows_of self.now) marks.now labels.new }
        ensures others { (r : ℕ) → ((i : ℕ) → i < length list.now → get_or list.now i 0 ≡ r → ⊥)
            → get_or labels.new r 0 ≡ get_or labels.old r 0 }
        ensures settled { result ≡ false → (i : ℕ) → i < length list.now
            → IsSettled (atoms_of self.now) (rows_of self.now) marks.now labels.old (get_or list.now i 0) }
    {
        let mut rose = false;
        for i in 0..list.len() {
            if self.raise(marks, list[i], labels) {
                rose = true;
            }
        }
        rose
    }

    /// Raises the label of a row to what is required of it, and says whether it rose.
    fn raise(&self, marks: &[bool], row: u32, labels: &mut [u32]) -> bool
        requires marks { length marks.now ≡ length (rows_of self.now) }
        requires row { row < length (rows_of self.now) }
        requires size { length labels.old ≡ length (rows_of self.now) }
        requires cut { AreCut labels.old }
        ensures size { length labels.new ≡ length labels.old }
        ensures cut { AreCut labels.new }
        ensures rose { result ≡ true → sum labels.old < sum labels.new }
        ensures same { result ≡ false → labels.new ≡ labels.old }
        ensures words { HaveWords (atoms_of self.now) (rows_of self.now) marks.now labels.old
            → HaveWords (atoms_of self.now) (rows_of self.now) marks.now labels.new }
        ensures others { (r : ℕ) → (row ≡ r → ⊥) → get_or labels.new r 0 ≡ get_or labels.old r 0 }
        ensures settled { result ≡ false
            → IsSettled (atoms_of self.now) (rows_of self.now) marks.now labels.old row }
    {
        let label = labels[row as usize];
        if label == MOST_WORDS {
            return false;
        }
        let asked = self.asked(marks, row, labels);
        let rises = label < asked;
        if rises {
            labels[row as usize] = asked;
        }
        rises
    }

    /// What is required of the label of a row, cut.
    fn asked(&self, marks: &[bool], row: u32, labels: &[u32]) -> u32
        requires marks { length marks.now ≡ length (rows_of self.now) }
        requires row { row < length (rows_of self.now) }
        requires size { length labels.now ≡ length (rows_of self.now) }
        ensures { result ≡ min 65537 (asked_of (atoms_of self.now) (rows_of self.now) marks.now labels.now row) }
    {
        let mut asked: u64 = if marks[row as usize] { 1 } else { 0 };
        for class in 0..self.automaton.classes() {
            let target = self.automaton.target(row, class);
            let more = self.widths[class as usize] as u64 * labels[target as usize] as u64;
            asked = (asked + more).min(MOST_WORDS as u64);
        }
        asked as u32
    }
}

/// The number of characters of each class.
fn widths_of(alloc: Global, automaton: &Automaton) -> Result<Vec<u32>, Memory>
    ensures { IfOk result (λ widths. AreWidths (automata.atoms_of automaton.now) widths.items) }
{
    let mut widths = Vec::with_capacity(alloc, automaton.classes() as usize)?;
    for class in 0..automaton.classes() {
        widths.push(automaton.class_set(class).width())?;
    }
    Ok(widths)
}

/// The most of each row from which words go on for ever, and 0 of others.
fn first_labels(alloc: Global, endless: &[bool]) -> Result<Vec<u32>, Memory>
    ensures { IfOk result (λ labels. labels.items ≡ map (λ b. cond b 65537 0) endless.now) }
{
    Ok(
        endless
            .iter()
            .map(|is_endless| if *is_endless { MOST_WORDS } else { 0 })
            .collect(alloc)?,
    )
}
