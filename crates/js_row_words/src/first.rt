//! The first words that lead to rows that are marked.
//!
//! One word, by far the commonest, is that of the first row that is marked, spelled backwards by the steps that first
//! named rows. More are listed length by length: of each length the numbers of words from each row give the letters of
//! each word, one after another. So the rows times the length of the longest word have a number each, beside the words.

ghost use Rattle.std.specs.Prelude.{◌≡◌, ◌≤◌, ◌<◌, ℕ, [], length, take, get_or, true, false, IfOk};
ghost use Rattle.std.specs.Option.{MatchOption};
ghost use Rattle.word_states.specs.Classes.{characters};
ghost use Rattle.js_automaton.specs.AutomatonView.{atoms_of, rows_of};
ghost use Rattle.js_row_words.specs.RowWords.{words_from};
ghost use Rattle.js_row_words.specs.Runs.{AreRuns, spelled};
ghost use Rattle.js_row_words.specs.Counts.{AreNumbers, AreLengths, words_of_length};

use crate::numbers::Numbers;
use crate::row_steps::steps;
use crate::runs::{Run, all_runs};
use crate::spelling::{letters_of, spell};
use crate::words::add_words;
use js_automaton::Automaton;
use js_doc::{Memory, Str, StrList};
use std::alloc::Global;

/// The first words, in order, that lead to a row that is marked: by length, and then by the order of characters.
///
/// One word costs a look at each row and class. More cost a look at each row and run of characters for each length up
/// to the longest word's, and one at each run for each letter.
pub fn first_words(
    alloc: Global,
    automaton: &Automaton,
    marks: &[bool],
    count: u32,
) -> Result<StrList, Memory>
    requires marks { length marks.now ≡ length (rows_of automaton.now) }
    requires count { count ≤ length (words_from (atoms_of automaton.now) (rows_of automaton.now) marks.now 0) }
    ensures { IfOk result (λ words. words
        ≡ take count (words_from (atoms_of automaton.now) (rows_of automaton.now) marks.now 0)) }
{
    let words = match count {
        0 => Vec::new(alloc),
        1 => one_word(alloc, automaton, marks)?,
        _ => several_words(alloc, automaton, marks, count)?,
    };
    Ok(StrList::from_vec(words))
}

/// The first word.
fn one_word(alloc: Global, automaton: &Automaton, marks: &[bool]) -> Result<Vec<Str>, Memory>
    requires marks { length marks.now ≡ length (rows_of automaton.now) }
    requires some { 1 ≤ length (words_from (atoms_of automaton.now) (rows_of automaton.now) marks.now 0) }
    ensures { IfOk result (λ words. words.items
        ≡ take 1 (words_from (atoms_of automaton.now) (rows_of automaton.now) marks.now 0)) }
{
    match first_marked(automaton, marks) {
        Some(row) => {
            let word = word_of(alloc, automaton, row)?;
            Ok(vec![in alloc; word]?)
        }
        None => Ok(Vec::new(alloc)),
    }
}

/// The first row that is marked.
fn first_marked(automaton: &Automaton, marks: &[bool]) -> Option<u32>
    requires { length marks.now ≡ length (rows_of automaton.now) }
    ensures { MatchOption result
        ((j : ℕ) → j < length (rows_of automaton.now) → get_or marks.now j false ≡ false)
        (λ row. (row < length (rows_of automaton.now)) × (get_or marks.now row false ≡ true)
        × ((j : ℕ) → j < row → get_or marks.now j false ≡ false)) }
{
    for row in 0..automaton.rows() {
        if marks[row as usize] {
            return Some(row);
        }
    }
    None
}

/// The word of a row.
fn word_of(alloc: Global, automaton: &Automaton, row: u32) -> Result<Str, Memory>
    requires { row < length (rows_of automaton.now) }
    ensures { IfOk result (λ word. word ≡ get_or (rows_of automaton.now) row []) }
{
    let steps = steps(alloc, automaton)?;
    let letters = letters_of(alloc, automaton, &steps, row)?;
    spell(alloc, letters)
}

/// The first words, length by length.
fn several_words(
    alloc: Global,
    automaton: &Automaton,
    marks: &[bool],
    count: u32,
) -> Result<Vec<Str>, Memory>
    requires marks { length marks.now ≡ length (rows_of automaton.now) }
    requires count { count ≤ length (words_from (atoms_of automaton.now) (rows_of automaton.now) marks.now 0) }
    ensures { IfOk result (λ words. words.items
        ≡ take count (words_from (atoms_of automaton.now) (rows_of automaton.now) marks.now 0)) }
{
    let runs = all_runs(alloc, automaton)?;
    let mut lengths = Vec::new(alloc);
    let mut words = Vec::new(alloc);
    while words.len() < count as usize {
        let numbers = next_numbers(alloc, automaton, &runs, &lengths, marks, count)?;
        let room = (count - words.len() as u32).min(numbers.as_slice()[0]);
        add_words(alloc, automaton, &runs, &lengths, room, &mut words)?;
        lengths.push(numbers)?;
    }
    Ok(words)
}

/// The numbers of words with as many letters as there are lengths.
fn next_numbers(
    alloc: Global,
    automaton: &Automaton,
    runs: &[Run],
    lengths: &[Numbers],
    marks: &[bool],
    bound: u32,
) -> Result<Numbers, Memory>
    requires marks { length marks.now ≡ length (rows_of automaton.now) }
    requires spelled { spelled runs.now ≡ characters }
    requires runs { AreRuns (atoms_of automaton.now) runs.now }
    requires lengths { AreLengths (atoms_of automaton.now) (rows_of automaton.now) marks.now bound lengths.now }
    ensures { IfOk result (λ numbers. AreNumbers (length (rows_of automaton.now)) bound
        (words_of_length (atoms_of automaton.now) (rows_of automaton.now) marks.now (length lengths.now)) numbers) }
{
    match lengths.last() {
        Some(numbers) => numbers.longer(alloc, automaton, runs, bound),
        None => Numbers::of_empty_word(alloc, marks, bound),
    }
}
