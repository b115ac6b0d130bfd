//! Words by the numbers of words of each length.

ghost use Rattle.std.specs.Prelude.{◌≡◌, ◌<◌, ◌++◌, map, length, true, IfOk, OnOk};
ghost use Rattle.std.specs.List.{list_all, range_with_len};
ghost use Rattle.patterns.specs.CharSet.{is_scalar};
ghost use Rattle.js_automaton.specs.AutomatonView.{atoms_of, rows_of};
ghost use Rattle.js_row_words.specs.Counts.{IsTable, word_by};

use crate::choose::choose;
use crate::numbers::Numbers;
use crate::runs::Run;
use crate::spelling::spell;
use js_automaton::Automaton;
use js_doc::{Memory, Str};
use std::alloc::Global;

/// Adds the first `count` words that have as many letters as there are lengths.
pub(crate) fn add_words(
    alloc: Global,
    automaton: &Automaton,
    runs: &[Run],
    lengths: &[Numbers],
    count: u32,
    words: &mut Vec<Str>,
) -> Result<(), Memory>
    requires { IsTable (atoms_of automaton.now) (rows_of automaton.now) runs.now lengths.now }
    ensures { OnOk result (words.new.items ≡ words.old.items
        ++ map (word_by (atoms_of automaton.now) (rows_of automaton.now) lengths.now) (range_with_len 0 count)) }
{
    for number in 0..count {
        words.push(word(alloc, automaton, runs, lengths, number)?)?;
    }
    Ok(())
}

/// Word `number` among them.
fn word(
    alloc: Global,
    automaton: &Automaton,
    runs: &[Run],
    lengths: &[Numbers],
    number: u32,
) -> Result<Str, Memory>
    requires { IsTable (atoms_of automaton.now) (rows_of automaton.now) runs.now lengths.now }
    ensures { IfOk result (λ s. s ≡ word_by (atoms_of automaton.now) (rows_of automaton.now) lengths.now number) }
{
    let mut letters = letters_by(alloc, automaton, runs, lengths, number)?;
    letters.reverse();
    spell(alloc, letters)
}

/// Its letters: each is chosen by the numbers of words with so many letters as are left.
fn letters_by(
    alloc: Global,
    automaton: &Automaton,
    runs: &[Run],
    lengths: &[Numbers],
    number: u32,
) -> Result<Vec<char>, Memory>
    requires { IsTable (atoms_of automaton.now) (rows_of automaton.now) runs.now lengths.now }
    ensures letters { IfOk result (λ letters. letters.items
        ≡ word_by (atoms_of automaton.now) (rows_of automaton.now) lengths.now number) }
    ensures scalars { IfOk result (λ letters. list_all is_scalar letters.items ≡ true) }
{
    let mut letters = Vec::with_capacity(alloc, lengths.len())?;
    let mut row = 0;
    let mut number = number;
    let mut left = lengths.len();
    while left > 0 {
        left -= 1;
        match choose(automaton, runs, lengths[left].as_slice(), row, number) {
            Some(choice) => {
                letters.push(choice.letter)?;
                row = choice.row;
                number = choice.number;
            }
            None => return Ok(letters),
        }
    }
    Ok(letters)
}
