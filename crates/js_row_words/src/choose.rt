//! The letter by which a word goes on, by the numbers of words from each row.

ghost use Rattle.std.specs.Prelude.{◌≡◌, ◌≤◌, ◌<◌, ◌+◌, ℕ, true, length};
ghost use Rattle.patterns.specs.CharSet.{is_scalar};
ghost use Rattle.word_states.specs.Classes.{characters};
ghost use Rattle.js_automaton.specs.AutomatonView.{atoms_of, rows_of};
ghost use Rattle.js_row_words.specs.Runs.{AreRuns, spelled};
ghost use Rattle.js_row_words.specs.Counts.{Chooses};

use crate::runs::Run;
use js_automaton::Automaton;

/// A letter, the row that it leads to, and the word's number among those that go on from there.
#[derive(Clone, Copy)]
pub(crate) struct Choice {
    pub letter: char,
    pub row: u32,
    pub number: u32,
}

/// The first letter of word `number` from a row, where `numbers` says how many words go on from each row. It looks at
/// each run once.
pub(crate) fn choose(
    automaton: &Automaton,
    runs: &[Run],
    numbers: &[u32],
    row: u32,
    number: u32,
) -> Option<Choice>
    requires row { row < length (rows_of automaton.now) }
    requires numbers { length numbers.now ≡ length (rows_of automaton.now) }
    requires spelled { spelled runs.now ≡ characters }
    requires runs { AreRuns (atoms_of automaton.now) runs.now }
    ensures { Chooses (atoms_of automaton.now) (rows_of automaton.now) numbers.now row number result }
{
    let mut left = number;
    for run in runs {
        let next = automaton.target(row, run.class);
        let each = numbers[next as usize];
        let all = each as u64 * run.count as u64;
        if (left as u64) < all {
            return Some(Choice {
                letter: letter_at(run, left / each),
                row: next,
                number: left % each,
            });
        }
        left -= all as u32;
    }
    None
}

fn letter_at(run: &Run, place: u32) -> char
    requires place { place < run.now.count }
    requires run { (c : ℕ) → run.now.first ≤ c → c < run.now.first + run.now.count → is_scalar c ≡ true }
    ensures { result ≡ run.now.first + place }
{
    match char::from_u32(run.first + place) {
        Some(letter) => letter,
        None => 'a',
    }
}
