//! How many words of one length lead from each row to a row that is marked, length by length.
//!
//! A number is the sum of the numbers of the rows that its characters lead to, of words one letter shorter. All are cut
//! at a bound. A length costs a look at each row and run.

ghost use Rattle.std.specs.Prelude.{◌≡◌, ◌≤◌, ◌<◌, min, length, cond, get_or, false, IfOk};
ghost use Rattle.list_laws.proofs.Counts.{sum_over};
ghost use Rattle.word_states.specs.Classes.{characters};
ghost use Rattle.js_automaton.specs.AutomatonView.{atoms_of, rows_of};
ghost use Rattle.js_row_words.specs.Runs.{AreRuns, spelled};
ghost use Rattle.js_row_words.specs.Counts.{AreNumbers, to_row};

use crate::runs::Run;
use js_automaton::Automaton;
use js_doc::Memory;
use std::alloc::Global;
use std::marker::Model;

/// A number for each row.
#[derive(Drop)]
pub(crate) struct Numbers {
    of_rows: Vec<u32>,
}

impl Model for Numbers {
    ghost use Rattle.std.specs.Prelude.{ℕ, List};

    ghost Value = { List ℕ };

    ghost view = { λ n. n.of_rows.items };
}

impl Numbers {
    pub(crate) fn as_slice(&self) -> &[u32]
        ensures { result.now ≡ self.now }
    {
        &self.of_rows
    }

    /// Of words without a letter: one from each row that is marked.
    pub(crate) fn of_empty_word(
        alloc: Global,
        marks: &[bool],
        bound: u32,
    ) -> Result<Numbers, Memory>
        ensures { IfOk result (λ n. AreNumbers (length marks.now) bound (λ r. cond (get_or marks.now r false) 1 0) n) }
    {
        let mut of_rows = Vec::with_capacity(alloc, marks.len())?;
        for mark in marks {
            of_rows.push(if *mark { bound.min(1) } else { 0 })?;
        }
        Ok(Numbers { of_rows })
    }

    /// Of words with one letter more.
    pub(crate) fn longer(
        &self,
        alloc: Global,
        automaton: &Automaton,
        runs: &[Run],
        bound: u32,
    ) -> Result<Numbers, Memory>
        requires rows { length self.now ≡ length (rows_of automaton.now) }
        requires spelled { spelled runs.now ≡ characters }
        requires runs { AreRuns (atoms_of automaton.now) runs.now }
        ensures { IfOk result (λ n. AreNumbers (length (rows_of automaton.now)) bound
            (λ r. sum_over (λ c. get_or self.now (to_row (atoms_of automaton.now) (rows_of automaton.now) r c) 0)
            characters) n) }
    {
        let numbers = self.as_slice();
        let mut of_rows = Vec::with_capacity(alloc, automaton.rows() as usize)?;
        for row in 0..automaton.rows() {
            of_rows.push(sum(automaton, runs, numbers, row, bound))?;
        }
        Ok(Numbers { of_rows })
    }
}

/// The sum of the numbers of the rows to which characters lead from a row.
fn sum(automaton: &Automaton, runs: &[Run], numbers: &[u32], row: u32, bound: u32) -> u32
    requires row { row < length (rows_of automaton.now) }
    requires rows { length numbers.now ≡ length (rows_of automaton.now) }
    requires spelled { spelled runs.now ≡ characters }
    requires runs { AreRuns (atoms_of automaton.now) runs.now }
    ensures { result ≡ min bound (sum_over
        (λ c. get_or numbers.now (to_row (atoms_of automaton.now) (rows_of automaton.now) row c) 0) characters) }
{
    let mut sum = 0;
    for run in runs {
        let each = numbers[automaton.target(row, run.class) as usize];
        sum = (sum + each as u64 * run.count as u64).min(bound as u64);
    }
    sum as u32
}
