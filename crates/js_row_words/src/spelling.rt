//! The word of a row, spelled backwards by the steps that name rows.

ghost use Rattle.std.specs.Prelude.{◌≡◌, ◌<◌, ◌++◌, [], length, get_or, true, IfOk, reverse};
ghost use Rattle.std.specs.List.{list_all};
ghost use Rattle.patterns.specs.CharSet.{is_scalar};
ghost use Rattle.word_states.specs.Classes.{class_count, class_firsts};
ghost use Rattle.js_automaton.specs.AutomatonView.{atoms_of, rows_of};
ghost use Rattle.js_row_words.specs.Steps.{AreSteps};

use crate::row_steps::Step;
use js_automaton::Automaton;
use js_doc::{Memory, Str};
use std::alloc::Global;

/// The letters of a row's word, from the last to the first.
pub fn letters_of(
    alloc: Global,
    automaton: &Automaton,
    steps: &[Step],
    row: u32,
) -> Result<Vec<char>, Memory>
    requires row { row < length (rows_of automaton.now) }
    requires length { length steps.now ≡ length (rows_of automaton.now) }
    requires steps { AreSteps (atoms_of automaton.now) (rows_of automaton.now) steps.now
        (length (rows_of automaton.now)) }
    ensures { IfOk result (λ letters. reverse letters.items ≡ get_or (rows_of automaton.now) row []) }
{
    let mut letters = Vec::new(alloc);
    let mut at = row;
    while at != 0 {
        let step = steps[at as usize];
        letters.push(first_letter(automaton, step.class))?;
        at = step.row;
    }
    Ok(letters)
}

/// The first character of a class.
fn first_letter(automaton: &Automaton, class: u32) -> char
    requires { class < class_count (atoms_of automaton.now) }
    ensures { result ≡ get_or (class_firsts (atoms_of automaton.now)) class 0 }
{
    match automaton.class_set(class).first() {
        Some(letter) => letter,
        None => 'a',
    }
}

/// The letters from the last to the first, as a text.
pub fn spell(alloc: Global, letters: Vec<char>) -> Result<Str, Memory>
    requires { list_all is_scalar (reverse letters.items) ≡ true }
    ensures { IfOk result (λ s. s ≡ reverse letters.items) }
{
    let mut letters = letters;
    let mut text = String::with_capacity(alloc, letters.len())?;
    while let Some(letter) = letters.pop() {
        text.push(letter)?;
    }
    Ok(Str::from_string(text))
}
