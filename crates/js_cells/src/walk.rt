//! The row to which a word leads, character by character.
//!
//! The class of a character is found by a look at each class. Those of the first characters are kept, so that a word of
//! these costs one look in a table for each of its characters.

ghost use Rattle.std.specs.Prelude.{◌≡◌, IfOk, OnOk, chars};
ghost use Rattle.word_states.specs.Classes.{class_of};
ghost use Rattle.word_states.specs.Rows.{row_of};
ghost use Rattle.word_laws.specs.Laws.{IsWord};
ghost use Rattle.js_automaton.specs.AutomatonView.{atoms_of, rows_of};
ghost use Rattle.js_cells.specs.Truths.{AreFirst};

use js_automaton::Automaton;
use js_doc::{Memory, Str};
use std::alloc::Global;

/// The classes of the first 128 characters.
pub(crate) fn first_classes(alloc: Global, automaton: &Automaton) -> Result<Vec<u32>, Memory>
    ensures { IfOk result (λ v. AreFirst (atoms_of automaton.now) v.items) }
{
    let mut classes = Vec::with_capacity(alloc, 128)?;
    for code in 0u8..128 {
        classes.push(find_class(automaton, char::from(code)))?;
    }
    Ok(classes)
}

/// The class of a character, by a look at each class.
fn find_class(automaton: &Automaton, c: char) -> u32
    ensures { result ≡ class_of (atoms_of automaton.now) c }
{
    for class in 0..automaton.classes() {
        if automaton.class_set(class).contains(c) {
            return class;
        }
    }
    unreachable!()
}

/// The class of a character, which is in the table or found.
fn class_at(automaton: &Automaton, classes: &[u32], c: char) -> u32
    requires { AreFirst (atoms_of automaton.now) classes.now }
    ensures { result ≡ class_of (atoms_of automaton.now) c }
{
    match classes.get(c as usize) {
        Some(class) => *class,
        None => find_class(automaton, c),
    }
}

/// The row to which a word leads.
pub(crate) fn row_of_word(
    alloc: Global,
    automaton: &Automaton,
    classes: &[u32],
    word: &Str,
) -> Result<u32, Memory>
    requires { AreFirst (atoms_of automaton.now) classes.now }
    ensures word { OnOk result (IsWord word.now) }
    ensures row { IfOk result (λ r. r ≡ row_of (atoms_of automaton.now) (rows_of automaton.now) word.now) }
{
    let characters = characters(alloc, word.as_text())?;
    Ok(row_after(automaton, classes, characters.as_slice()))
}

fn characters(alloc: Global, text: &str) -> Result<Vec<char>, Memory>
    ensures { IfOk result (λ v. v.items ≡ chars text.now) }
{
    Ok(text.chars().collect(alloc)?)
}

fn row_after(automaton: &Automaton, classes: &[u32], word: &[char]) -> u32
    requires classes { AreFirst (atoms_of automaton.now) classes.now }
    requires word { IsWord word.now }
    ensures { result ≡ row_of (atoms_of automaton.now) (rows_of automaton.now) word.now }
{
    let mut row = 0;
    for c in word {
        row = automaton.target(row, class_at(automaton, classes, *c));
    }
    row
}
