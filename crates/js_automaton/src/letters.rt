//! The letters of lists of words, as a set.
//!
//! A set is made of its halves, so n letters cost about n log n steps a level.

ghost use Rattle.std.specs.Prelude.{◌≡◌, ◌<◌, ℕ, map, chars, nat_eq, length, get_or, IfOk};
ghost use Rattle.std.specs.List.{list_any};
ghost use Rattle.patterns.specs.CharSet.{has};
ghost use Rattle.js_nfa.specs.AtomView.{atom_view};
ghost use Rattle.js_automaton.specs.Letters.{is_letter, letters_of};
ghost use Rattle.js_automaton.specs.ClassView.{are_letters};

use js_doc::Str;
use js_nfa::Atom;
use js_pattern::{CharSet, Memory};
use std::alloc::Global;

/// The letters of the words of all atoms.
pub(crate) fn letters(alloc: Global, atoms: &[Atom]) -> Result<CharSet, Memory>
    ensures { IfOk result (λ set. (c : ℕ) → has set c ≡ are_letters atoms.now c) }
{
    match atoms.len() {
        0 => CharSet::from_slice(alloc, &[]),
        1 => letters_of(alloc, &atoms[0]),
        n => {
            let left = letters(alloc, &atoms[..n / 2])?;
            let right = letters(alloc, &atoms[n / 2..])?;
            left.union(&right)
        }
    }
}

fn letters_of(alloc: Global, atom: &Atom) -> Result<CharSet, Memory>
    ensures { IfOk result (λ set. (c : ℕ) → has set c ≡ is_letter (letters_of (atom_view atom.now)) c) }
{
    match atom {
        Atom::Match(_) | Atom::LengthMin(_) => CharSet::from_slice(alloc, &[]),
        Atom::Words(words) => letters_of_words(alloc, words.as_slice()),
    }
}

fn letters_of_words(alloc: Global, words: &[Str]) -> Result<CharSet, Memory>
    ensures { IfOk result (λ set. (c : ℕ) → has set c ≡ is_letter words.now c) }
{
    match words.len() {
        0 => CharSet::from_slice(alloc, &[]),
        1 => {
            let characters = characters(alloc, words[0].as_text())?;
            set_of(alloc, &characters)
        }
        n => {
            let left = letters_of_words(alloc, &words[..n / 2])?;
            let right = letters_of_words(alloc, &words[n / 2..])?;
            left.union(&right)
        }
    }
}

/// The characters of a text.
fn characters(alloc: Global, text: &str) -> Result<Vec<char>, Memory>
    ensures { IfOk result (λ characters. characters.items ≡ chars text.now) }
{
    Ok(text.chars().collect(alloc)?)
}

/// The set of these characters.
fn set_of(alloc: Global, characters: &[char]) -> Result<CharSet, Memory>
    ensures { IfOk result (λ set. (c : ℕ) → has set c ≡ list_any (nat_eq c) characters.now) }
{
    match characters.len() {
        0 => CharSet::from_slice(alloc, &[]),
        1 => one(alloc, characters[0]),
        n => {
            let left = set_of(alloc, &characters[..n / 2])?;
            let right = set_of(alloc, &characters[n / 2..])?;
            left.union(&right)
        }
    }
}

/// The set of one character.
fn one(alloc: Global, c: char) -> Result<CharSet, Memory>
    ensures { IfOk result (λ set. (d : ℕ) → has set d ≡ nat_eq d c) }
{
    let code = c as u32;
    CharSet::from_slice(alloc, &[(code, code)])
}
