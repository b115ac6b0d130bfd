//! What is required of words: the atoms, and the truths that they are to have.

ghost use Rattle.std.specs.Prelude.{◌≡◌, true};
ghost use Rattle.js_asked.specs.Wishes.{are_within};

use indexmap::IndexSet;
use js_nfa::Atom;

/// The truth that an atom is to have, by its number.
#[derive(Clone, Copy)]
pub struct Wish {
    pub atom: usize,
    pub truth: bool,
}

/// What is required of words: the atoms, each once, and the truths that they are to have.
#[derive(Drop)]
pub struct Asked {
    pub(crate) atoms: IndexSet<Atom>,
    pub(crate) wishes: Vec<Wish>,
    ghost within: { are_within atoms.keys wishes.items ≡ true },
}
