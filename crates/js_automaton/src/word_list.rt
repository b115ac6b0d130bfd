//! Lists of words.

use crate::trie::Trie;
use indexmap::IndexSet;
use js_doc::{Memory, Str};
use std::alloc::Global;
use std::marker::Model;

/// A word, by characters.
#[derive(Drop)]
pub(crate) struct Word {
    characters: Vec<char>,
}

impl Model for Word {
    ghost use Rattle.std.specs.Prelude.{ℕ, List};

    ghost Value = { List ℕ };

    ghost view = { λ w. w.characters.items };
}

/// A list of words.
#[derive(Drop)]
pub(crate) struct WordList {
    words: Vec<Word>,
}

impl Model for WordList {
    ghost use Rattle.std.specs.Prelude.{ℕ, List};

    ghost Value = { List (List ℕ) };

    ghost view = { λ l. l.words.items };
}

impl Word {
    ghost use Rattle.std.specs.Prelude.{◌≡◌, Some, IfOk, OnOk, chars};
    ghost use Rattle.js_automaton.specs.Trie.{walk, with_word};

    fn from_text(alloc: Global, text: &str) -> Result<Word, Memory>
        ensures { IfOk result (λ w. w ≡ chars text.now) }
    {
        let characters = text.chars().collect(alloc)?;
        Ok(Word { characters })
    }

    fn add_to(&self, trie: &mut Trie) -> Result<(), Memory>
        ensures { OnOk result (trie.new.edges.keys ≡ with_word trie.old.edges.keys 0 self.now) }
    {
        trie.add(&self.characters)
    }

    fn node_in(&self, trie: &Trie) -> Option<usize>
        ensures { result ≡ walk trie.now.edges.keys (Some 0) self.now }
    {
        trie.node_of(&self.characters)
    }
}

impl WordList {
    ghost use Rattle.std.specs.Prelude.{◌≡◌, ◌||◌, ◌&&◌, ℕ, Some, nat_eq, IfOk, OnOk};
    ghost use Rattle.std.specs.List.{list_any};
    ghost use Rattle.js_automaton.specs.Trie.{same_edge, same_node, walk, with_words};

    pub(crate) fn from_words(alloc: Global, words: &[Str]) -> Result<WordList, Memory>
        ensures { IfOk result (λ l. l ≡ words.now) }
    {
        let mut list = Vec::with_capacity(alloc, words.len())?;
        for word in words {
            list.push(Word::from_text(alloc, word.as_text())?)?;
        }
        Ok(WordList { words: list })
    }

    /// Adds the beginnings of the words.
    pub(crate) fn add_to(&self, trie: &mut Trie) -> Result<(), Memory>
        ensures { OnOk result (trie.new.edges.keys ≡ with_words trie.old.edges.keys self.now) }
    {
        for word in &self.words {
            word.add_to(trie)?;
        }
        Ok(())
    }

    /// Adds the nodes to which the words lead, each with that place.
    pub(crate) fn add_ends(
        &self,
        trie: &Trie,
        ends: &mut IndexSet<(usize, usize)>,
        place: usize,
    ) -> Result<(), Memory>
        ensures { OnOk result ((n k : ℕ) → list_any (same_edge (n, k)) ends.new.keys
            ≡ (list_any (same_edge (n, k)) ends.old.keys || (nat_eq k place
            && list_any (λ u. same_node (walk trie.now.edges.keys (Some 0) u) (Some n)) self.now))) }
    {
        for word in &self.words {
            if let Some(node) = word.node_in(trie) {
                ends.insert((node, place))?;
            }
        }
        Ok(())
    }
}
