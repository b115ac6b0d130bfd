//! The beginnings of listed words, each with a number.
//!
//! A word is taken on by an edge for each of its characters, which is found by hashing. What several words begin with,
//! of one list or of several, is one node. It costs a hash for each character, and some 40 bytes for each node.

ghost use Rattle.std.specs.Prelude.{◌≡◌, ◌+◌, ◌<◌, Some, OnOk};
ghost use Rattle.js_automaton.specs.Trie.{child, child_of, walk, with_word};

use indexmap::IndexSet;
use js_doc::Memory;
use std::alloc::Global;

/// Edges, each from a node by a character. The edge at place i leads to node i + 1, and node 0 is the empty word.
#[derive(Drop)]
pub(crate) struct Trie {
    pub(crate) edges: IndexSet<(usize, char)>,
}

impl Trie {
    ghost use Rattle.std.specs.Prelude.{[]};

    /// The empty word alone.
    pub(crate) fn new(alloc: Global) -> Trie
        ensures { result.edges.keys ≡ [] }
    {
        Trie {
            edges: IndexSet::new(alloc),
        }
    }

    /// Adds the beginnings of a word.
    pub(crate) fn add(&mut self, word: &[char]) -> Result<(), Memory>
        ensures { OnOk result (self.new.edges.keys ≡ with_word self.old.edges.keys 0 word.now) }
    {
        let mut node = 0;
        for c in word {
            let (place, _) = self.edges.insert_full((node, *c))?;
            node = node_after(place, self.edges.len());
        }
        Ok(())
    }

    /// The node to which a word leads.
    pub(crate) fn node_of(&self, word: &[char]) -> Option<usize>
        ensures { result ≡ walk self.now.edges.keys (Some 0) word.now }
    {
        let mut node = Some(0);
        for c in word {
            node = self.child_of(node, *c);
        }
        node
    }

    /// The node with one more character.
    pub(crate) fn child_of(&self, node: Option<usize>, c: char) -> Option<usize>
        ensures { result ≡ child_of self.now.edges.keys node c }
    {
        match node {
            Some(node) => self.child(node, c),
            None => None,
        }
    }

    fn child(&self, node: usize, c: char) -> Option<usize>
        ensures { result ≡ child self.now.edges.keys node c }
    {
        match self.edges.get_index_of(&(node, c)) {
            Some(place) => Some(node_after(place, self.edges.len())),
            None => None,
        }
    }
}

/// The node to which the edge at a place leads, which is one of so many edges.
fn node_after(place: usize, edges: usize) -> usize
    requires { place < edges }
    ensures { result ≡ place + 1 }
{
    place + 1
}
