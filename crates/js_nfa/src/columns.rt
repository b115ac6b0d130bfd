//! Characters, each with the positions that have it, by which a state goes on without a walk for each of them.
//!
//! One walk says what may follow a state (`follow`). Of these positions a character takes those whose sets have it, in
//! a look at each word of 64.

ghost use Rattle.std.specs.Prelude.{◌≡◌, ◌<◌, ◌≤◌, ◌||◌, [], length, get_or, IfOk, IsTrue};
ghost use Rattle.word_states.specs.Position.{count_of};
ghost use Rattle.state_laws.specs.Flow.{flag_at};
ghost use Rattle.state_laws.specs.FollowSets.{and_each};
ghost use Rattle.js_pattern.specs.View.{view};
ghost use Rattle.js_pattern_positions.specs.Both.{some_both};
ghost use Rattle.js_nfa.specs.FollowSets.{set_at};

use crate::followers::{ends_of_each, having_each};
use js_doc::Memory;
use js_pattern::Re;
use js_pattern_positions::{Edges, PositionSet, tree_ends};
use std::alloc::Global;

/// For some characters the positions that have each, and the positions with which a match is done.
#[derive(Drop)]
pub(crate) struct Columns {
    characters: Vec<char>,
    /// for each of the characters the positions whose sets have it
    having: Vec<PositionSet>,
    /// the positions with which a match is done
    ends: PositionSet,
    /// whether a match is done with none
    done: bool,
    ghost as_many: { length having.items ≡ length characters.items },
}

impl Columns {
    ghost use Rattle.js_nfa.specs.Columns.{AreColumns};

    /// The columns of a tree, which take a walk for each character and one for each position.
    pub(crate) fn of(
        alloc: Global,
        tree: &Re,
        count: u32,
        characters: &[char],
    ) -> Result<Columns, Memory>
        requires counted { count ≡ count_of (view tree.now) }
        requires within { count ≤ 16384 }
        ensures { IfOk result (AreColumns (view tree.now)) }
    {
        let having = having_each(alloc, tree, count, characters)?;
        let ends = ends_of_each(alloc, tree, count)?;
        let none = PositionSet::with_room(alloc, count)?;
        let edges = Edges {
            first: false,
            last: false,
        };
        let done = tree_ends(tree, edges, &none);
        let characters = Vec::from_slice(alloc, characters)?;
        Ok(Columns {
            characters,
            having,
            ends,
            done,
        })
    }

    /// Whether the character has that place.
    pub(crate) fn has_at(&self, place: usize, character: char) -> bool
        ensures { IsTrue result → (place < length self.now.having.items)
            × (get_or self.now.characters.items place 0 ≡ character) }
    {
        place < self.characters.len() && self.characters[place] == character
    }

    /// Fills a set with those positions of another that have the character at a place, and answers whether a match
    /// ends with one of them, or with none.
    pub(crate) fn advance(
        &self,
        place: usize,
        follows: &PositionSet,
        reads: &mut PositionSet,
    ) -> bool
        requires place { place < length self.now.having.items }
        requires empty { reads.old.flags ≡ [] }
        requires room { length follows.now.flags ≤ reads.old.room }
        requires long { length follows.now.flags ≡ length (set_at self.now.having.items place) }
        ensures flags { reads.new.flags ≡ and_each follows.now.flags (set_at self.now.having.items place) }
        ensures done { result ≡ (self.now.done || some_both (flag_at reads.new.flags) (flag_at
            self.now.ends.flags) (length reads.new.flags)) }
    {
        reads.join(follows);
        reads.meet(&self.having[place]);
        self.done | reads.meets(&self.ends)
    }
}
