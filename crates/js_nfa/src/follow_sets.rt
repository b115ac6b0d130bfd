//! The follow sets of positions, by which a state goes on without a walk over the tree.
//!
//! What may follow all positions of a state is the union of what may follow each, and of these the next character takes
//! those whose sets have it. So a follow set for each position, and for each character of ASCII the positions that have
//! it, say what a walk would say. Follow sets are joined four at a time, so that a step looks at the words of one set
//! for each four positions.

ghost use Rattle.std.specs.Prelude.{◌≡◌, ◌/◌, ◌<◌, ◌≤◌, true, false, length, IfOk};
ghost use Rattle.patterns.specs.Tree.{Tree};
ghost use Rattle.word_states.specs.Position.{count_of};
ghost use Rattle.state_laws.specs.Flow.{flag_at, ends_here, reads_next};
ghost use Rattle.js_pattern.specs.View.{view};
ghost use Rattle.js_nfa.specs.FollowSets.{HaveLength, HaveAtMost, by_fours};

use crate::followers::{Followers, follow_set, follow_sets_of_each, having, shown};
use crate::fours::fours;
use js_doc::Memory;
use js_pattern::Re;
use js_pattern_positions::{Edges, PositionSet, tree_ends};
use std::alloc::Global;

/// The follow sets of a tree's positions.
#[derive(Drop)]
pub(crate) struct FollowSets {
    /// what may come first
    always: PositionSet,
    /// for each four positions, and each choice among them, what may follow those chosen
    fours: Vec<PositionSet>,
    /// for each character of ASCII the positions whose sets have it
    having: Vec<PositionSet>,
    /// the positions with which a match is done
    ends: PositionSet,
    /// whether a match is done with none
    done: bool,
    ghost fours_within: { HaveAtMost (length always.flags) fours.items },
    ghost having_long: { HaveLength (length always.flags) having.items },
    ghost characters: { length having.items ≡ 128 },
}

impl FollowSets {
    ghost use Rattle.js_nfa.specs.AreFollowSets.{AreFollowSets};

    /// The follow sets of a tree: sixteen for each four positions, and a set for each character of ASCII. They take a
    /// walk for each such character, and for each position one, and one more for each character that is shown.
    pub(crate) fn of(alloc: Global, tree: &Re, count: u32) -> Result<FollowSets, Memory>
        requires counted { count ≡ count_of (view tree.now) }
        requires within { count ≤ 16384 }
        ensures { IfOk result (AreFollowSets (view tree.now)) }
    {
        let having = having(alloc, tree, count)?;
        let shown = shown(alloc, &having, count)?;
        let none = PositionSet::with_room(alloc, count)?;
        let always = follow_set(alloc, tree, count, &shown, &none, true)?;
        let Followers { sets, ends } = follow_sets_of_each(alloc, tree, count, &shown)?;
        let fours = fours(alloc, &sets, count)?;
        let edges = Edges {
            first: false,
            last: false,
        };
        let done = tree_ends(tree, edges, &none);
        Ok(FollowSets {
            always,
            fours,
            having,
            ends,
            done,
        })
    }

    /// Fills a set with the positions that read a character of ASCII, which isn't the word's first, and answers whether
    /// a match ends after it that uses no end assertion.
    pub(crate) fn advance(
        &self,
        character: char,
        read: &PositionSet,
        reads: &mut PositionSet,
    ) -> bool
        requires ascii { character < 128 }
        requires room { length self.now.always.flags ≤ reads.old.room }
        ensures flags { (t : Tree) → AreFollowSets t self.now → reads.new.flags
            ≡ reads_next t false (flag_at read.now.flags) character 0 true }
        ensures done { (t : Tree) → AreFollowSets t self.now → result
            ≡ ends_here t false false (flag_at reads.new.flags) 0 true }
        ensures room { reads.new.room ≡ reads.old.room }
    {
        self.follow_all(read, reads);
        reads.meet(&self.having[character as usize]);
        self.done || reads.meets(&self.ends)
    }

    /// Fills a set with what may come first, and what may follow the positions that were read.
    fn follow_all(&self, read: &PositionSet, reads: &mut PositionSet)
        requires { length self.now.always.flags ≤ reads.old.room }
        ensures flags { reads.new.flags
            ≡ by_fours self.now.always.flags self.now.fours.items (flag_at read.now.flags) (length
            self.now.fours.items / 16) }
        ensures room { reads.new.room ≡ reads.old.room }
    {
        reads.clear();
        reads.join(&self.always);
        for four in 0..self.fours.len() / 16 {
            let choice = read.bits(4 * four, 4) as usize;
            reads.join(&self.fours[16 * four + choice]);
        }
    }
}
