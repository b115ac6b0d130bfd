//! The automaton of a pattern: its tree, walked from the positions that a partial match read last to those that read
//! the next character, and follow sets that say for few positions what the walks would.

ghost use Rattle.std.specs.Prelude.{◌≡◌, ◌<◌, ◌≤◌, [], true, false, List, Bool, length, get_or, IfOk};
ghost use Rattle.std.specs.Option.{ForSome};
ghost use Rattle.word_states.specs.Position.{count_of};
ghost use Rattle.word_states.specs.PatternState.{pattern_state, reading, numbers_from};
ghost use Rattle.state_laws.specs.Flow.{flag_at, ends_here, reads_next, next_state, is_accepted};
ghost use Rattle.state_laws.specs.FollowSets.{may_follow};
ghost use Rattle.js_pattern.specs.View.{view};
ghost use Rattle.js_pattern_positions.specs.Done.{Needs};
ghost use Rattle.js_nfa.specs.AreFollowSets.{AreFollowSets};
ghost use Rattle.js_nfa.specs.Columns.{AreColumns};

use crate::columns::Columns;
use crate::follow::follow;
use crate::follow_sets::FollowSets;
use crate::state::PatternState;
use js_doc::Memory;
use js_pattern::Re;
use js_pattern_positions::{Edges, Next, PositionSet, advance_tree, tree_ends};
use std::alloc::Global;

/// How many positions a tree has at least for which columns are made, and how many columns: a walk over fewer positions
/// costs little, and so do walks for fewer characters, which go through copies of one set a word at a time.
const LEAST_WITH_COLUMNS: usize = 64;

/// The automaton of a pattern. Contracts see the pattern, by `tree_of`.
#[derive(Drop)]
pub struct Nfa {
    tree: Re,
    count: u32,
    /// the position that has to be read, or a later one, for a match to be done before the word's end; 0 says nothing
    done_from: u32,
    follow_sets: Option<FollowSets>,
    columns: Option<Columns>,
    ghost counted: { count ≡ count_of (view tree) },
    ghost within: { count ≤ 16384 },
    ghost needed: { Needs (view tree) done_from },
    ghost follow: { ForSome follow_sets (AreFollowSets (view tree)) },
    ghost by_columns: { ForSome columns (AreColumns (view tree)) },
}

impl Nfa {
    ghost use Rattle.js_nfa.specs.View.{tree_of, state_view};
    ghost use Rattle.js_nfa.specs.Columns.{IsFollow};

    /// The automaton of a tree with so many positions, one of which, from one on, has to be read.
    pub(crate) fn of(tree: Re, count: u32, done_from: u32, follow_sets: Option<FollowSets>) -> Nfa
        requires counted { count ≡ count_of (view tree) }
        requires within { count ≤ 16384 }
        requires needed { Needs (view tree) done_from }
        requires follow { ForSome follow_sets (AreFollowSets (view tree)) }
        ensures { tree_of result ≡ view tree }
    {
        Nfa {
            tree,
            count,
            done_from,
            follow_sets,
            columns: None,
        }
    }

    /// The automaton, ready to go on by each of these characters without a walk for it (`next_state_by`), where they
    /// are 64 or more, and the positions too. This takes a walk for each character and one for each position, and a
    /// bit for each character and position.
    pub fn with_columns(self, alloc: Global, characters: &[char]) -> Result<Nfa, Memory>
        ensures { IfOk result (λ n. tree_of n ≡ tree_of self) }
    {
        if (self.count as usize).min(characters.len()) < LEAST_WITH_COLUMNS {
            return Ok(self);
        }
        let columns = Columns::of(alloc, &self.tree, self.count, characters)?;
        Ok(Nfa {
            tree: self.tree,
            count: self.count,
            done_from: self.done_from,
            follow_sets: self.follow_sets,
            columns: Some(columns),
        })
    }

    /// The number of positions.
    pub fn len(&self) -> u32
        ensures count { result ≡ count_of (tree_of self.now) }
        ensures within { result ≤ 16384 }
    {
        self.count
    }

    /// Whether a match that begins at the first position can end where the word ends.
    pub(crate) fn ends(&self, edges: Edges, read: &PositionSet) -> bool
        ensures { result ≡ ends_here (tree_of self.now) edges.first edges.last (flag_at read.now.flags) 0 true }
    {
        tree_ends(&self.tree, edges, read)
    }

    /// Fills a set with the positions that read the next character, by follow sets where they have it, and answers
    /// whether a match ends after it that uses no end assertion.
    pub(crate) fn advance(&self, next: Next, read: &PositionSet, reads: &mut PositionSet) -> bool
        requires { count_of (tree_of self.now) ≤ reads.old.room }
        ensures flags { reads.new.flags ≡ reads_next (tree_of self.now) next.first (flag_at
            read.now.flags) next.character 0 true }
        ensures done { result ≡ ends_here (tree_of self.now) false false (flag_at reads.new.flags) 0 true }
        ensures room { reads.new.room ≡ reads.old.room }
    {
        match &self.follow_sets {
            Some(follow_sets) if !next.first && next.character.is_ascii() => {
                follow_sets.advance(next.character, read, reads)
            }
            _ => self.walk(next, read, reads),
        }
    }

    /// `advance` by walks over the tree, for patterns or characters without follow sets.
    fn walk(&self, next: Next, read: &PositionSet, reads: &mut PositionSet) -> bool
        requires { count_of (tree_of self.now) ≤ reads.old.room }
        ensures flags { reads.new.flags ≡ reads_next (tree_of self.now) next.first (flag_at
            read.now.flags) next.character 0 true }
        ensures done { result ≡ ends_here (tree_of self.now) false false (flag_at reads.new.flags) 0 true }
        ensures room { reads.new.room ≡ reads.old.room }
    {
        reads.clear();
        advance_tree(&self.tree, self.count as usize, next, read, reads);
        if self.done_from > 0 && reads.has_none_from(self.done_from as usize) {
            return false;
        }
        let edges = Edges {
            first: false,
            last: false,
        };
        self.ends(edges, reads)
    }

    /// The state of the empty word.
    pub fn first_state(&self, alloc: Global) -> Result<PatternState, Memory>
        ensures { IfOk result (λ s. state_view s ≡ pattern_state (tree_of self.now) []) }
    {
        let none = PositionSet::none(alloc, self.count)?;
        let edges = Edges {
            first: true,
            last: false,
        };
        if self.ends(edges, &none) {
            Ok(PatternState::Done)
        } else {
            Ok(PatternState::Reading(none))
        }
    }

    /// The state after one more character, where `first` says that it is the word's first.
    pub fn next_state(
        &self,
        alloc: Global,
        state: &PatternState,
        first: bool,
        character: char,
    ) -> Result<PatternState, Memory>
        ensures { IfOk result (λ s. state_view s
            ≡ next_state (tree_of self.now) first character (state_view state.now)) }
    {
        let PatternState::Reading(read) = state else {
            return Ok(PatternState::Done);
        };
        let mut reads = PositionSet::with_room(alloc, self.count)?;
        if self.advance(Next { first, character }, read, &mut reads) {
            Ok(PatternState::Done)
        } else {
            Ok(PatternState::Reading(reads))
        }
    }

    /// What may follow a state of words that aren't empty, in one walk, where `with_columns` made columns.
    pub fn follow(&self, alloc: Global, state: &PatternState) -> Result<Option<PositionSet>, Memory>
        ensures { IfOk result (λ follows. ForSome follows (IsFollow (tree_of self.now) (state_view state.now))) }
    {
        if self.columns.is_none() {
            return Ok(None);
        }
        let PatternState::Reading(read) = state else {
            return Ok(None);
        };
        let mut follows = PositionSet::with_room(alloc, self.count)?;
        let _end = follow(&self.tree, read, 0, true, &mut follows);
        Ok(Some(follows))
    }

    /// `next_state` of words that aren't empty, by what `follow` says of the state and the character's place among
    /// those of `with_columns`: a look at each word of 64 positions. For another character it takes a walk.
    pub fn next_state_by(
        &self,
        alloc: Global,
        state: &PatternState,
        follows: &Option<PositionSet>,
        place: usize,
        character: char,
    ) -> Result<PatternState, Memory>
        requires { ForSome follows.now (IsFollow (tree_of self.now) (state_view state.now)) }
        ensures { IfOk result (λ s. state_view s
            ≡ next_state (tree_of self.now) false character (state_view state.now)) }
    {
        match (follows, &self.columns) {
            (Some(follows), Some(columns)) if columns.has_at(place, character) => {
                self.next_in(alloc, columns, follows, place, character)
            }
            _ => self.next_state(alloc, state, false, character),
        }
    }

    /// The next state by the columns.
    fn next_in(
        &self,
        alloc: Global,
        columns: &Columns,
        follows: &PositionSet,
        place: usize,
        character: char,
    ) -> Result<PatternState, Memory>
        requires columns { AreColumns (tree_of self.now) columns.now }
        requires place { place < length columns.now.having.items }
        requires character { get_or columns.now.characters.items place 0 ≡ character }
        requires long { length follows.now.flags ≡ count_of (tree_of self.now) }
        ensures { IfOk result (λ s. (flags : List Bool)
            → follows.now.flags ≡ may_follow (tree_of self.now) false (flag_at flags) 0 true
            → state_view s ≡ next_state (tree_of self.now) false character (reading (numbers_from 0 flags))) }
    {
        let mut reads = PositionSet::with_room(alloc, self.count)?;
        if columns.advance(place, follows, &mut reads) {
            Ok(PatternState::Done)
        } else {
            Ok(PatternState::Reading(reads))
        }
    }

    /// Whether the pattern matches in the words of that state that are empty, or in those that aren't.
    pub fn is_accepted(&self, state: &PatternState, is_empty: bool) -> bool
        ensures { result ≡ is_accepted (tree_of self.now) is_empty (state_view state.now) }
    {
        let edges = Edges {
            first: is_empty,
            last: true,
        };
        match state {
            PatternState::Done => true,
            PatternState::Reading(read) => self.ends(edges, read),
        }
    }
}
