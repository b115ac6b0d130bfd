//! What may follow each position of a tree, found by walks in which that position alone was read.
//!
//! A walk says which positions read a given character. So it is done for each of some characters which, between them,
//! are in the sets of all positions that read one of ASCII. These are at most 128, and no more than the positions.

ghost use Rattle.std.specs.Prelude.{◌≡◌, ◌<◌, ◌≤◌, ◌++◌, ◌∷◌, ◌&&◌, [], ℕ, true, false, length, replicate, get_or, IfOk};
ghost use Rattle.word_states.specs.Position.{count_of};
ghost use Rattle.state_laws.specs.Flow.{flag_at, ends_here, reads_next};
ghost use Rattle.state_laws.specs.FollowSets.{only, may_follow};
ghost use Rattle.js_pattern.specs.View.{view};
ghost use Rattle.js_nfa.specs.FollowSets.{set_at, HaveLength, is_shown, is_in_some};

use js_doc::Memory;
use js_pattern::Re;
use js_pattern_positions::{Edges, Next, PositionSet, advance, ends_here, read_all};
use std::alloc::Global;

/// How many characters have a set of positions: those of ASCII.
const CHARACTERS: u8 = 128;

/// The follow set of each position, and the positions with which a match is done.
#[derive(Drop)]
pub(crate) struct Followers {
    pub(crate) sets: Vec<PositionSet>,
    pub(crate) ends: PositionSet,
}

/// For each character of ASCII, the positions that read it where all positions were read.
pub(crate) fn having(alloc: Global, tree: &Re, count: u32) -> Result<Vec<PositionSet>, Memory>
    requires counted { count ≡ count_of (view tree.now) }
    requires within { count ≤ 16384 }
    ensures length { IfOk result (λ sets. length sets.items ≡ 128) }
    ensures sets { IfOk result (λ sets. (c : ℕ) → c < 128 → set_at sets.items c
        ≡ reads_next (view tree.now) false (flag_at (replicate count true)) c 0 true) }
{
    let mut all = PositionSet::with_room(alloc, count)?;
    read_all(&mut all, count);
    let mut sets = Vec::new(alloc);
    for c in 0..CHARACTERS {
        let next = Next {
            first: false,
            character: char::from(c),
        };
        let mut set = PositionSet::with_room(alloc, count)?;
        let _ends = advance(tree, next, &all, true, &mut set);
        sets.push(set)?;
    }
    Ok(sets)
}

/// For each of some characters, the positions that read it where all positions were read.
pub(crate) fn having_each(
    alloc: Global,
    tree: &Re,
    count: u32,
    characters: &[char],
) -> Result<Vec<PositionSet>, Memory>
    requires counted { count ≡ count_of (view tree.now) }
    requires within { count ≤ 16384 }
    ensures length { IfOk result (λ sets. length sets.items ≡ length characters.now) }
    ensures sets { IfOk result (λ sets. (i : ℕ) → i < length characters.now → set_at sets.items i
        ≡ reads_next (view tree.now) false (flag_at (replicate count true)) (get_or characters.now i 0) 0 true) }
{
    let mut all = PositionSet::with_room(alloc, count)?;
    read_all(&mut all, count);
    let mut sets = Vec::with_capacity(alloc, characters.len())?;
    for c in characters {
        let next = Next {
            first: false,
            character: *c,
        };
        let mut set = PositionSet::with_room(alloc, count)?;
        let _ends = advance(tree, next, &all, true, &mut set);
        sets.push(set)?;
    }
    Ok(sets)
}

/// Characters that between them have all the positions that some character of ASCII has.
pub(crate) fn shown(alloc: Global, having: &[PositionSet], count: u32) -> Result<Vec<char>, Memory>
    requires characters { length having.now ≡ 128 }
    requires long { HaveLength count having.now }
    ensures { IfOk result (λ shown. (c q : ℕ) → c < 128 → flag_at (set_at having.now c) q ≡ true
        → is_in_some having.now shown.items q ≡ true) }
{
    let mut seen = PositionSet::with_room(alloc, count)?;
    let mut shown = Vec::new(alloc);
    for c in 0..CHARACTERS {
        let set = &having[c as usize];
        if !set.is_within(&seen) {
            seen.join(set);
            shown.push(char::from(c))?;
        }
    }
    Ok(shown)
}

/// What may follow those positions, as far as its set has one of the characters.
pub(crate) fn follow_set(
    alloc: Global,
    tree: &Re,
    count: u32,
    characters: &[char],
    read: &PositionSet,
    begins: bool,
) -> Result<PositionSet, Memory>
    requires counted { count ≡ count_of (view tree.now) }
    requires within { count ≤ 16384 }
    ensures length { IfOk result (λ set. length set.flags ≡ count) }
    ensures flags { IfOk result (λ set. (q : ℕ) → flag_at set.flags q
        ≡ flag_at (may_follow (view tree.now) false (flag_at read.now.flags) 0 begins) q
        && is_shown (view tree.now) characters.now q) }
{
    let mut follow_set = PositionSet::with_room(alloc, count)?;
    follow_set.push_none(count as usize);
    let mut reads = PositionSet::with_room(alloc, count)?;
    for c in characters {
        let next = Next {
            first: false,
            character: *c,
        };
        reads.clear();
        let _ends = advance(tree, next, read, begins, &mut reads);
        follow_set.join(&reads);
    }
    Ok(follow_set)
}

/// The follow set of each position, as far as the sets have one of the characters.
pub(crate) fn follow_sets_of_each(
    alloc: Global,
    tree: &Re,
    count: u32,
    characters: &[char],
) -> Result<Followers, Memory>
    requires counted { count ≡ count_of (view tree.now) }
    requires within { count ≤ 16384 }
    ensures length { IfOk result (λ each. length each.sets.items ≡ count) }
    ensures long { IfOk result (λ each. HaveLength count each.sets.items) }
    ensures sets { IfOk result (λ each. (p q : ℕ) → p < count → flag_at (set_at each.sets.items p) q
        ≡ flag_at (may_follow (view tree.now) false (only p) 0 false) q && is_shown (view tree.now) characters.now q) }
    ensures ends { IfOk result (λ each. (p : ℕ) → p < count → flag_at each.ends.flags p
        ≡ ends_here (view tree.now) false false (only p) 0 false) }
{
    let mut read = PositionSet::with_room(alloc, count)?;
    let mut sets = Vec::new(alloc);
    let mut ends = PositionSet::with_room(alloc, count)?;
    for p in 0..count {
        read_one(&mut read, p);
        sets.push(follow_set(alloc, tree, count, characters, &read, false)?)?;
        ends.push(is_end(tree, &read));
    }
    Ok(Followers { sets, ends })
}

/// The positions with which a match is done.
pub(crate) fn ends_of_each(alloc: Global, tree: &Re, count: u32) -> Result<PositionSet, Memory>
    requires counted { count ≡ count_of (view tree.now) }
    requires within { count ≤ 16384 }
    ensures { IfOk result (λ ends. (p : ℕ) → p < count → flag_at ends.flags p
        ≡ ends_here (view tree.now) false false (only p) 0 false) }
{
    let mut read = PositionSet::with_room(alloc, count)?;
    let mut ends = PositionSet::with_room(alloc, count)?;
    for p in 0..count {
        read_one(&mut read, p);
        ends.push(is_end(tree, &read));
    }
    Ok(ends)
}

/// Whether a match is done with those positions, of which there is one.
fn is_end(tree: &Re, read: &PositionSet) -> bool
    requires { count_of (view tree.now) ≤ 16384 }
    ensures { result ≡ ends_here (view tree.now) false false (flag_at read.now.flags) 0 false }
{
    let edges = Edges {
        first: false,
        last: false,
    };
    ends_here(tree, edges, read, 0, false).ends
}

/// Makes that position the only one.
fn read_one(read: &mut PositionSet, position: u32)
    requires { position < read.old.room }
    ensures only { flag_at read.new.flags ≡ only position }
    ensures room { read.new.room ≡ read.old.room }
{
    read.clear();
    read.push_none(position as usize);
    read.push(true);
}
