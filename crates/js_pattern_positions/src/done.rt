//! Which positions have to be read for a match to be done before the word's end is known.
//!
//! What ends where some positions were read ends where more were. So where no match ends with all positions read that
//! come before one, it takes that one or a later one, and nobody has to look for a match where none of these was read.
//! The last such position is found by halves.

ghost use Rattle.std.specs.Prelude.{◌≡◌, ◌≤◌, IfOk, IsTrue, replicate, [], true, length};
ghost use Rattle.word_states.specs.Position.{count_of};
ghost use Rattle.js_pattern.specs.View.{view};
ghost use Rattle.js_pattern_positions.specs.Done.{Needs};

use crate::ends::{Edges, tree_ends};
use crate::position_set::PositionSet;
use js_doc::Memory;
use js_pattern::Re;
use std::alloc::Global;

/// The position that has to be read, or a later one, for a match of the tree to be done where a character comes before
/// and may come next; the number of positions where no match ever is, and 0 where nothing has to be read.
pub fn done_from(alloc: Global, tree: &Re, count: u32) -> Result<u32, Memory>
    requires counted { count ≡ count_of (view tree.now) }
    requires within { count ≤ 16384 }
    ensures { IfOk result (λ from. Needs (view tree.now) from) }
{
    let mut read = PositionSet::with_room(alloc, count)?;
    let mut from = 0;
    let mut most = count + 1;
    for _ in 0..15 {
        let middle = from + (most - from) / 2;
        if from < middle {
            if needs(tree, middle, &mut read) {
                from = middle;
            } else {
                most = middle;
            }
        }
    }
    Ok(from)
}

/// Whether no match ends where all positions before this one were read, and no others.
fn needs(tree: &Re, from: u32, read: &mut PositionSet) -> bool
    requires within { count_of (view tree.now) ≤ 16384 }
    requires room { from ≤ read.old.room }
    ensures needs { IsTrue result → Needs (view tree.now) from }
    ensures room { read.new.room ≡ read.old.room }
{
    read.clear();
    read_all(read, from);
    let edges = Edges {
        first: false,
        last: false,
    };
    !tree_ends(tree, edges, read)
}

/// Adds so many positions to an empty set.
pub fn read_all(read: &mut PositionSet, count: u32)
    requires empty { read.old.flags ≡ [] }
    requires room { count ≤ read.old.room }
    ensures flags { read.new.flags ≡ replicate count true }
    ensures room { read.new.room ≡ read.old.room }
{
    for _ in 0..count {
        read.push(true);
    }
}
