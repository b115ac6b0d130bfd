//! Follow sets, joined for each choice among four positions.
//!
//! A state has its positions as bits, so four of them choose one of sixteen unions: one look for four follow sets.

ghost use Rattle.std.specs.Prelude.{◌≡◌, ◌≤◌, ◌*◌, ◌<◌, length, IfOk};
ghost use Rattle.js_nfa.specs.FollowSets.{HaveLength, HaveAtMost, AreFours, chosen_sets};

use js_doc::Memory;
use js_pattern_positions::PositionSet;
use std::alloc::Global;

/// The unions of follow sets, sixteen for each four of them.
pub(crate) fn fours(
    alloc: Global,
    sets: &[PositionSet],
    count: u32,
) -> Result<Vec<PositionSet>, Memory>
    requires long { HaveLength count sets.now }
    requires few { length sets.now ≤ 16384 }
    ensures fours { IfOk result (λ fours. AreFours sets.now fours.items) }
    ensures within { IfOk result (λ fours. HaveAtMost count fours.items) }
{
    let mut fours = Vec::new(alloc);
    for index in 0..sets.len().div_ceil(4) * 16 {
        fours.push(union(alloc, sets, count, index / 16 * 4, index % 16)?)?;
    }
    Ok(fours)
}

/// The union of the sets from the first on that four bits choose.
fn union(
    alloc: Global,
    sets: &[PositionSet],
    count: u32,
    first: usize,
    bits: usize,
) -> Result<PositionSet, Memory>
    requires long { HaveLength count sets.now }
    requires few { first ≤ 16384 }
    ensures flags { IfOk result (λ union. union.flags ≡ chosen_sets sets.now first bits 4) }
    ensures within { IfOk result (λ union. length union.flags ≤ count) }
{
    let mut union = PositionSet::with_room(alloc, count)?;
    for place in 0..4 {
        let position = first + place;
        if (bits >> place) & 1 == 1 && position < sets.len() {
            union.join(&sets[position]);
        }
    }
    Ok(union)
}
