//! The cycle that is reported.
//!
//! From an entry on a cycle the next is the target with the shortest way back. It costs time and memory in proportion
//! to the entries and edges.

ghost use Rattle.std.specs.Prelude.{◌≡◌, ℕ, true, ◌^◌, ◌<◌, length, get_or, IfOk, Option, Some};
ghost use Rattle.schemas.specs.Guarded.{is_among, IsLeastOnCycle, IsLeastCycle};
ghost use Rattle.js_guard.specs.Rows.{AreClosed};
ghost use Rattle.js_guard.specs.Distances.{get_distance};
ghost use Rattle.js_guard.specs.Nearest.{IsNearest, nearer_of};

use crate::distances::distances_from;
use crate::edges::Edges;
use crate::reverse::reversed;
use js_doc::Memory;
use std::alloc::Global;

/// The cycle from `first`, the least entry on one.
pub(crate) fn least_cycle(alloc: Global, edges: &Edges, first: u32) -> Result<Vec<u32>, Memory>
    requires closed { AreClosed edges.now }
    requires small { length edges.now < 2 ^ 32 }
    requires first { IsLeastOnCycle edges.now first }
    ensures { IfOk result (λ v. IsLeastCycle edges.now v.items) }
{
    let back = reversed(alloc, edges)?;
    let distances = distances_from(alloc, &back, first)?;
    let mut cycle = Vec::new(alloc);
    cycle.push(first)?;
    let mut next = nearest(edges.row(first), &distances);
    while next != first {
        cycle.push(next)?;
        next = nearest(edges.row(next), &distances);
    }
    Ok(cycle)
}

/// Of these entries the one with the least distance, and the least number among equals. One of them has a distance.
fn nearest(row: &[u32], distances: &[Option<u32>]) -> u32
    requires within { (i : ℕ) → i < length row.now → get_or row.now i 0 < length distances.now }
    requires some { (z d : ℕ) × (is_among z row.now ≡ true) × (get_distance distances.now z ≡ Some d) }
    ensures { IsNearest distances.now row.now result }
{
    let mut best = None;
    for target in row {
        if let Some(distance) = distances[*target as usize] {
            let entry = *target;
            best = Some(nearer(best, Candidate { distance, entry }));
        }
    }
    match best {
        Some(candidate) => candidate.entry,
        None => unreachable!(),
    }
}

/// An entry that may come next.
#[derive(Clone, Copy)]
pub(crate) struct Candidate {
    distance: u32,
    entry: u32,
}

fn nearer(best: Option<Candidate>, other: Candidate) -> Candidate
    ensures { result ≡ nearer_of best other }
{
    match best {
        None => other,
        Some(first) => {
            if first.distance < other.distance {
                first
            } else if first.distance == other.distance && first.entry < other.entry {
                first
            } else {
                other
            }
        }
    }
}
