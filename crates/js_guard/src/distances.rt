//! How many edges lead from one entry to each.
//!
//! Entries are reached in the order of their distances, and each edge is followed once.

ghost use Rattle.std.specs.Prelude.{◌≡◌, ◌+◌, ◌^◌, ◌<◌, ◌≤◌, length, get_or, IfOk, OnOk};
ghost use Rattle.js_guard.specs.Rows.{AreClosed};
ghost use Rattle.js_guard.specs.Distances.{get_distance, item, AreDistances, IsReachingWith, ReachesAt};

use crate::edges::Edges;
use js_doc::Memory;
use std::alloc::Global;

/// An entry with its distance.
#[derive(Clone, Copy)]
pub(crate) struct Reached {
    entry: u32,
    distance: u32,
}

/// Distances so far, and the entries that have one, in their order.
#[derive(Drop)]
pub(crate) struct Frontier {
    distances: Vec<Option<u32>>,
    queue: Vec<Reached>,
}

/// The fewest edges from `first` to each entry, None where no way leads there.
pub(crate) fn distances_from(
    alloc: Global,
    edges: &Edges,
    first: u32,
) -> Result<Vec<Option<u32>>, Memory>
    requires closed { AreClosed edges.now }
    requires small { length edges.now < 2 ^ 32 }
    requires first { first < length edges.now }
    ensures { IfOk result (λ d. AreDistances edges.now first d.items) }
{
    let mut frontier = Frontier::new(alloc, edges, first)?;
    let mut at = 0;
    while at < frontier.queue.len() {
        frontier.follow(edges, at)?;
        at += 1;
    }
    let Frontier { distances, .. } = frontier;
    Ok(distances)
}

impl Frontier {
    fn new(alloc: Global, edges: &Edges, first: u32) -> Result<Frontier, Memory>
        requires { first < length edges.now }
        ensures search { IfOk result (λ f. IsReachingWith edges.now f 0) }
        ensures first { IfOk result (λ f. (item f.queue.items 0).entry ≡ first) }
    {
        let mut frontier = Frontier {
            distances: vec![in alloc; None; edges.len()]?,
            queue: Vec::new(alloc),
        };
        frontier.reach(first, 0)?;
        Ok(frontier)
    }

    /// Follows the edges of the entry at that place of the queue.
    fn follow(&mut self, edges: &Edges, at: usize) -> Result<(), Memory>
        requires closed { AreClosed edges.now }
        requires small { length edges.now < 2 ^ 32 }
        requires at { at < length self.old.queue.items }
        requires search { IsReachingWith edges.now self.old at }
        ensures search { OnOk result (IsReachingWith edges.now self.new (at + 1)) }
        ensures first { OnOk result (item self.new.queue.items 0 ≡ item self.old.queue.items 0) }
    {
        let reached = self.queue[at];
        for target in edges.row(reached.entry) {
            self.reach(*target, reached.distance + 1)?;
        }
        Ok(())
    }

    /// Gives an entry that distance, unless it has one.
    fn reach(&mut self, entry: u32, distance: u32) -> Result<(), Memory>
        requires { entry < length self.old.distances.items }
        ensures { OnOk result (ReachesAt (get_distance self.old.distances.items entry) self.old self.new entry
            distance) }
    {
        if self.distances[entry as usize].is_none() {
            self.queue.push(Reached { entry, distance })?;
            self.distances[entry as usize] = Some(distance);
        }
        Ok(())
    }
}
