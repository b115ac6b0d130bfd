//! Edges the other way round.
//!
//! Edges are linked by where they lead, in flat arrays, and read off entry by entry. It costs time and memory in
//! proportion to the entries and edges.

ghost use Rattle.std.specs.Prelude.{◌≡◌, ℕ, List, ◌^◌, ◌<◌, ◌++◌, length, map, get_or, IfOk, OnOk};
ghost use Rattle.js_guard.specs.Rows.{AreClosed};
ghost use Rattle.js_guard.specs.Linked.{pairs, IsLinked, HasSources, AreReversed};

use crate::edges::Edges;
use js_doc::Memory;
use std::alloc::Global;

/// An edge by where it comes from, and how many edges there are up to and with the one before it that leads to the same
/// entry: 0 where none does.
#[derive(Clone, Copy)]
pub(crate) struct Source {
    entry: u32,
    before: usize,
}

/// All edges, and for each entry how many there are up to and with the last that leads there.
#[derive(Drop)]
pub(crate) struct Linked {
    last: Vec<usize>,
    edges: Vec<Source>,
}

/// The same entries, with each edge the other way round.
pub(crate) fn reversed(alloc: Global, edges: &Edges) -> Result<Edges, Memory>
    requires closed { AreClosed edges.now }
    requires small { length edges.now < 2 ^ 32 }
    ensures { IfOk result (AreReversed edges.now) }
{
    let linked = Linked::of(alloc, edges)?;
    let mut back = Edges::new(alloc);
    let mut row = Vec::new(alloc);
    for target in 0..edges.len() {
        linked.read_sources(target as u32, &mut row)?;
        back.push_row(&row)?;
    }
    Ok(back)
}

impl Linked {
    fn of(alloc: Global, edges: &Edges) -> Result<Linked, Memory>
        requires closed { AreClosed edges.now }
        requires small { length edges.now < 2 ^ 32 }
        ensures { IfOk result (λ l. IsLinked (pairs 0 edges.now) (length edges.now) l.last.items l.edges.items) }
    {
        let mut linked = Linked {
            last: vec![in alloc; 0; edges.len()]?,
            edges: Vec::new(alloc),
        };
        for entry in 0..edges.len() {
            linked.add_row(entry as u32, edges.row(entry as u32))?;
        }
        Ok(linked)
    }

    fn add_row(&mut self, entry: u32, row: &[u32]) -> Result<(), Memory>
        requires { (i : ℕ) → i < length row.now → get_or row.now i 0 < length self.old.last.items }
        ensures { OnOk result ((L : List (ℕ × ℕ)) (n : ℕ) → IsLinked L n self.old.last.items self.old.edges.items
            → IsLinked (L ++ map (λ t. (entry, t)) row.now) n self.new.last.items self.new.edges.items) }
    {
        for target in row {
            let before = self.last[*target as usize];
            self.edges.push(Source { entry, before })?;
            self.last[*target as usize] = self.edges.len();
        }
        Ok(())
    }

    /// Writes the entries from which edges lead to `target`.
    fn read_sources(&self, target: u32, row: &mut Vec<u32>) -> Result<(), Memory>
        requires target { target < length self.now.last.items }
        requires linked { (L : List (ℕ × ℕ)) × IsLinked L (length self.now.last.items) self.now.last.items
            self.now.edges.items }
        ensures { OnOk result ((L : List (ℕ × ℕ))
            → IsLinked L (length self.now.last.items) self.now.last.items self.now.edges.items
            → HasSources L target 0 row.new.items) }
    {
        row.clear();
        let mut left = self.last[target as usize];
        while left > 0 {
            let source = self.edges[left - 1];
            row.push(source.entry)?;
            left = source.before;
        }
        Ok(())
    }
}
