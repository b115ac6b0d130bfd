//! The rows that lead to each row.
//!
//! Edges are numbered: edge `row * classes + class` leads from the row by the class. Those that lead to one row are a
//! chain, from the last to the first, so that two flat lists have them all. They cost one pass over the edges.

ghost use Rattle.std.specs.Prelude.{IfOk};
ghost use Rattle.js_automaton.specs.AutomatonView.{atoms_of, rows_of};
ghost use Rattle.js_row_words.specs.Edges.{AreSources};

use js_automaton::Automaton;
use js_doc::Memory;
use std::alloc::Global;

/// The edges that lead to each row.
#[derive(Drop)]
pub(crate) struct Sources {
    /// For each row, one more than the last edge that leads to it, or 0.
    pub(crate) last: Vec<usize>,
    /// For each edge, one more than the last edge before it that leads to the same row, or 0.
    pub(crate) before: Vec<usize>,
}

/// Numbers the edges, and ties each to the one before it that leads to the same row.
pub(crate) fn find_sources(alloc: Global, automaton: &Automaton) -> Result<Sources, Memory>
    ensures { IfOk result (λ s. AreSources (atoms_of automaton.now) (rows_of automaton.now)
        s.last.items s.before.items) }
{
    let rows = automaton.rows() as usize;
    let classes = automaton.classes() as usize;
    let mut last = vec![in alloc; 0; rows]?;
    let mut before = Vec::with_capacity(alloc, rows * classes)?;
    for edge in 0..rows * classes {
        let row = (edge / classes) as u32;
        let class = (edge % classes) as u32;
        let target = automaton.target(row, class) as usize;
        before.push(last[target])?;
        last[target] = edge + 1;
    }
    Ok(Sources { last, before })
}
