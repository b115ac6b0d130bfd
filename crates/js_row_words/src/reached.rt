//! The rows from which words lead to marked rows.
//!
//! They are found backwards from the marked rows, so that a search costs the edges that lead to what it finds, and one
//! look at each mark. They are listed in the order found, in which a row mostly comes after the rows that it leads to.

ghost use Rattle.std.specs.Prelude.{◌≡◌, ◌<◌, List, length, set, Bool, true, IfOk, OnOk};
ghost use Rattle.js_automaton.specs.AutomatonView.{atoms_of, rows_of};
ghost use Rattle.js_row_words.specs.Labels.{IsPart, LeadsToMark};
ghost use Rattle.js_row_words.specs.Edges.{AreSources, HaveSources};
ghost use Rattle.js_row_words.specs.Reaching.{AreListed, GoesOn, AllLead, AreReached};

use crate::sources::Sources;
use js_automaton::Automaton;
use js_doc::Memory;
use std::alloc::Global;

/// Rows as flags and as a list.
#[derive(Drop)]
pub(crate) struct Reached {
    pub(crate) seen: Vec<bool>,
    pub(crate) list: Vec<u32>,
}

impl Reached {
    /// Adds a row, unless it is there.
    fn add(&mut self, row: u32) -> Result<(), Memory>
        requires row { row < length self.old.seen.items }
        requires listed { AreListed self.old.seen.items self.old.list.items }
        ensures seen { OnOk result (self.new.seen.items ≡ set self.old.seen.items row true) }
        ensures listed { OnOk result (AreListed self.new.seen.items self.new.list.items) }
        ensures longer { OnOk result (GoesOn self.old.list.items self.new.list.items) }
    {
        if !self.seen[row as usize] {
            self.list.push(row)?;
            self.seen[row as usize] = true;
        }
        Ok(())
    }

    /// Adds the rows from which an edge leads to the row.
    fn add_sources(
        &mut self,
        automaton: &Automaton,
        sources: &Sources,
        row: u32,
    ) -> Result<(), Memory>
        requires row { row < length (rows_of automaton.now) }
        requires size { length self.old.seen.items ≡ length (rows_of automaton.now) }
        requires listed { AreListed self.old.seen.items self.old.list.items }
        requires sources { AreSources (atoms_of automaton.now) (rows_of automaton.now)
            sources.now.last.items sources.now.before.items }
        ensures size { OnOk result (length self.new.seen.items ≡ length (rows_of automaton.now)) }
        ensures listed { OnOk result (AreListed self.new.seen.items self.new.list.items) }
        ensures longer { OnOk result (GoesOn self.old.list.items self.new.list.items) }
        ensures part { OnOk result (IsPart self.new.seen.items self.old.seen.items) }
        ensures all { OnOk result (HaveSources (atoms_of automaton.now) (rows_of automaton.now)
            self.new.seen.items row) }
        ensures leads { OnOk result ((marks : List Bool)
            → LeadsToMark (atoms_of automaton.now) (rows_of automaton.now) marks row
            → AllLead (atoms_of automaton.now) (rows_of automaton.now) marks self.old.seen.items
            → AllLead (atoms_of automaton.now) (rows_of automaton.now) marks self.new.seen.items) }
    {
        let classes = automaton.classes() as usize;
        let mut edge = sources.last[row as usize];
        while edge > 0 {
            self.add(((edge - 1) / classes) as u32)?;
            edge = sources.before[edge - 1];
        }
        Ok(())
    }

    /// The marked rows, from the last, since rows mostly lead to later ones.
    fn marked(alloc: Global, automaton: &Automaton, marks: &[bool]) -> Result<Reached, Memory>
        requires { length marks.now ≡ length (rows_of automaton.now) }
        ensures size { IfOk result (λ r. length r.seen.items ≡ length (rows_of automaton.now)) }
        ensures listed { IfOk result (λ r. AreListed r.seen.items r.list.items) }
        ensures leads { IfOk result (λ r. AllLead (atoms_of automaton.now) (rows_of automaton.now) marks.now
            r.seen.items) }
        ensures marked { IfOk result (λ r. IsPart r.seen.items marks.now) }
    {
        let rows = automaton.rows();
        let seen = vec![in alloc; false; rows as usize]?;
        let mut reached = Reached {
            seen,
            list: Vec::new(alloc),
        };
        for row in (0..rows).rev() {
            if marks[row as usize] {
                reached.add(row)?;
            }
        }
        Ok(reached)
    }

    /// All rows from which words lead to marked rows.
    pub(crate) fn find(
        alloc: Global,
        automaton: &Automaton,
        sources: &Sources,
        marks: &[bool],
    ) -> Result<Reached, Memory>
        requires marks { length marks.now ≡ length (rows_of automaton.now) }
        requires sources { AreSources (atoms_of automaton.now) (rows_of automaton.now)
            sources.now.last.items sources.now.before.items }
        ensures { IfOk result (λ r. AreReached (atoms_of automaton.now) (rows_of automaton.now) marks.now
            r.seen.items r.list.items) }
    {
        let mut reached = Self::marked(alloc, automaton, marks)?;
        let mut done = 0;
        while done < reached.list.len() {
            let row = reached.list[done];
            reached.add_sources(automaton, sources, row)?;
            done += 1;
        }
        Ok(reached)
    }
}
