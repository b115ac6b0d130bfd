//! Rows by what is said of their words. What is said is kept once and found by its hash, so that a row costs that hash,
//! whatever the number of cells.

ghost use Rattle.std.specs.Prelude.{◌≡◌, ◌<◌, ◌^◌, [], ◌∷◌, ◌++◌, map, length, IfOk, OnOk};
ghost use Rattle.list_laws.specs.In.{IsIn};
ghost use Rattle.word_states.specs.Mention.{mention, mention_all};
ghost use Rattle.cells.specs.Cells.{same_vector, place};
ghost use Rattle.js_nfa.specs.AtomView.{atom_view};
ghost use Rattle.js_automaton.specs.AutomatonView.{atoms_of, rows_of};
ghost use Rattle.js_said.specs.Saying.{IsSaid, told_of};

use crate::flags::Flags;
use crate::telling::tell_rows;
use crate::truths::Truths;
use indexmap::IndexSet;
use js_algebra::Core;
use js_automaton::Automaton;
use js_doc::Memory;
use js_nfa::Atom;
use js_said::Said;
use std::alloc::Global;

/// What is said of rows, each once, and for each row the number of that.
#[derive(Drop)]
pub(crate) struct Grouped {
    pub vectors: IndexSet<Flags>,
    pub cells: Vec<u32>,
}

impl Grouped {
    /// Adds a row of which that is said.
    fn add(&mut self, vector: Flags) -> Result<(), Memory>
        requires { length self.old.vectors.keys < 2 ^ 32 }
        ensures vectors { OnOk result (self.new.vectors.keys ≡ mention same_vector self.old.vectors.keys vector) }
        ensures cells { OnOk result (self.new.cells.items
            ≡ self.old.cells.items ++ place vector self.new.vectors.keys ∷ []) }
    {
        let (cell, _) = self.vectors.insert_full(vector)?;
        self.cells.push(cell as u32)?;
        Ok(())
    }
}

/// All rows of an automaton by what is said of their words.
pub(crate) fn group(
    alloc: Global,
    core: &Core,
    automaton: &Automaton,
    atoms: &[Atom],
    said: &[Said],
) -> Result<Grouped, Memory>
    requires atoms { map atom_view atoms.now ≡ atoms_of automaton.now }
    requires said { (s : Said) → IsIn s said.now → IsSaid core.now.positions (atoms_of automaton.now) s }
    ensures vectors { IfOk result (λ g. g.vectors.keys ≡ mention_all same_vector []
        (map (told_of core.now.positions (atoms_of automaton.now) said.now) (rows_of automaton.now))) }
    ensures cells { IfOk result (λ g. g.cells.items
        ≡ map (λ w. place (told_of core.now.positions (atoms_of automaton.now) said.now w) g.vectors.keys)
        (rows_of automaton.now)) }
{
    let truths = Truths::new(alloc, automaton, atoms)?;
    let told = tell_rows(alloc, core, automaton, &truths, said)?;
    number(alloc, told)
}

/// Rows grouped by what is known of them.
fn number(alloc: Global, told: Vec<Flags>) -> Result<Grouped, Memory>
    requires { length told.items < 2 ^ 32 }
    ensures vectors { IfOk result (λ g. g.vectors.keys ≡ mention_all same_vector [] told.items) }
    ensures cells { IfOk result (λ g. g.cells.items ≡ map (λ v. place v g.vectors.keys) told.items) }
{
    let mut grouped = Grouped {
        vectors: IndexSet::new(alloc),
        cells: Vec::with_capacity(alloc, told.len())?,
    };
    for vector in told {
        grouped.add(vector)?;
    }
    Ok(grouped)
}
