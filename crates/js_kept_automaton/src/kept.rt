//! The atoms that were given last, with their automaton or the limit that they pass.
//!
//! Only the last ones are kept: a table of automata by their atoms would hold what is rarely needed again.

ghost use Rattle.std.specs.Prelude.{◌≡◌, map, true, None, Some, IfOk, OnOk, IfErr};
ghost use Rattle.js_nfa.specs.AtomView.{atom_view};
ghost use Rattle.js_automaton.specs.AutomatonView.{atoms_of};
ghost use Rattle.js_kept_automaton.specs.Outcomes.{passed, Passes, IsOutcome, is_lacking};
ghost use Rattle.js_kept_automaton.specs.Props.{IsOutcome-prop};

use js_automaton::{AutoFault, Automaton, build};
use js_doc::Memory;
use js_nfa::Atom;
use std::alloc::Global;

/// Atoms, with what was built of them.
#[derive(Drop)]
struct Built {
    atoms: Vec<Atom>,
    outcome: Result<Automaton, AutoFault>,
    ghost is_outcome: { IsOutcome (map atom_view atoms.items) outcome } by { IsOutcome-prop _ _ },
}

/// What was built last, if anything. `kept_atoms` says of which atoms it is.
#[derive(Drop)]
pub struct KeptAutomaton {
    last: Option<Built>,
}

impl KeptAutomaton {
    ghost use Rattle.js_kept_automaton.specs.KeptView.{kept_atoms};

    /// Nothing is kept yet.
    pub fn new() -> KeptAutomaton
        ensures { kept_atoms result ≡ None }
    {
        KeptAutomaton { last: None }
    }

    /// The automaton of these atoms, or the limit that they pass. It is built only where the atoms aren't the kept
    /// ones, in the same order, and is kept then. Want of memory isn't kept.
    pub fn of(&mut self, alloc: Global, atoms: &[Atom]) -> Result<&Automaton, AutoFault>
        ensures atoms { IfOk result (λ a. atoms_of a.now ≡ map atom_view atoms.now) }
        ensures none { OnOk result (passed (map atom_view atoms.now) ≡ None) }
        ensures fault { IfErr result (λ fault. Passes (map atom_view atoms.now) fault) }
    {
        self.keep(alloc, atoms)?;
        match &self.last {
            Some(built) => match &built.outcome {
                Ok(automaton) => Ok(automaton),
                Err(fault) => Err(*fault),
            },
            None => Err(AutoFault::Memory),
        }
    }

    /// Has what is built of these atoms kept, if it isn't yet.
    fn keep(&mut self, alloc: Global, atoms: &[Atom]) -> Result<(), Memory>
        ensures { OnOk result (kept_atoms self.new ≡ Some (map atom_view atoms.now)) }
    {
        if let Some(built) = &self.last
            && are_same(built.atoms.as_slice(), atoms)
        {
            return Ok(());
        }
        // What is kept is let go before more is built.
        self.last = None;
        self.last = Some(Built::of(alloc, atoms)?);
        Ok(())
    }
}

impl Built {
    fn of(alloc: Global, atoms: &[Atom]) -> Result<Built, Memory>
        ensures { IfOk result (λ b. map atom_view b.atoms.items ≡ map atom_view atoms.now) }
    {
        let atoms = copies(alloc, atoms)?;
        let outcome = build(alloc, atoms.as_slice());
        if lacks_memory(&outcome) {
            return Err(Memory);
        }
        Ok(Built { atoms, outcome })
    }
}

fn lacks_memory(outcome: &Result<Automaton, AutoFault>) -> bool
    ensures { result ≡ is_lacking outcome.now }
{
    matches!(outcome, Err(AutoFault::Memory))
}

fn copies(alloc: Global, atoms: &[Atom]) -> Result<Vec<Atom>, Memory>
    ensures { IfOk result (λ v. map atom_view v.items ≡ map atom_view atoms.now) }
{
    let mut copies = Vec::with_capacity(alloc, atoms.len())?;
    for atom in atoms {
        copies.push(atom.copy(alloc)?)?;
    }
    Ok(copies)
}

/// Whether the atoms are the same, in the same order.
fn are_same(a: &[Atom], b: &[Atom]) -> bool
    ensures { result ≡ true → map atom_view a.now ≡ map atom_view b.now }
{
    a == b
}
