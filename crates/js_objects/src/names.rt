//! The automaton of what a set says of names.
//!
//! The branches of a goal at objects mostly say the same of names, and differ in what is required of values: so the
//! automaton that was built last is kept for the next branch, or the limit that was passed.

ghost use Rattle.std.specs.Prelude.{◌≡◌, map, true, IfOk, IfErr};
ghost use Rattle.finders.specs.Names.{cells_of};
ghost use Rattle.js_algebra.specs.View.{signed_view, are_in_table};
ghost use Rattle.js_objects.specs.Leaves.{NamesFail};
ghost use Rattle.js_objects.specs.Steps.{IsOfNames};

use js_algebra::{Core, Signed};
use js_automaton::{AutoFault, Automaton};
use js_kept_automaton::KeptAutomaton;
use js_said::name_atoms;
use std::alloc::Global;

/// The automaton of the atoms of what a set says of names: its rows make the cells. What is kept serves where it is of
/// the same atoms in the same order, and is replaced elsewhere.
pub fn name_automaton<'a>(
    alloc: Global,
    core: &Core,
    set: &[Signed],
    kept: &'a mut KeptAutomaton,
) -> Result<&'a Automaton, AutoFault>
    requires { are_in_table core.now.positions (map signed_view set.now) ≡ true }
    ensures names { IfOk result (λ a. IsOfNames core.now.positions (map signed_view set.now) a.now) }
    ensures fault { IfErr result (λ fault. NamesFail (cells_of core.now.positions (map signed_view set.now)) fault) }
{
    let atoms = name_atoms(alloc, core, set)?;
    kept.of(alloc, atoms.as_slice())
}
