//! The atoms of what the literals of a set say of names.

ghost use Rattle.std.specs.Prelude.{◌≡◌, map, true, IfOk};
ghost use Rattle.finders.specs.Names.{atoms_of_names};
ghost use Rattle.js_algebra.specs.View.{signed_view, are_in_table};
ghost use Rattle.js_nfa.specs.AtomView.{atom_view};

use crate::taken::Taken;
use js_algebra::{Core, Signed};
use js_doc::Memory;
use js_nfa::Atom;
use std::alloc::Global;

/// The atoms of what a set says of names, each once, in order of first mention. A position that names are to meet is
/// gone through once, whatever the number of steps that lead to a part of it.
pub fn name_atoms(alloc: Global, core: &Core, set: &[Signed]) -> Result<Vec<Atom>, Memory>
    requires { are_in_table core.now.positions (map signed_view set.now) ≡ true }
    ensures { IfOk result (λ atoms. map atom_view atoms.items
        ≡ atoms_of_names core.now.positions (map signed_view set.now)) }
{
    let taken = Taken::of(alloc, core, set)?;
    Ok(taken.atoms.into_iter().collect(alloc)?)
}
