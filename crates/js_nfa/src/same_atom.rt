//! Equality, hashes and copies of atoms, by what they require: patterns of one tree are one atom.

ghost use Rattle.std.specs.Prelude.{◌≡◌, IfOk};
ghost use Rattle.std.specs.Cmp.{on_equiv, partial_equiv_from_equiv};
ghost use Rattle.std.specs.Hash as fed;
ghost use Rattle.js_nfa.specs.AtomView.{atom_view};
ghost use Rattle.word_states.specs.SameAtom.{same_atom};
ghost use Rattle.state_laws.proofs.SameAtoms.{same_atom_equiv};
ghost use Rattle.js_nfa.specs.AtomFed.{atom_writes, atoms_Alike};

use crate::atom::Atom;
use js_doc::Memory;
use std::alloc::Global;
use std::hash::{Hash, Hasher};

impl Atom {
    /// A copy, which takes memory as the atom does.
    pub fn copy(&self, alloc: Global) -> Result<Atom, Memory>
        ensures { IfOk result (λ a. atom_view a ≡ atom_view self.now) }
    {
        match self {
            Atom::Match(re) => match re.copy(alloc) {
                Ok(re) => Ok(Atom::Match(re)),
                Err(_) => Err(Memory),
            },
            Atom::Words(words) => Ok(Atom::Words(words.copy(alloc)?)),
            Atom::LengthMin(n) => Ok(Atom::LengthMin(*n)),
        }
    }
}

impl PartialEq for Atom {
    ghost eq = { λ a b. same_atom (atom_view a) (atom_view b) };

    ghost laws = { partial_equiv_from_equiv (on_equiv atom_view same_atom_equiv) };

    fn eq(&self, other: &Atom) -> bool {
        match (self, other) {
            (Atom::Match(x), Atom::Match(y)) => x == y,
            (Atom::Words(x), Atom::Words(y)) => x == y,
            (Atom::LengthMin(x), Atom::LengthMin(y)) => x == y,
            _ => false,
        }
    }
}

impl Eq for Atom {
    ghost laws = { on_equiv atom_view same_atom_equiv };
}

impl Hash for Atom {
    ghost hash_input = { λ a. atom_writes (atom_view a) };

    ghost respects_eq = { (fed.on_Alike atom_view atoms_Alike).fed };

    fn hash<H: Hasher>(&self, state: &mut H) {
        match self {
            Atom::Match(re) => {
                state.write_u8(0);
                re.hash(state);
            }
            Atom::Words(words) => {
                state.write_u8(1);
                words.hash(state);
            }
            Atom::LengthMin(n) => {
                state.write_u8(2);
                n.hash(state);
            }
        }
    }
}
