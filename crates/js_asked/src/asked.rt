//! What the literals of a set require of words. Contracts see the atoms by `atoms_in`, and of a word by `asks` whether
//! it is as required.

ghost use Rattle.std.specs.Prelude.{◌≡◌, ◌&&◌, ℕ, List, map, true, IfOk, OnOk};
ghost use Rattle.std.specs.Bool.{beq};
ghost use Rattle.documents.specs.Tests.{every};

use crate::wish::{Asked, Wish};
use indexmap::IndexSet;
use js_algebra::{Core, Node, Signed};
use js_doc::Memory;
use js_nfa::Atom;
use std::alloc::Global;

impl Asked {
    ghost use Rattle.std.specs.Prelude.{◌<◌, length, get_or};
    ghost use Rattle.word_states.specs.Atom.{LengthMin, is_true};
    ghost use Rattle.word_states.specs.Mention.{mention, mention_all};
    ghost use Rattle.positions.specs.Position.{position_at};
    ghost use Rattle.goals.specs.Signed.{position_of};
    ghost use Rattle.word_states.specs.SameAtom.{same_atom};
    ghost use Rattle.finders.specs.Strings.{lower, word_atoms, length_atoms, string_atoms, wants, is_wanted};
    ghost use Rattle.js_algebra.specs.View.{signed_view, is_in_table, are_in_table};
    ghost use Rattle.js_nfa.specs.AtomView.{atom_view};
    ghost use Rattle.js_asked.specs.Wishes.{are_within};
    ghost use Rattle.js_asked.specs.Asking.{atoms_in, asks};

    /// What a set requires, with its lower bound.
    pub fn of(alloc: Global, core: &Core, set: &[Signed], least: u128) -> Result<Asked, Memory>
        requires in_table { are_in_table core.now.positions (map signed_view set.now) ≡ true }
        requires least { least ≡ lower core.now.positions (map signed_view set.now) }
        ensures atoms { IfOk result (λ a. atoms_in a ≡ string_atoms core.now.positions (map signed_view set.now)) }
        ensures words { IfOk result (λ a. (w : List ℕ)
            → asks a w ≡ is_wanted core.now.positions (map signed_view set.now) w) }
    {
        let mut asked = Asked {
            atoms: IndexSet::new(alloc),
            wishes: Vec::new(alloc),
        };
        for x in set {
            asked.take(alloc, core, *x)?;
        }
        if least > 0 {
            asked.wish(Atom::LengthMin(least), true)?;
        }
        Ok(asked)
    }

    /// Adds what a literal requires.
    fn take(&mut self, alloc: Global, core: &Core, x: Signed) -> Result<(), Memory>
        requires in_table { is_in_table core.now.positions (signed_view x) ≡ true }
        ensures atoms { OnOk result (atoms_in self.new ≡ mention_all same_atom (atoms_in self.old)
            (word_atoms (position_at core.now.positions (position_of (signed_view x))))) }
        ensures words { OnOk result ((w : List ℕ)
            → asks self.new w ≡ (asks self.old w && wants core.now.positions w (signed_view x))) }
    {
        match core.node(x.pos) {
            Node::Words(words) => self.wish(Atom::Words(words.copy(alloc)?), x.plus),
            Node::Match(pattern) => match pattern.re.copy(alloc) {
                Ok(re) => self.wish(Atom::Match(re), x.plus),
                Err(_) => Err(Memory),
            },
            _ => Ok(()),
        }
    }

    /// Adds the truth that an atom is to have.
    fn wish(&mut self, atom: Atom, truth: bool) -> Result<(), Memory>
        ensures atoms { OnOk result (atoms_in self.new ≡ mention same_atom (atoms_in self.old) (atom_view atom)) }
        ensures words { OnOk result ((w : List ℕ)
            → asks self.new w ≡ (asks self.old w && beq (is_true (atom_view atom) w) truth)) }
    {
        let (place, _) = self.atoms.insert_full(atom)?;
        self.wishes.push(Wish { atom: place, truth })?;
        Ok(())
    }

    /// The atoms, in order.
    pub fn atoms(&self) -> &[Atom]
        ensures { map atom_view result.now ≡ atoms_in self.now }
    {
        self.atoms.as_slice()
    }

    /// The required truths.
    pub fn wishes(&self) -> &[Wish]
        ensures value { result.now ≡ self.now.wishes.items }
        ensures within { are_within self.now.atoms.keys result.now ≡ true }
    {
        &self.wishes
    }
}
