//! What the literals of a set say of names: their atoms, and what each of them says by these.

ghost use Rattle.std.specs.Prelude.{◌≡◌, ◌<◌, ◌++◌, [], ◌∷◌, List, map, length, true, IfOk, OnOk};
ghost use Rattle.word_states.specs.Mention.{mention_all};
ghost use Rattle.word_states.specs.SameAtom.{same_atom};
ghost use Rattle.positions.specs.Position.{position_at};
ghost use Rattle.positions.specs.NameFormula as F;
ghost use Rattle.name_truths.specs.NameAtoms.{formula_of, formula_atoms, position_atoms};
ghost use Rattle.js_algebra.specs.View.{name_set_view};
ghost use Rattle.js_nfa.specs.AtomView.{atom_view};
ghost use Rattle.js_said.specs.Saying.{Says, MaySay};

use crate::numbers::{take_leaves, take_name, take_set};
use crate::said::Said;
use indexmap::IndexSet;
use js_algebra::{Core, NameSet, Node, Pos, Signed};
use js_doc::{Memory, Str};
use js_nfa::Atom;
use js_tableau::NamePlan;
use std::alloc::Global;

/// What literals say of names: the atoms of that, each once; the literals that say something; and what each of them
/// says.
#[derive(Drop)]
pub struct Taken {
    pub atoms: IndexSet<Atom>,
    pub names: Vec<Signed>,
    pub said: Vec<Said>,
}

impl Taken {
    ghost use Rattle.goals.specs.Signed as G;
    ghost use Rattle.js_algebra.specs.View.{signed_view, is_in_table, are_in_table};
    ghost use Rattle.js_said.specs.Saying.{AreTaken};

    /// What the literals of a set say.
    pub fn of(alloc: Global, core: &Core, set: &[Signed]) -> Result<Taken, Memory>
        requires { are_in_table core.now.positions (map signed_view set.now) ≡ true }
        ensures { IfOk result (λ t. AreTaken core.now.positions (map signed_view set.now)
            (map atom_view t.atoms.keys) t.names.items t.said.items) }
    {
        let mut taken = Taken {
            atoms: IndexSet::new(alloc),
            names: Vec::new(alloc),
            said: Vec::new(alloc),
        };
        for x in set {
            taken.take(alloc, core, *x)?;
        }
        Ok(taken)
    }

    /// Adds what a literal says.
    fn take(&mut self, alloc: Global, core: &Core, x: Signed) -> Result<(), Memory>
        requires { is_in_table core.now.positions (signed_view x) ≡ true }
        ensures { OnOk result ((xs : List G.Signed)
            → AreTaken core.now.positions xs (map atom_view self.old.atoms.keys) self.old.names.items
            self.old.said.items
            → AreTaken core.now.positions (xs ++ signed_view x ∷ []) (map atom_view self.new.atoms.keys)
            self.new.names.items self.new.said.items) }
    {
        match said_at(alloc, core, x.pos, &mut self.atoms)? {
            Some(said) => {
                self.names.push(x)?;
                self.said.push(said)?;
                Ok(())
            }
            None => Ok(()),
        }
    }
}

/// What a position says of names, where it says anything.
fn said_at(
    alloc: Global,
    core: &Core,
    p: Pos,
    atoms: &mut IndexSet<Atom>,
) -> Result<Option<Said>, Memory>
    requires { p.0 < length core.now.positions }
    ensures atoms { OnOk result (map atom_view atoms.new.keys ≡ mention_all same_atom (map atom_view atoms.old.keys)
        (position_atoms core.now.positions (formula_of (position_at core.now.positions p.0)))) }
    ensures said { IfOk result (λ o. MaySay core.now.positions (map atom_view atoms.new.keys) o
        (formula_of (position_at core.now.positions p.0))) }
{
    match core.node(p) {
        Node::Has(name) => Ok(Some(said_by_name(alloc, core, name, atoms)?)),
        Node::MembersOf(set, _) => Ok(Some(said_by_set(alloc, core, set, atoms)?)),
        Node::NamesIn(q) => Ok(Some(said_by_position(alloc, core, *q, atoms)?)),
        _ => Ok(None),
    }
}

/// That a name is that one.
fn said_by_name(
    alloc: Global,
    core: &Core,
    name: &Str,
    atoms: &mut IndexSet<Atom>,
) -> Result<Said, Memory>
    ensures atoms { OnOk result (map atom_view atoms.new.keys ≡ mention_all same_atom (map atom_view atoms.old.keys)
        (formula_atoms core.now.positions (F.Is name.now))) }
    ensures said { IfOk result (λ s. Says core.now.positions (map atom_view atoms.new.keys) s (F.Is name.now)) }
{
    let mut numbers = Vec::new(alloc);
    take_name(alloc, name, atoms, &mut numbers)?;
    Ok(Said::AnyOf(numbers))
}

/// That a name is in the set.
fn said_by_set(
    alloc: Global,
    core: &Core,
    set: &NameSet,
    atoms: &mut IndexSet<Atom>,
) -> Result<Said, Memory>
    ensures atoms { OnOk result (map atom_view atoms.new.keys ≡ mention_all same_atom (map atom_view atoms.old.keys)
        (formula_atoms core.now.positions (F.In (name_set_view set.now)))) }
    ensures said { IfOk result (λ s. Says core.now.positions (map atom_view atoms.new.keys) s
        (F.In (name_set_view set.now))) }
{
    let mut numbers = Vec::new(alloc);
    take_set(alloc, set, atoms, &mut numbers)?;
    match set {
        NameSet::Named(_) | NameSet::Matching(_) => Ok(Said::AnyOf(numbers)),
        NameSet::Others(_, _) => Ok(Said::NoneOf(numbers)),
    }
}

/// That the position holds of a name, as a string.
fn said_by_position(
    alloc: Global,
    core: &Core,
    q: Pos,
    atoms: &mut IndexSet<Atom>,
) -> Result<Said, Memory>
    requires { q.0 < length core.now.positions }
    ensures atoms { OnOk result (map atom_view atoms.new.keys ≡ mention_all same_atom (map atom_view atoms.old.keys)
        (formula_atoms core.now.positions (F.Holds q.0))) }
    ensures said { IfOk result (λ s. Says core.now.positions (map atom_view atoms.new.keys) s (F.Holds q.0)) }
{
    let plan = NamePlan::new(alloc, core, q)?;
    let mut numbers = Vec::new(alloc);
    take_leaves(alloc, core, plan.leaves(), atoms, &mut numbers)?;
    Ok(Said::Planned(plan, numbers))
}
