//! Atoms are taken, each once, and numbered in order of first mention.

ghost use Rattle.std.specs.Prelude.{◌≡◌, ◌+◌, ◌<◌, [], ◌∷◌, map, length, nat_lt, true, IfOk, OnOk};
ghost use Rattle.documents.specs.Tests.{every};
ghost use Rattle.word_states.specs.Atom as W;
ghost use Rattle.positions.specs.Position.{position_at};
ghost use Rattle.name_truths.specs.NameTruth.{own_atoms};
ghost use Rattle.name_truths.specs.NameAtoms.{set_atoms};
ghost use Rattle.name_laws.specs.Plans.{atoms_of, is_leaf};
ghost use Rattle.js_pattern.specs.View.{view};
ghost use Rattle.js_algebra.specs.View.{node_view, name_set_view, pattern_view, places};
ghost use Rattle.js_nfa.specs.AtomView.{atom_view};
ghost use Rattle.js_said.specs.AtomNumbers.{Takes};

use indexmap::IndexSet;
use js_algebra::{Core, NameSet, Node, Pattern, Pos};
use js_doc::{Memory, Str, StrList};
use js_nfa::Atom;
use std::alloc::Global;

/// Takes an atom, and adds its number.
fn take_atom(atom: Atom, atoms: &mut IndexSet<Atom>, numbers: &mut Vec<usize>) -> Result<(), Memory>
    ensures taken { OnOk result (Takes (map atom_view atoms.old.keys) (map atom_view atoms.new.keys)
        numbers.old.items numbers.new.items (atom_view atom ∷ [])) }
    ensures count { OnOk result (length numbers.new.items ≡ length numbers.old.items + 1) }
{
    let (number, _) = atoms.insert_full(atom)?;
    numbers.push(number)?;
    Ok(())
}

/// Takes the list of that one word.
pub(crate) fn take_name(
    alloc: Global,
    name: &Str,
    atoms: &mut IndexSet<Atom>,
    numbers: &mut Vec<usize>,
) -> Result<(), Memory>
    ensures { OnOk result (Takes (map atom_view atoms.old.keys) (map atom_view atoms.new.keys)
        numbers.old.items numbers.new.items (W.Words (name.now ∷ []) ∷ [])) }
{
    let word = name.copy(alloc)?;
    let words = StrList::from_vec(vec![in alloc; word]?);
    take_atom(Atom::Words(words), atoms, numbers)
}

fn take_pattern(
    alloc: Global,
    pattern: &Pattern,
    atoms: &mut IndexSet<Atom>,
    numbers: &mut Vec<usize>,
) -> Result<(), Memory>
    ensures { OnOk result (Takes (map atom_view atoms.old.keys) (map atom_view atoms.new.keys)
        numbers.old.items numbers.new.items (W.Match (view pattern.now.re) ∷ [])) }
{
    match pattern.re.copy(alloc) {
        Ok(re) => take_atom(Atom::Match(re), atoms, numbers),
        Err(_) => Err(Memory),
    }
}

/// Takes the atoms of a set of names: each name by itself, then the patterns.
pub(crate) fn take_set(
    alloc: Global,
    set: &NameSet,
    atoms: &mut IndexSet<Atom>,
    numbers: &mut Vec<usize>,
) -> Result<(), Memory>
    ensures { OnOk result (Takes (map atom_view atoms.old.keys) (map atom_view atoms.new.keys)
        numbers.old.items numbers.new.items (set_atoms (name_set_view set.now))) }
{
    match set {
        NameSet::Named(name) => take_name(alloc, name, atoms, numbers),
        NameSet::Matching(pattern) => take_pattern(alloc, pattern, atoms, numbers),
        NameSet::Others(names, patterns) => {
            take_names(alloc, names.as_slice(), atoms, numbers)?;
            take_patterns(alloc, patterns.as_slice(), atoms, numbers)?;
            Ok(())
        }
    }
}

fn take_names(
    alloc: Global,
    names: &[Str],
    atoms: &mut IndexSet<Atom>,
    numbers: &mut Vec<usize>,
) -> Result<(), Memory>
    ensures { OnOk result (Takes (map atom_view atoms.old.keys) (map atom_view atoms.new.keys)
        numbers.old.items numbers.new.items (map (λ n. W.Words (n ∷ [])) names.now)) }
{
    for name in names {
        take_name(alloc, name, atoms, numbers)?;
    }
    Ok(())
}

fn take_patterns(
    alloc: Global,
    patterns: &[Pattern],
    atoms: &mut IndexSet<Atom>,
    numbers: &mut Vec<usize>,
) -> Result<(), Memory>
    ensures { OnOk result (Takes (map atom_view atoms.old.keys) (map atom_view atoms.new.keys)
        numbers.old.items numbers.new.items (map (λ r. W.Match (view r.re)) patterns.now)) }
{
    for pattern in patterns {
        take_pattern(alloc, pattern, atoms, numbers)?;
    }
    Ok(())
}

/// Takes the atoms of the leaves of a plan, in order.
pub(crate) fn take_leaves(
    alloc: Global,
    core: &Core,
    leaves: &[Pos],
    atoms: &mut IndexSet<Atom>,
    numbers: &mut Vec<usize>,
) -> Result<(), Memory>
    requires within { every (λ q. nat_lt q (length core.now.positions)) (places leaves.now) ≡ true }
    requires leaves { every (λ q. is_leaf (position_at core.now.positions q)) (places leaves.now) ≡ true }
    ensures taken { OnOk result (Takes (map atom_view atoms.old.keys) (map atom_view atoms.new.keys)
        numbers.old.items numbers.new.items (atoms_of core.now.positions (places leaves.now))) }
    ensures count { OnOk result (length numbers.new.items ≡ length numbers.old.items + length leaves.now) }
{
    for leaf in leaves {
        let atom = leaf_atom(alloc, core.node(*leaf))?;
        take_atom(atom, atoms, numbers)?;
    }
    Ok(())
}

/// The atom of a leaf. That a word is no longer than some length is that it hasn't one character more.
fn leaf_atom(alloc: Global, node: &Node) -> Result<Atom, Memory>
    requires { is_leaf (node_view node.now) ≡ true }
    ensures { IfOk result (λ a. own_atoms (node_view node.now) ≡ atom_view a ∷ []) }
{
    match node {
        Node::Words(words) => Ok(Atom::Words(words.copy(alloc)?)),
        Node::Match(pattern) => match pattern.re.copy(alloc) {
            Ok(re) => Ok(Atom::Match(re)),
            Err(_) => Err(Memory),
        },
        Node::LengthMin(n) => Ok(Atom::LengthMin(u128::from(*n))),
        Node::LengthMax(n) => Ok(Atom::LengthMin(u128::from(*n) + 1)),
        _ => unreachable!(),
    }
}
