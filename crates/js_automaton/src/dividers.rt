//! The sets that distinguish characters, and the letters.

ghost use Rattle.std.specs.Prelude.{◌≡◌, ◌<◌, ◌&&◌, ℕ, map, flat_map, IfOk, OnOk, IsTrue, ◌↔◌};
ghost use Rattle.patterns.specs.CharSet.{has};
ghost use Rattle.word_states.specs.Classes.{are_alike, dividers};
ghost use Rattle.word_states.specs.Position.{copies, sets_of, sets_in};
ghost use Rattle.js_pattern.specs.View.{view, list_view};
ghost use Rattle.js_nfa.specs.AtomView.{atom_view};
ghost use Rattle.js_automaton.specs.Letters.{tree_sets};

use js_nfa::Atom;
use js_pattern::{CharSet, Memory, Re, ReList};
use std::alloc::Global;

/// The sets of all patterns.
pub(crate) fn sets_of(alloc: Global, atoms: &[Atom]) -> Result<Vec<CharSet>, Memory>
    ensures { IfOk result (λ sets. (c d : ℕ) → are_alike sets.items c d
        ≡ are_alike (flat_map tree_sets (map atom_view atoms.now)) c d) }
{
    let mut sets = Vec::new(alloc);
    for atom in atoms {
        add_atom(alloc, &mut sets, atom)?;
    }
    Ok(sets)
}

fn add_atom(alloc: Global, sets: &mut Vec<CharSet>, atom: &Atom) -> Result<(), Memory>
    ensures { OnOk result ((c d : ℕ) → are_alike sets.new.items c d
        ≡ (are_alike sets.old.items c d && are_alike (tree_sets (atom_view atom.now)) c d)) }
{
    match atom {
        Atom::Match(re) => add_tree(alloc, sets, re),
        Atom::Words(_) | Atom::LengthMin(_) => Ok(()),
    }
}

/// Adds the sets of a tree's positions. A repeated tree's are added once.
#[cycle(add)]
fn add_tree(alloc: Global, sets: &mut Vec<CharSet>, re: &Re) -> Result<(), Memory>
    ensures { OnOk result ((c d : ℕ) → are_alike sets.new.items c d
        ≡ (are_alike sets.old.items c d && are_alike (sets_of (view re.now)) c d)) }
{
    match re {
        Re::Empty | Re::Start | Re::End => Ok(()),
        Re::Set(set) => {
            sets.push(set.copy(alloc)?)?;
            Ok(())
        }
        Re::Seq(list) | Re::Alt(list) => add_list(alloc, sets, list),
        Re::Repeat(inner, low, high) => {
            if is_copied(*low, *high) {
                add_tree(alloc, sets, inner)
            } else {
                Ok(())
            }
        }
    }
}

/// Whether a repeated tree has a copy.
fn is_copied(low: u32, high: Option<u32>) -> bool
    ensures { IsTrue result ↔ (0 < copies low high) }
{
    match high {
        None => true,
        Some(high) => high > 0,
    }
}

#[cycle(add)]
fn add_list(alloc: Global, sets: &mut Vec<CharSet>, list: &ReList) -> Result<(), Memory>
    ensures { OnOk result ((c d : ℕ) → are_alike sets.new.items c d
        ≡ (are_alike sets.old.items c d && are_alike (sets_in (list_view list.now)) c d)) }
{
    for re in list.as_slice() {
        add_tree(alloc, sets, re)?;
    }
    Ok(())
}
