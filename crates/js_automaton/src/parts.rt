//! Atoms, made ready: their patterns apart, and the listed words in a trie.

ghost use Rattle.std.specs.Prelude.{◌≡◌, ◌<◌, ◌≤◌, ◌⊎◌, ◌++◌, [], ◌∷◌, ℕ, true, map, flat_map, length, get_or, IfOk, IfErr, OnOk};
ghost use Rattle.std.specs.List.{list_any};
ghost use Rattle.word_states.specs.Position.{count_of};
ghost use Rattle.js_pattern.specs.View.{view};
ghost use Rattle.js_nfa.specs.AtomView.{atom_view};
ghost use Rattle.js_nfa.specs.View.{tree_of};
ghost use Rattle.js_automaton.specs.declared.part.Part.TheVariants as part;
ghost use Rattle.js_automaton.specs.Parts.{are_placed, atoms_made, part_words};
ghost use Rattle.js_automaton.specs.Trie.{ends_at, edges_of, same_edge, with_words};
ghost use Rattle.word_states.specs.AtomPositions.{positions_of};

use crate::fault::AutoFault;
use crate::part::Part;
use crate::trie::Trie;
use crate::word_list::WordList;
use indexmap::IndexSet;
use js_doc::Memory;
use js_nfa::{Atom, Nfa, positions};
use js_pattern::Re;
use std::alloc::Global;

/// The patterns of the atoms, and their parts.
pub(crate) fn parts_of(alloc: Global, atoms: &[Atom]) -> Result<(Vec<Nfa>, Vec<Part>), AutoFault>
    ensures atoms { IfOk result (λ r. atoms_made r.0.items r.1.items ≡ map atom_view atoms.now) }
    ensures places { IfOk result (λ r. are_placed 0 r.1.items (length r.0.items) ≡ true) }
    ensures limit { IfErr result (λ fault. fault ≡ AutoFault.LimitPositions
        → 16384 < positions_of (map atom_view atoms.now)) }
    ensures only { IfErr result (λ fault. (fault ≡ AutoFault.LimitPositions) ⊎ (fault ≡ AutoFault.Memory)) }
{
    let mut patterns = Vec::new(alloc);
    let mut parts = Vec::with_capacity(alloc, atoms.len())?;
    for atom in atoms {
        match add_part(alloc, &mut patterns, &mut parts, atom) {
            Ok(()) => {}
            Err(fault) => return Err(fault),
        }
    }
    Ok((patterns, parts))
}

/// Adds the part of an atom.
fn add_part(
    alloc: Global,
    patterns: &mut Vec<Nfa>,
    parts: &mut Vec<Part>,
    atom: &Atom,
) -> Result<(), AutoFault>
    requires { are_placed 0 parts.old.items (length patterns.old.items) ≡ true }
    ensures atoms { OnOk result (atoms_made patterns.new.items parts.new.items
        ≡ atoms_made patterns.old.items parts.old.items ++ atom_view atom.now ∷ []) }
    ensures places { OnOk result (are_placed 0 parts.new.items (length patterns.new.items) ≡ true) }
    ensures limit { IfErr result (λ fault. fault ≡ AutoFault.LimitPositions
        → 16384 < positions_of (atom_view atom.now ∷ [])) }
    ensures only { IfErr result (λ fault. (fault ≡ AutoFault.LimitPositions) ⊎ (fault ≡ AutoFault.Memory)) }
{
    match atom {
        Atom::Match(re) => {
            let nfa = positions(alloc, re)?;
            parts.push(Part::Match(patterns.len()))?;
            patterns.push(nfa)?;
        }
        Atom::Words(words) => {
            let list = WordList::from_words(alloc, words.as_slice())?;
            parts.push(Part::Words(list))?;
        }
        Atom::LengthMin(n) => parts.push(Part::Length(*n))?,
    }
    Ok(())
}

/// The patterns, each ready to go on by each of these characters without a walk for it.
pub(crate) fn with_columns(
    alloc: Global,
    patterns: Vec<Nfa>,
    characters: &[char],
) -> Result<Vec<Nfa>, Memory>
    ensures { IfOk result (λ ready. map tree_of ready.items ≡ map tree_of patterns.items) }
{
    let mut ready = Vec::with_capacity(alloc, patterns.len())?;
    for nfa in patterns {
        ready.push(nfa.with_columns(alloc, characters)?)?;
    }
    Ok(ready)
}

/// The beginnings of the words of all lists.
pub(crate) fn trie_of(alloc: Global, parts: &[Part]) -> Result<Trie, Memory>
    ensures { IfOk result (λ t. t.edges.keys ≡ edges_of (flat_map part_words parts.now)) }
{
    let mut trie = Trie::new(alloc);
    for part in parts {
        add_words(&mut trie, part)?;
    }
    Ok(trie)
}

/// Adds the beginnings of the words of a list.
fn add_words(trie: &mut Trie, part: &Part) -> Result<(), Memory>
    ensures { OnOk result (trie.new.edges.keys ≡ with_words trie.old.edges.keys (part_words part.now)) }
{
    match part {
        Part::Words(list) => list.add_to(trie),
        Part::Match(_) | Part::Length(_) => Ok(()),
    }
}

/// The nodes to which the words of all lists lead, each with the place of its list.
pub(crate) fn ends_of(
    alloc: Global,
    trie: &Trie,
    parts: &[Part],
) -> Result<IndexSet<(usize, usize)>, Memory>
    requires { trie.now.edges.keys ≡ edges_of (flat_map part_words parts.now) }
    ensures { IfOk result (λ ends. (n k : ℕ) → list_any (same_edge (n, k)) ends.keys
        ≡ ends_at (flat_map part_words parts.now) (part_words (get_or parts.now k (part.Length 0))) n) }
{
    let mut ends = IndexSet::new(alloc);
    for (place, part) in parts.iter().enumerate() {
        if let Part::Words(list) = part {
            list.add_ends(trie, &mut ends, place)?;
        }
    }
    Ok(ends)
}
