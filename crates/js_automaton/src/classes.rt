//! Classes of characters: those that no atom distinguishes.
//!
//! A class is found from its first character, which is the first that lies in none before. So classes come in the order
//! of their first characters. A class is made of the pieces that have one number, and costs a look at each piece.

ghost use Rattle.std.specs.Prelude.{◌≡◌, ◌<◌, ◌≤◌, ◌⊎◌, length, map, IfOk, OnOk, IfErr};
ghost use Rattle.word_states.specs.Classes.{dividers, class_firsts, class_count};
ghost use Rattle.js_nfa.specs.AtomView.{atom_view};
ghost use Rattle.js_automaton.specs.ClassView.{AreClasses, first_of};

use crate::alike::{everything, find_pieces, meet};
use crate::class_set::class_of;
use crate::fault::AutoFault;
use js_doc::Memory;
use js_nfa::Atom;
use js_pattern::CharSet;
use std::alloc::Global;

/// The most classes that atoms may have.
const MOST: usize = 1024;

/// A class, and the first of its characters.
#[derive(Drop)]
pub(crate) struct Class {
    pub(crate) set: CharSet,
    pub(crate) first: char,
}

/// The first character of each class.
pub(crate) fn firsts(alloc: Global, classes: &[Class]) -> Result<Vec<char>, Memory>
    ensures { IfOk result (λ firsts. firsts.items ≡ map first_of classes.now) }
{
    let mut firsts = Vec::with_capacity(alloc, classes.len())?;
    for class in classes {
        firsts.push(class.first)?;
    }
    Ok(firsts)
}

/// The classes of characters, unless there are more than 1,024.
pub(crate) fn classes(alloc: Global, atoms: &[Atom]) -> Result<Vec<Class>, AutoFault>
    ensures firsts { IfOk result (λ cs. map first_of cs.items ≡ class_firsts (map atom_view atoms.now)) }
    ensures classes { IfOk result (λ cs. AreClasses (dividers (map atom_view atoms.now)) cs.items) }
    ensures few { IfOk result (λ cs. length cs.items ≤ 1024) }
    ensures within { OnOk result (class_count (map atom_view atoms.now) ≤ 1024) }
    ensures limit { IfErr result (λ fault. fault ≡ AutoFault.LimitClasses
        → 1024 < class_count (map atom_view atoms.now)) }
    ensures only { IfErr result (λ fault. (fault ≡ AutoFault.LimitClasses) ⊎ (fault ≡ AutoFault.Memory)) }
{
    let pieces = find_pieces(alloc, atoms)?;
    let mut classes = Vec::new(alloc);
    let mut left = everything(alloc)?;
    while let Some(first) = left.first() {
        if classes.len() == MOST {
            return Err(AutoFault::LimitClasses);
        }
        let set = class_of(alloc, &pieces.starts, &pieces.numbers, first)?;
        left = meet(&left, &set.complement()?)?;
        classes.push(Class { set, first })?;
    }
    Ok(classes)
}
