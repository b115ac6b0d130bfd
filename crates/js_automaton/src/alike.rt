//! The pieces of characters that no atom distinguishes.
//!
//! The places where a divider may begin or end are sorted once, and a divider costs the pieces, and not the classes.

ghost use Rattle.std.specs.Prelude.{◌≡◌, ◌&&◌, ℕ, map, IfOk};
ghost use Rattle.patterns.specs.CharSet.{has, is_scalar};
ghost use Rattle.word_states.specs.Classes.{are_alike, dividers};
ghost use Rattle.js_nfa.specs.AtomView.{atom_view};
ghost use Rattle.js_automaton.specs.Pieces.{AreNumbered};

use crate::dividers::sets_of;
use crate::letters::letters;
use crate::numbers::numbers;
use crate::pieces::starts;
use js_nfa::Atom;
use js_pattern::{CharSet, Memory};
use std::alloc::Global;

/// Where pieces start, and the number of each: the pieces of one class have one number.
#[derive(Drop)]
pub(crate) struct Pieces {
    pub(crate) starts: Vec<u32>,
    pub(crate) numbers: Vec<usize>,
}

/// The pieces that no atom divides.
pub(crate) fn find_pieces(alloc: Global, atoms: &[Atom]) -> Result<Pieces, Memory>
    ensures { IfOk result (λ p. AreNumbered (are_alike (dividers (map atom_view atoms.now)))
        p.starts.items p.numbers.items) }
{
    let sets = sets_of(alloc, atoms)?;
    let letters = letters(alloc, atoms)?;
    let starts = starts(alloc, &sets, &letters)?;
    let numbers = numbers(alloc, &starts, &sets, &letters)?;
    Ok(Pieces { starts, numbers })
}

/// All characters.
pub(crate) fn everything(alloc: Global) -> Result<CharSet, Memory>
    ensures { IfOk result (λ set. (d : ℕ) → has set d ≡ is_scalar d) }
{
    CharSet::from_slice(alloc, &[])?.complement()
}

/// The characters of both sets.
pub(crate) fn meet(a: &CharSet, b: &CharSet) -> Result<CharSet, Memory>
    ensures { IfOk result (λ both. (d : ℕ) → has both d ≡ (is_scalar d && (has a.now d && has b.now d))) }
{
    let outside = a.complement()?.union(&b.complement()?)?;
    outside.complement()
}
