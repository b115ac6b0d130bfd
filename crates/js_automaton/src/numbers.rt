//! The numbers of pieces: two pieces have one number where no divider distinguishes them.
//!
//! Each divider gives a piece a side, inside or outside, and the pieces of one number and one side get one number.

ghost use Rattle.std.specs.Prelude.{◌≡◌, ◌<◌, ◌≤◌, ◌&&◌, ◌||◌, ℕ, nat_eq, if◌then◌else◌, length, get_or, IfOk};
ghost use Rattle.patterns.specs.CharSet.{has, is_within};
ghost use Rattle.js_automaton.specs.Pieces.{AreRising, AreNumbers, AreSides, are_same_letter, are_like};

use crate::pieces::count_before;
use indexmap::IndexSet;
use js_pattern::{CharSet, Memory};
use std::alloc::Global;

/// The numbers of the pieces that start there.
pub(crate) fn numbers(
    alloc: Global,
    starts: &[u32],
    sets: &[CharSet],
    letters: &CharSet,
) -> Result<Vec<usize>, Memory>
    requires { AreRising starts.now }
    ensures { IfOk result (λ numbers. AreNumbers starts.now numbers.items (are_like sets.now letters.now)) }
{
    let mut numbers = letter_numbers(alloc, starts, letters)?;
    for set in sets {
        let sides = sides(alloc, starts, set)?;
        numbers = renumber(alloc, &numbers, &sides)?;
    }
    Ok(numbers)
}

/// The numbers of the pieces where nothing but letters distinguishes them.
fn letter_numbers(alloc: Global, starts: &[u32], letters: &CharSet) -> Result<Vec<usize>, Memory>
    requires { AreRising starts.now }
    ensures { IfOk result (λ numbers. AreNumbers starts.now numbers.items (are_same_letter letters.now)) }
{
    let sides = sides(alloc, starts, letters)?;
    let places = places_inside(alloc, starts, &sides)?;
    renumber(alloc, &sides, &places)
}

/// For each piece the place where it starts, or 0 where its side is 0.
fn places_inside(alloc: Global, starts: &[u32], sides: &[usize]) -> Result<Vec<usize>, Memory>
    requires { length sides.now ≡ length starts.now }
    ensures length { IfOk result (λ places. length places.items ≡ length starts.now) }
    ensures places { IfOk result (λ places. (i : ℕ) → i < length starts.now
        → get_or places.items i 0 ≡ (if nat_eq (get_or sides.now i 0) 0 then 0 else get_or starts.now i 0)) }
{
    let mut places = Vec::with_capacity(alloc, starts.len())?;
    for (i, start) in starts.iter().enumerate() {
        let place = if sides[i] == 0 { 0 } else { *start as usize };
        places.push(place)?;
    }
    Ok(places)
}

/// For each piece 1 where the set has it, and else 0.
fn sides(alloc: Global, starts: &[u32], set: &CharSet) -> Result<Vec<usize>, Memory>
    requires { AreRising starts.now }
    ensures { IfOk result (λ sides. AreSides starts.now sides.items (has set.now)) }
{
    let mut sides = vec![in alloc; 0; starts.len()]?;
    for range in set.as_slice() {
        add_range(starts, &mut sides, range.0, range.1);
    }
    Ok(sides)
}

/// Puts the pieces of a range inside.
fn add_range(starts: &[u32], sides: &mut Vec<usize>, low: u32, high: u32)
    requires order { AreRising starts.now }
    requires sides { length sides.old.items ≡ length starts.now }
    ensures length { length sides.new.items ≡ length starts.now }
    ensures sides { (i : ℕ) → i < length starts.now → get_or sides.new.items i 0
        ≡ (if is_within (low, high) (get_or starts.now i 0) then 1 else get_or sides.old.items i 0) }
{
    let mut i = count_before(starts, low);
    while i < starts.len() && starts[i] <= high {
        sides[i] = 1;
        i += 1;
    }
}

/// New numbers, by the old number and the side.
fn renumber(alloc: Global, old: &[usize], sides: &[usize]) -> Result<Vec<usize>, Memory>
    requires { length sides.now ≡ length old.now }
    ensures length { IfOk result (λ new. length new.items ≡ length old.now) }
    ensures numbers { IfOk result (λ new. (i j : ℕ) → i < length old.now → j < length old.now
        → nat_eq (get_or new.items i 0) (get_or new.items j 0)
        ≡ (nat_eq (get_or old.now i 0) (get_or old.now j 0) && nat_eq (get_or sides.now i 0) (get_or sides.now j 0))) }
{
    let mut keys = IndexSet::new(alloc);
    let mut new = Vec::with_capacity(alloc, old.len())?;
    for (i, number) in old.iter().enumerate() {
        let (place, _) = keys.insert_full((*number, sides[i]))?;
        new.push(place)?;
    }
    Ok(new)
}
