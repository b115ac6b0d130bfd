//! The pieces that no divider cuts: the characters between two places where a divider may begin or end.

ghost use Rattle.std.specs.Prelude.{◌≡◌, ◌<◌, ◌≤◌, ◌+◌, ℕ, min, IfOk, OnOk, length, get_or};
ghost use Rattle.std.specs.List.{Contains};
ghost use Rattle.patterns.specs.CharSet.{has, is_within};
ghost use Rattle.js_automaton.specs.Pieces.{AreKept, HasEnds, HasEach, AreRising, ArePlaces, are_like};

use js_pattern::{CharSet, Memory};
use std::alloc::Global;

/// The places where pieces start, in order.
pub(crate) fn starts(alloc: Global, sets: &[CharSet], letters: &CharSet) -> Result<Vec<u32>, Memory>
    ensures order { IfOk result (λ starts. AreRising starts.items) }
    ensures places { IfOk result (λ starts. ArePlaces starts.items (are_like sets.now letters.now)) }
{
    let mut places = places(alloc, sets, letters)?;
    places.sort_unstable();
    places.dedup();
    Ok(places)
}

/// The places where a set begins or ends, each letter, and the place after it, in any order.
fn places(alloc: Global, sets: &[CharSet], letters: &CharSet) -> Result<Vec<u32>, Memory>
    ensures { IfOk result (λ places. ArePlaces places.items (are_like sets.now letters.now)) }
{
    let mut places = Vec::from_slice(alloc, &[0, 0xd800, 0xe000, 0x110000])?;
    add_letters(&mut places, letters)?;
    for set in sets {
        add_ends(&mut places, set)?;
    }
    Ok(places)
}

/// Adds the places where a set begins or ends.
fn add_ends(places: &mut Vec<u32>, set: &CharSet) -> Result<(), Memory>
    ensures old { OnOk result (AreKept places.old.items places.new.items) }
    ensures ends { OnOk result (HasEnds places.new.items set.now) }
{
    for range in set.as_slice() {
        places.push(range.0)?;
        places.push(range.1.saturating_add(1))?;
    }
    Ok(())
}

/// Adds each letter, and the place after it.
fn add_letters(places: &mut Vec<u32>, letters: &CharSet) -> Result<(), Memory>
    ensures old { OnOk result (AreKept places.old.items places.new.items) }
    ensures each { OnOk result (HasEach places.new.items (has letters.now)) }
{
    for range in letters.as_slice() {
        add_span(places, range.0, range.1)?;
    }
    Ok(())
}

/// Adds the characters from one to another, and the place after them.
fn add_span(places: &mut Vec<u32>, low: u32, high: u32) -> Result<(), Memory>
    ensures old { OnOk result (AreKept places.old.items places.new.items) }
    ensures each { OnOk result (HasEach places.new.items (is_within (low, high))) }
{
    let mut place = low;
    while place < high {
        places.push(place)?;
        place += 1;
    }
    places.push(high)?;
    places.push(high.saturating_add(1))?;
    Ok(())
}

/// How many pieces start before a place.
pub(crate) fn count_before(starts: &[u32], place: u32) -> usize
    requires { AreRising starts.now }
    ensures within { result ≤ length starts.now }
    ensures before { (i : ℕ) → i < result → get_or starts.now i 0 < place }
    ensures after { (i : ℕ) → result ≤ i → i < length starts.now → place ≤ get_or starts.now i 0 }
{
    starts.partition_point(|start| *start < place)
}
