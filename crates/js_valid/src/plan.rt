//! The entries of a schema in rising order of their ranks, where each of them is, where its references end, and the
//! values that it lists: made once for a document.

ghost use Rattle.std.specs.Prelude.{◌≡◌, ℕ, ◌<◌, nat_eq, IfOk, length, get_or, if◌then◌else◌};
ghost use Rattle.js_valid.specs.Plan.{StandAt, target_at};

use crate::targets::target_at;
use js_doc::{Doc, Memory};
use std::alloc::Global;

/// An order in which each entry comes after those that it names in place, and the place of each entry in it.
#[derive(Drop)]
pub(crate) struct Plan<'a> {
    pub(crate) order: Vec<u32>,
    pub(crate) places: Vec<usize>,

    /// The entry at which references from each one end.
    pub(crate) targets: Vec<u32>,

    /// The values of each entry's `enum`, in the order of documents.
    pub(crate) choices: Vec<Vec<&'a Doc>>,
}

impl Plan<'_> {
    /// The place of the entry; past the last one it is the first.
    pub(crate) fn place_of(&self, entry: u32) -> usize
        ensures { result ≡ get_or self.now.places.items entry 0 }
    {
        let number = entry as usize;
        if number < self.places.len() {
            return self.places[number];
        }
        0
    }

    /// The entry at which references from that one end; past the last one it is that one itself.
    pub(crate) fn target_of(&self, entry: u32) -> u32
        ensures { result ≡ target_at self.now.targets.items entry }
    {
        target_at(&self.targets, entry)
    }
}

/// Where each of so many entries is. It takes their number in time and memory.
pub(crate) fn places_of(alloc: Global, order: &[u32], count: usize) -> Result<Vec<usize>, Memory>
    requires { (k : ℕ) → k < length order.now → get_or order.now k 0 < count }
    ensures { IfOk result (λ places. (k : ℕ) → k < length order.now
        → StandAt order.now places.items (get_or order.now k 0)) }
{
    let mut places = vec![in alloc; 0; count]?;
    for (place, entry) in order.iter().enumerate() {
        put(&mut places, *entry, place);
    }
    Ok(places)
}

fn put(places: &mut Vec<usize>, entry: u32, place: usize)
    requires { entry < length places.old.items }
    ensures len { length places.new.items ≡ length places.old.items }
    ensures value { (j : ℕ) → get_or places.new.items j 0
        ≡ (if nat_eq entry j then place else get_or places.old.items j 0) }
{
    places[entry as usize] = place;
}
