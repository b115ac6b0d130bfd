//! Places that are still to be looked at, the greatest first, each once.

ghost use Rattle.std.specs.Prelude.{◌≡◌, ℕ, ◌<◌, ◌≤◌, ◌||◌, ◌++◌, ◌∷◌, [], nat_eq, true, OnOk, MatchOption};
ghost use Rattle.std.specs.BinaryHeap.{heap_items, IsHeap};
ghost use Rattle.std.specs.Ordering.{nat_cmp};
ghost use Rattle.js_match.specs.Places.{is_at};

use js_doc::Memory;
use std::alloc::Global;
use std::collections::BinaryHeap;
use std::marker::Model;

/// A set of places, seen as a rising list.
///
/// The heap may have a place more than once. Equal places come out one after another, so that a place is dropped where
/// it is taken, and none is looked for where it is added.
#[derive(Drop)]
pub(crate) struct Pending {
    places: BinaryHeap<usize>,
}

impl Model for Pending {
    ghost use Rattle.std.specs.Prelude.{ℕ, List};
    ghost use Rattle.std.specs.BinaryHeap.{heap_items, IsHeap};
    ghost use Rattle.std.specs.Ordering.{nat_cmp};
    ghost use Rattle.js_valid.specs.PendingPlaces.{rising};

    ghost Value = { List ℕ };

    ghost view = { λ p. rising (heap_items p.places) };

    ghost invariant = { λ p. IsHeap nat_cmp (heap_items p.places) };
}

impl Pending {
    pub(crate) fn new(alloc: Global) -> Pending
        ensures { result ≡ [] }
    {
        Pending {
            places: BinaryHeap::new(alloc),
        }
    }

    /// Logarithmic in the number of places.
    pub(crate) fn add(&mut self, place: usize) -> Result<(), Memory>
        ensures { OnOk result ((k : ℕ) → is_at k self.new ≡ (is_at k self.old || nat_eq place k)) }
    {
        self.places.push(place)?;
        Ok(())
    }

    /// Takes the greatest place out.
    pub(crate) fn pop(&mut self) -> Option<usize>
        ensures { MatchOption result (self.old ≡ [])
            (λ place. (self.old ≡ self.new ++ place ∷ []) × ((k : ℕ) → is_at k self.new ≡ true → k < place)) }
    {
        let place = self.places.pop()?;
        while is_top(&self.places, place) {
            self.places.pop();
        }
        Some(place)
    }
}

/// Whether the place, which none of the heap is beyond, is in the heap.
fn is_top(places: &BinaryHeap<usize>, place: usize) -> bool
    requires heap { IsHeap nat_cmp (heap_items places.now) }
    requires most { (k : ℕ) → is_at k (heap_items places.now) ≡ true → k ≤ place }
    ensures { result ≡ is_at place (heap_items places.now) }
{
    match places.peek() {
        None => false,
        Some(top) => *top == place,
    }
}
