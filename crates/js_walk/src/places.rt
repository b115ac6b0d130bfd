//! The places of a file that are done, in the order in which they were met, each found by the number of its pointer.
//!
//! A look-up takes no hashing.

ghost use Rattle.std.specs.Prelude.{◌≡◌, ◌≤◌, ◌<◌, ◌++◌, ◌∷◌, [], ℕ, true, map, length, get_or, chars, nat_lt, IfOk};
ghost use Rattle.documents.specs.Tests.{every};
ghost use Rattle.schemas.specs.Places.{Pointer as P, index_token};
ghost use Rattle.schemas.specs.Entries.{number_of};
ghost use Rattle.js_doc.specs.JsonView.{view};
ghost use Rattle.js_pointers.specs.PointersView.{pointers_of};
ghost use Rattle.js_pointers.specs.Table.{Leads};

use crate::done_list::DoneList;
use js_doc::{Json, Memory};
use js_pointers::Pointers;
use std::alloc::Global;

/// Places in their order, no two of them the same.
#[derive(Drop)]
pub struct Places<'a> {
    pointers: Pointers,
    done: DoneList<'a>,
    ghost within: { every (λ e. nat_lt e.0 (length (pointers_of pointers))) done ≡ true },
}

impl<'a> Places<'a> {
    ghost use Rattle.js_walk.specs.PlacesView.{pointers_in, places_view, targets_of};
    ghost use Rattle.js_walk.specs.Walking.{done_places};

    pub(crate) fn new(pointers: Pointers, done: DoneList<'a>) -> Places<'a>
        requires { every (λ e. nat_lt e.0 (length (pointers_of pointers))) done ≡ true }
        ensures pointers { pointers_in result ≡ pointers_of pointers }
        ensures places { places_view result ≡ done_places (pointers_of pointers) done.entry }
        ensures targets { targets_of result ≡ map (λ e. e.1.target) done.entry }
    {
        Places { pointers, done }
    }

    /// How many places there are. Their numbers are those below it.
    pub fn len(&self) -> usize
        ensures { result ≡ length (places_view self.now) }
    {
        self.done.len()
    }

    /// The place with that number: the number of its pointer, and its value.
    pub fn place(&self, number: usize) -> (u32, &'a Json)
        requires { number < length (places_view self.now) }
        ensures place { (get_or (pointers_in self.now) result.0 [], view result.1.now)
            ≡ get_or (places_view self.now) number (get_or (pointers_in self.now) result.0 [], view result.1.now) }
        ensures pointer { result.0 < length (pointers_in self.now) }
    {
        let (pointer, done) = self.done.entry(number);
        (*pointer, done.value)
    }

    /// Where the reference of the place with that number leads, if it has one.
    pub fn target(&self, number: usize) -> Option<u32>
        requires { number < length (places_view self.now) }
        ensures { result ≡ get_or (targets_of self.now) number result }
    {
        self.done.entry(number).1.target
    }

    /// The number of the place with that pointer, or how many there are where it isn't among them.
    pub fn number(&self, at: Option<u32>) -> usize
        ensures place { (p : P) → Leads (pointers_in self.now) at p → result ≡ number_of (places_view self.now) p }
        ensures most { result ≤ length (places_view self.now) }
    {
        match at {
            Some(pointer) => match self.done.number(pointer) {
                Some(number) => number,
                None => self.done.len(),
            },
            None => self.done.len(),
        }
    }

    /// The number of the pointer that goes on from one by a token, where it is there.
    pub fn below(&self, at: Option<u32>, token: &str) -> Option<u32>
        ensures { (p : P) → Leads (pointers_in self.now) at p
            → Leads (pointers_in self.now) result (p ++ chars token.now ∷ []) }
    {
        self.pointers.below(at, token)
    }

    /// `below` with the token of the element at `index`.
    pub fn below_index(&self, at: Option<u32>, index: usize) -> Result<Option<u32>, Memory>
        ensures { IfOk result (λ found. (p : P) → Leads (pointers_in self.now) at p
            → Leads (pointers_in self.now) found (p ++ index_token index ∷ [])) }
    {
        self.pointers.below_index(at, index)
    }

    /// All pointers, by the same numbers.
    pub fn into_pointers(self) -> Pointers
        ensures { pointers_of result ≡ pointers_in self.entry }
    {
        let Places { pointers, done: _ } = self;
        pointers
    }
}
