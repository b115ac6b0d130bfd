//! The places of a schema with their numbers, which are those of its entries.

ghost use Rattle.std.specs.Prelude.{◌≡◌, ◌≤◌, ◌<◌, ◌++◌, ◌∷◌, [], map, length, get_or, chars, IfOk};
ghost use Rattle.schemas.specs.Places.{Pointer, index_token};
ghost use Rattle.schemas.specs.Entries.{number_of};
ghost use Rattle.js_doc.specs.JsonView.{view};
ghost use Rattle.js_pointers.specs.PointersView.{pointers_of};
ghost use Rattle.js_pointers.specs.Table.{Leads};
ghost use Rattle.js_walk.specs.PlacesView.{places_view};

use js_doc::{Json, Memory};
use js_pointers::Pointers;
use js_walk::Places;

/// All places of a schema. There are few enough for 32 bits.
#[derive(Drop)]
pub(crate) struct Numbers<'a> {
    places: Places<'a>,
    ghost few: { length (places_view places) ≤ 2147483647 },
}

impl<'a> Numbers<'a> {
    ghost use Rattle.js_reader.specs.NumbersView.{places_in, numbered, pointers_in, pointer_at, targets_in};

    pub(crate) fn new(places: Places<'a>) -> Numbers<'a>
        requires { length (places_view places) ≤ 2147483647 }
        ensures { places_in result ≡ places.entry }
    {
        Numbers { places }
    }

    /// The number of the place with that pointer, or how many there are where it isn't among them.
    pub(crate) fn number(&self, pointer: Option<u32>) -> u32
        ensures { (p : Pointer) → Leads (pointers_in self.now) pointer p → result ≡ number_of (numbered self.now) p }
    {
        self.places.number(pointer) as u32
    }

    /// The number of the pointer with one more token.
    pub(crate) fn below(&self, pointer: Option<u32>, token: &str) -> Option<u32>
        ensures { (p : Pointer) → Leads (pointers_in self.now) pointer p
            → Leads (pointers_in self.now) result (p ++ chars token.now ∷ []) }
    {
        self.places.below(pointer, token)
    }

    /// The number of the pointer to the element at `index`.
    pub(crate) fn below_index(
        &self,
        pointer: Option<u32>,
        index: usize,
    ) -> Result<Option<u32>, Memory>
        ensures { IfOk result (λ below. (p : Pointer) → Leads (pointers_in self.now) pointer p
            → Leads (pointers_in self.now) below (p ++ index_token index ∷ [])) }
    {
        self.places.below_index(pointer, index)
    }

    pub(crate) fn len(&self) -> usize
        ensures { result ≡ length (numbered self.now) }
    {
        self.places.len()
    }

    /// The place with that number: the number of its pointer, and its value.
    pub(crate) fn place(&self, number: usize) -> (u32, &'a Json)
        requires { number < length (numbered self.now) }
        ensures place { (pointer_at self.now result.0, view result.1.now) ≡ get_or (numbered self.now) number
            (pointer_at self.now result.0, view result.1.now) }
        ensures placed { result.0 < length (pointers_in self.now) }
    {
        self.places.place(number)
    }

    /// The number of the pointer to which the reference of that place leads, where it has one.
    pub(crate) fn target(&self, number: usize) -> Option<u32>
        requires { number < length (numbered self.now) }
        ensures { result ≡ get_or (targets_in self.now) number result }
    {
        self.places.target(number)
    }

    /// All pointers, by the same numbers.
    pub(crate) fn into_pointers(self) -> Pointers
        ensures { pointers_of result ≡ pointers_in self.entry }
    {
        let Numbers { places } = self;
        places.into_pointers()
    }
}
