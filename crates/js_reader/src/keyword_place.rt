//! The place of a keyword's value, with the numbers of the schemas there.
//!
//! A schema takes two look-ups at most, each of one token: no pointer is made.

ghost use Rattle.std.specs.Prelude.{◌≡◌, ◌++◌, ◌∷◌, [], chars, IfOk};
ghost use Rattle.schemas.specs.Places.{index_token};
ghost use Rattle.schemas.specs.Entries.{number_of};
ghost use Rattle.js_keywords.specs.Names.{keyword_name};
ghost use Rattle.js_pointers.specs.Table.{Leads};
ghost use Rattle.js_reader.specs.LeadsProp.{Leads-prop};
ghost use Rattle.js_reader.specs.NumbersView.{numbered, pointers_in};
ghost use Rattle.js_reader.specs.ObjectView.{numbers_of, place_of};

use crate::object::Object;
use js_doc::Memory;
use js_keywords::Keyword;

/// Where the keyword's value is in the object: the number of its pointer, where that is among those of places or leads
/// to one.
#[derive(Drop)]
pub(crate) struct KeywordPlace<'a> {
    object: &'a Object<'a>,
    keyword: Keyword,
    pointer: Option<u32>,
    ghost leads: { Leads (pointers_in (numbers_of object.now)) pointer
        (place_of object.now ++ keyword_name keyword ∷ []) } by { Leads-prop (pointers_in (numbers_of object.now))
            pointer (place_of object.now ++ keyword_name keyword ∷ []) },
}

impl<'a> KeywordPlace<'a> {
    ghost use Rattle.js_reader.specs.KeywordPlaceView.{places_about, at};

    #[tactic(auto, using(js_walk::proofs::MembersLemmas::keyword_names))]
    pub(crate) fn of(object: &'a Object<'a>, keyword: Keyword) -> KeywordPlace<'a>
        ensures places { places_about result ≡ numbered (numbers_of object.now) }
        ensures place { at result ≡ place_of object.now ++ keyword_name keyword ∷ [] }
    {
        let numbers = object.numbers();
        let pointer = numbers.below(Some(object.pointer()), keyword.name());
        KeywordPlace {
            object,
            keyword,
            pointer,
        }
    }

    /// The number of the schema that the value is.
    pub(crate) fn itself(&self) -> u32
        ensures { result ≡ number_of (places_about self.now) (at self.now) }
    {
        self.object.numbers().number(self.pointer)
    }

    /// The number of the element at `index` of the value.
    pub(crate) fn element(&self, index: usize) -> Result<u32, Memory>
        ensures { IfOk result
            (λ n. n ≡ number_of (places_about self.now) (at self.now ++ index_token index ∷ [])) }
    {
        let numbers = self.object.numbers();
        let pointer = numbers.below_index(self.pointer, index)?;
        Ok(numbers.number(pointer))
    }

    /// The number of the member of that name of the value.
    pub(crate) fn member(&self, name: &str) -> u32
        ensures { result ≡ number_of (places_about self.now) (at self.now ++ chars name.now ∷ []) }
    {
        let numbers = self.object.numbers();
        numbers.number(numbers.below(self.pointer, name))
    }
}
