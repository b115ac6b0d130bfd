//! Where the value of a keyword is, and what is in it.
//!
//! A pointer is made only where a fault is reported. It takes memory in proportion to its length.

ghost use Rattle.std.specs.Prelude.{◌≡◌, ◌++◌, ◌∷◌, [], Some, IfOk};
ghost use Rattle.schemas.specs.Places.{index_token};
ghost use Rattle.schemas.specs.Fault as F;
ghost use Rattle.js_keywords.specs.FaultView.{Tells};
ghost use Rattle.js_keywords.specs.Names.{keyword_name};
ghost use Rattle.js_keywords.specs.Words.{value_place};

use crate::fault::SchemaFault;
use crate::keyword::Keyword;
use js_doc::{Memory, Str};
use js_json::Pointer;
use std::alloc::Global;

/// The value of a keyword, by the pointer of the object that has it.
#[derive(Clone, Copy, Drop)]
pub(crate) struct ValuePlace<'a> {
    pub(crate) alloc: Global,
    pub(crate) object: &'a Pointer,
    pub(crate) keyword: Keyword,
}

impl<'a> ValuePlace<'a> {
    ghost use Rattle.js_keywords.specs.ValuePlaceView.{name_at, place_of};

    /// The pointer of the value.
    #[tactic(auto, using(crate::proofs::WordsLemmas::keyword_names))]
    pub(crate) fn pointer(&self) -> Result<Pointer, Memory>
        ensures { IfOk result (λ q. q ≡ place_of self.now) }
    {
        let mut pointer = self.object.copy(self.alloc)?;
        pointer.push_name(self.keyword.name())?;
        Ok(pointer)
    }

    /// The pointer of an element of the value.
    #[tactic(auto, using(crate::proofs::WordsLemmas::index_tokens))]
    pub(crate) fn element(&self, index: usize) -> Result<Pointer, Memory>
        ensures { IfOk result (λ q. q ≡ place_of self.now ++ index_token index ∷ []) }
    {
        let mut pointer = self.pointer()?;
        pointer.push_index(index)?;
        Ok(pointer)
    }

    /// The pointer of a member of the value.
    pub(crate) fn member(&self, name: &Str) -> Result<Pointer, Memory>
        ensures { IfOk result (λ q. q ≡ place_of self.now ++ name.now ∷ []) }
    {
        let mut pointer = self.pointer()?;
        pointer.push_name(name.as_text())?;
        Ok(pointer)
    }

    /// The pointer of an element of a member's list.
    #[tactic(auto, using(crate::proofs::WordsLemmas::index_tokens))]
    pub(crate) fn member_element(&self, name: &Str, index: usize) -> Result<Pointer, Memory>
        ensures { IfOk result (λ q. q ≡ (place_of self.now ++ name.now ∷ []) ++ index_token index ∷ []) }
    {
        let mut pointer = self.member(name)?;
        pointer.push_index(index)?;
        Ok(pointer)
    }

    /// The fault of a value that isn't what the keyword requires.
    pub(crate) fn wrong_shape(&self) -> SchemaFault
        ensures { Tells (Some (F.WrongShape (name_at self.now) (place_of self.now))) result }
    {
        match self.pointer() {
            Ok(pointer) => SchemaFault::WrongShape(self.keyword, pointer),
            Err(_) => SchemaFault::Memory,
        }
    }
}

/// The fault of a keyword's value, in the object at `object`, that isn't what the keyword requires.
pub fn wrong_shape(alloc: Global, object: &Pointer, keyword: Keyword) -> SchemaFault
    ensures { Tells (Some (F.WrongShape (keyword_name keyword) (value_place object.now keyword))) result }
{
    let place = ValuePlace {
        alloc,
        object,
        keyword,
    };
    place.wrong_shape()
}
