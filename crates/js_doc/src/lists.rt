//! Lists that contracts see as lists. Each is made of a `Vec` and gives it back without taking memory.

ghost use Rattle.std.specs.Prelude.{◌≡◌, IfOk, encode_utf8_all, nat_eq};
ghost use Rattle.std.specs.Cmp.{partial_equiv_from_equiv};
ghost use Rattle.std.specs.Cmp.Lexicographic.{bytes_decides, lists_equiv, nat_list_eq_equiv, pointwise};
ghost use Rattle.std.specs.Hash as fed;

use crate::text::{Memory, Str};
use std::alloc::{AllocError, Global};
use std::hash::{Hash, Hasher};
use std::marker::Model;

/// A list of texts.
#[derive(Drop)]
pub struct StrList {
    items: Vec<Str>,
}

impl Model for StrList {
    ghost use Rattle.std.specs.Prelude.{ℕ, List};

    ghost Value = { List (List ℕ) };

    ghost view = { λ l. l.items.items };
}

impl StrList {
    /// Takes the vector over, without a copy.
    pub fn from_vec(items: Vec<Str>) -> StrList
        ensures { result ≡ items.items }
    {
        StrList { items }
    }

    /// Gives the vector back, without a copy.
    pub fn into_vec(self) -> Vec<Str>
        ensures { result.items ≡ self }
    {
        let StrList { items } = self;
        items
    }

    /// A copy, which takes memory of its own.
    pub fn copy(&self, alloc: Global) -> Result<StrList, Memory>
        ensures { IfOk result (λ l. l ≡ self.now) }
    {
        let mut items = Vec::with_capacity(alloc, self.items.len())?;
        for text in &self.items {
            items.push(text.copy(alloc)?)?;
        }
        Ok(StrList { items })
    }

    /// The elements in order, lent without a copy.
    pub fn as_slice(&self) -> &[Str]
        ensures { result.now ≡ self.now }
    {
        self.items.as_slice()
    }
}

impl Clone for StrList {
    ghost is_clone = { λ l m. m ≡ l };

    fn clone(&self) -> Result<StrList, AllocError> {
        Ok(StrList {
            items: self.items.clone()?,
        })
    }
}

/// Lists are equal where their texts are, in order.
impl PartialEq for StrList {
    ghost eq = { pointwise (pointwise nat_eq) };

    ghost laws = { partial_equiv_from_equiv (lists_equiv nat_list_eq_equiv) };

    fn eq(&self, other: &StrList) -> bool {
        self.items == other.items
    }
}

impl Eq for StrList {
    ghost laws = { lists_equiv nat_list_eq_equiv };
}

impl Hash for StrList {
    ghost hash_input = { fed.slice (λ s. fed.str (encode_utf8_all s)) };

    ghost respects_eq = { (fed.items_Alike (fed.same_Alike (λ s. fed.str (encode_utf8_all s)) bytes_decides)).fed };

    fn hash<H: Hasher>(&self, state: &mut H) {
        self.items.as_slice().hash(state);
    }
}
