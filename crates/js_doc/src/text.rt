//! Owned texts, seen as their scalar values, and the fault of memory that was refused.

ghost use Rattle.std.specs.Prelude.{◌≡◌, IfOk, chars, encode_utf8_all, nat_eq, string_bytes};
ghost use Rattle.std.specs.Cmp.{partial_equiv_from_equiv};
ghost use Rattle.std.specs.Cmp.Lexicographic.{bytes_decides, nat_list_eq_equiv, pointwise};
ghost use Rattle.std.specs.Hash as fed;

use std::alloc::{AllocError, AllocFailed, Global};
use std::hash::{Hash, Hasher};
use std::marker::Model;

/// Memory was requested and refused. No call says when: every other answer has a cause of its own.
#[derive(Clone, Copy, PartialEq, Eq, Debug)]
pub struct Memory;

impl From<AllocError> for Memory {
    fn from(_: AllocError) -> Memory {
        Memory
    }
}

impl<T: Drop> From<AllocFailed<T>> for Memory {
    fn from(_: AllocFailed<T>) -> Memory {
        Memory
    }
}

/// A text, seen as the list of its Unicode scalar values.
#[derive(Drop)]
pub struct Str {
    text: String,
}

impl Model for Str {
    ghost use Rattle.std.specs.Prelude.{ℕ, List, chars, string_bytes};

    ghost Value = { List ℕ };

    ghost view = { λ s. chars (string_bytes s.text) };
}

impl Str {
    /// A copy of `text`.
    pub fn from_text(alloc: Global, text: &str) -> Result<Str, Memory>
        ensures { IfOk result (λ s. s ≡ chars text.now) }
    {
        Ok(Str {
            text: String::from_str(alloc, text)?,
        })
    }

    /// The text that `text` holds, without a copy.
    pub fn from_string(text: String) -> Str
        ensures { result ≡ chars (string_bytes text) }
    {
        Str { text }
    }

    /// The text as UTF-8, lent without a copy.
    pub fn as_text(&self) -> &str
        ensures bytes { result.now ≡ encode_utf8_all self.now }
        ensures text { chars result.now ≡ self.now }
    {
        self.text.as_str()
    }

    /// A copy, which takes memory of its own.
    pub fn copy(&self, alloc: Global) -> Result<Str, Memory>
        ensures { IfOk result (λ s. s ≡ self.now) }
    {
        Str::from_text(alloc, self.as_text())
    }
}

impl Clone for Str {
    ghost is_clone = { λ s t. t ≡ s };

    fn clone(&self) -> Result<Str, AllocError> {
        Ok(Str {
            text: self.text.clone()?,
        })
    }
}

/// Texts are equal where their scalar values are.
impl PartialEq for Str {
    ghost eq = { pointwise nat_eq };

    ghost laws = { partial_equiv_from_equiv nat_list_eq_equiv };

    fn eq(&self, other: &Str) -> bool {
        self.as_text() == other.as_text()
    }
}

impl Eq for Str {
    ghost laws = { nat_list_eq_equiv };
}

impl Hash for Str {
    ghost hash_input = { λ s. fed.str (encode_utf8_all s) };

    ghost respects_eq = { (fed.same_Alike (λ s. fed.str (encode_utf8_all s)) bytes_decides).fed };

    fn hash<H: Hasher>(&self, state: &mut H) {
        self.as_text().hash(state);
    }
}
