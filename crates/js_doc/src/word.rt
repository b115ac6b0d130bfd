//! Texts of which it stays known that they are Unicode scalar values.

ghost use Rattle.std.specs.Prelude.{◌≡◌, true, IfOk, chars, encode_utf8_all};
ghost use Rattle.documents.specs.Tests.{every, is_scalar};

use crate::text::{Memory, Str};
use std::alloc::Global;

/// A text in a document or a JSON value. A contract sees that each of its values is a Unicode scalar value, wherever
/// the text is.
#[derive(Drop)]
pub struct Word {
    text: Str,
    pub ghost scalar: { every is_scalar text ≡ true },
}

impl Word {
    /// Takes the text over. Nothing is tested at run time: every `Str` consists of scalar values.
    pub fn new(text: Str) -> Word
        ensures { result.text ≡ text }
    {
        // The clauses of `as_text` say that the text is made of scalar values.
        let _ = text.as_text();
        Word { text }
    }

    /// The text as a contract sees texts, lent without a copy.
    pub fn as_str(&self) -> &Str
        ensures { result.now ≡ self.now.text }
    {
        &self.text
    }

    /// The text as UTF-8, lent without a copy.
    pub fn as_text(&self) -> &str
        ensures bytes { result.now ≡ encode_utf8_all self.now.text }
        ensures text { chars result.now ≡ self.now.text }
    {
        self.text.as_text()
    }

    /// A copy, which takes memory of its own.
    pub fn copy(&self, alloc: Global) -> Result<Word, Memory>
        ensures { IfOk result (λ w. w.text ≡ self.now.text) }
    {
        Ok(Word {
            text: self.text.copy(alloc)?,
        })
    }
}
