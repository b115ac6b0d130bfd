//! Whether a pattern of a schema matches somewhere in a word.

ghost use Rattle.std.specs.Prelude.{◌≡◌, IfOk};
ghost use Rattle.js_schema.specs.Patterns.{source_of};
ghost use Rattle.js_match.specs.Matching.{matches};

use js_doc::Memory;
use js_match::is_in;
use js_schema::PatternText;
use std::alloc::Global;

/// The word is given by its characters, so that one word can be searched for many patterns.
pub(crate) fn is_found(alloc: Global, pattern: &PatternText, word: &[char]) -> Result<bool, Memory>
    ensures { IfOk result (λ b. b ≡ matches (source_of pattern.now) word.now) }
{
    is_in(alloc, pattern.re(), word)
}
