//! Whether a pattern matches somewhere in a word.

ghost use Rattle.std.specs.Prelude.{◌≡◌, ℕ, ◌+◌, ◌<◌, ◌^◌, IfOk, chars, length, nat_le, true};
ghost use Rattle.patterns.specs.Decision.{finds};
ghost use Rattle.js_pattern.specs.View.{view};
ghost use Rattle.js_match.specs.Places.{is_at, are_within, has_place};

use crate::anchor::is_anchored;
use crate::first::begins_otherwise;
use crate::walk::walk;
use js_doc::{Memory, Str};
use js_pattern::Re;
use std::alloc::{AllocError, Global};

/// Whether the pattern matches somewhere in the word. Time: the nodes of the tree times the word's length, times the
/// rounds of nested repeats.
pub fn is_found(alloc: Global, re: &Re, word: &Str) -> Result<bool, Memory>
    ensures { IfOk result (λ b. b ≡ finds (view re.now) word.now) }
{
    let letters = letters(alloc, word.as_text())?;
    is_in(alloc, re, &letters)
}

/// Whether the pattern is found in a word that is given by its characters, which many patterns can then share.
pub fn is_in(alloc: Global, re: &Re, word: &[char]) -> Result<bool, Memory>
    ensures { IfOk result (λ b. b ≡ finds (view re.now) word.now) }
{
    if begins_otherwise(re, word) {
        return Ok(false);
    }
    if is_anchored(re) {
        let ends = walk(alloc, re, word, &[0])?;
        return Ok(is_some(&ends));
    }
    let starts = places(alloc, word.len())?;
    let ends = walk(alloc, re, word, &starts)?;
    Ok(is_some(&ends))
}

fn is_some(places: &[usize]) -> bool
    ensures { result ≡ has_place places.now }
{
    !places.is_empty()
}

/// The characters of a text.
pub fn letters(alloc: Global, text: &str) -> Result<Vec<char>, AllocError>
    ensures { IfOk result (λ letters. letters.items ≡ chars text.now) }
{
    text.chars().collect(alloc)
}

/// All places of a word of that length.
fn places(alloc: Global, length: usize) -> Result<Vec<usize>, Memory>
    requires { length + 1 < 2 ^ 63 }
    ensures all { IfOk result (λ v. (j : ℕ) → is_at j v.items ≡ nat_le j length) }
    ensures within { IfOk result (λ v. are_within length v.items ≡ true) }
{
    let mut places = Vec::with_capacity(alloc, length + 1)?;
    for place in 0..length + 1 {
        places.push(place)?;
    }
    Ok(places)
}
