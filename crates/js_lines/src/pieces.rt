//! A text cut at the places of one byte, in one pass.

ghost use Rattle.std.specs.Prelude.{◌≡◌, map, IfOk, option_map};
ghost use Rattle.certificate_lines.specs.Pieces.{pieces, split_at, after_word, is_word};

use js_doc::Memory;
use std::alloc::Global;

/// What is between the places of a byte: one piece more than there are places.
pub fn pieces<'a>(alloc: Global, text: &'a [u8], at: u8) -> Result<Vec<&'a [u8]>, Memory>
    ensures { IfOk result (λ v. map (λ piece. piece.now) v.items ≡ pieces at text.now) }
{
    let mut found = Vec::new(alloc);
    let mut start = 0;
    for (i, byte) in text.iter().enumerate() {
        if *byte == at {
            found.push(&text[start..i])?;
            start = i + 1;
        }
    }
    found.push(&text[start..])?;
    Ok(found)
}

/// What comes before the first place of a byte, and behind it.
pub fn split_once<'a>(text: &'a [u8], at: u8) -> Option<(&'a [u8], &'a [u8])>
    ensures { option_map (λ (front, rest). (front.now, rest.now)) result ≡ split_at at text.now }
{
    for (i, byte) in text.iter().enumerate() {
        if *byte == at {
            return Some((&text[..i], &text[i + 1..]));
        }
    }
    None
}

/// What follows a word at the front of a text.
pub fn after<'a>(text: &'a [u8], word: &[u8]) -> Option<&'a [u8]>
    ensures { option_map (λ rest. rest.now) result ≡ after_word word.now text.now }
{
    text.strip_prefix(word)
}

/// Whether a text is a word.
pub fn is_word(text: &[u8], word: &[u8]) -> bool
    ensures { result ≡ is_word word.now text.now }
{
    match after(text, word) {
        Some(rest) => rest.is_empty(),
        None => false,
    }
}
