//! The words of a line: numbers, signed positions, kinds and ends, each in its one spelling.

ghost use Rattle.std.specs.Prelude.{◌≡◌, option_map, option_and_then};
ghost use Rattle.js_algebra.specs.View.{signed_view, kind_view};
ghost use Rattle.certificate_lines.specs.Pieces.{after_word};
ghost use Rattle.certificate_lines.specs.Reading.{
  is_plain,
  digits_from,
  number_of,
  signed_of,
  kind_of_word,
  ending_of,
  beside_number,
};
ghost use Rattle.js_lines.specs.View.{end_view, placed_view};

use crate::lines::CertEnd;
use crate::pieces::{after, is_word, split_once};
use js_algebra::{JsonKind, Pos, Signed};

/// Whether digits have no zero in front that says nothing.
fn is_plain(text: &[u8]) -> bool
    ensures { result ≡ is_plain text.now }
{
    match text {
        [] => false,
        [_] => true,
        [first, ..] => *first != b'0',
    }
}

/// The number of some digits, zeros in front or not.
fn digits(text: &[u8]) -> Option<u32>
    ensures { result ≡ digits_from 0 text.now }
{
    let mut value = 0u32;
    for digit in text {
        if !digit.is_ascii_digit() {
            return None;
        }
        let larger = u64::from(value) * 10 + u64::from(*digit - b'0');
        if larger > u64::from(u32::MAX) {
            return None;
        }
        value = larger as u32;
    }
    Some(value)
}

/// A number in decimal.
pub fn number(text: &[u8]) -> Option<u32>
    ensures { result ≡ number_of text.now }
{
    if is_plain(text) { digits(text) } else { None }
}

/// The number after a word.
pub fn number_after(text: &[u8], word: &[u8]) -> Option<u32>
    ensures { result ≡ option_and_then number_of (after_word word.now text.now) }
{
    number(after(text, word)?)
}

/// A sign and a number in decimal.
pub fn signed(text: &[u8]) -> Option<Signed>
    ensures { option_map signed_view result ≡ signed_of text.now }
{
    if let Some(rest) = after(text, b"+") {
        let place = number(rest)?;
        return Some(Signed::plus(Pos(place)));
    }
    let rest = after(text, b"-")?;
    let place = number(rest)?;
    Some(Signed::minus(Pos(place)))
}

/// The signed position after a word.
pub fn signed_after(text: &[u8], word: &[u8]) -> Option<Signed>
    ensures { option_map signed_view result ≡ option_and_then signed_of (after_word word.now text.now) }
{
    signed(after(text, word)?)
}

/// The kind of a word.
pub fn kind(text: &[u8]) -> Option<JsonKind>
    ensures { option_map kind_view result ≡ kind_of_word text.now }
{
    for kind in JsonKind::ALL {
        if is_word(text, kind.as_word().as_bytes()) {
            return Some(kind);
        }
    }
    None
}

/// The end of a list.
pub fn end(text: &[u8]) -> Option<CertEnd>
    ensures { option_map end_view result ≡ ending_of text.now }
{
    if is_word(text, b"clash") {
        return Some(CertEnd::Clash);
    }
    let goal = number(after(text, b"goal ")?)?;
    Some(CertEnd::Goal(goal))
}

/// A number, and the end of a list after a blank.
pub fn placed(text: &[u8]) -> Option<(u32, CertEnd)>
    ensures { option_map placed_view result ≡ beside_number ending_of text.now }
{
    let (first, rest) = split_once(text, b' ')?;
    let place = number(first)?;
    let end = end(rest)?;
    Some((place, end))
}

/// A number and the end of a list, after a word.
pub fn placed_after(text: &[u8], word: &[u8]) -> Option<(u32, CertEnd)>
    ensures { option_map placed_view result ≡ option_and_then (beside_number ending_of) (after_word word.now text.now) }
{
    placed(after(text, word)?)
}

/// Two numbers with a blank between them.
pub fn two_numbers(text: &[u8]) -> Option<(u32, u32)>
    ensures { result ≡ beside_number number_of text.now }
{
    let (first, rest) = split_once(text, b' ')?;
    let left = number(first)?;
    let right = number(rest)?;
    Some((left, right))
}
