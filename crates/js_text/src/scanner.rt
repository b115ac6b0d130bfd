//! Lines, strings and numbers from the front of bytes. What is read may have another spelling than the one that is
//! written, so it is to be written again and compared.

ghost use Rattle.std.specs.Prelude.{◌≡◌, ℕ, ◌<◌, ◌∷◌, [], List, true, length, chars, encode_utf8_all, string_bytes, option_map, IfOk, IfSome, OnOk, Some};
ghost use Rattle.documents.specs.Tests.{every, is_scalar};
ghost use Rattle.document_texts.specs.Scalars.{string_text};
ghost use Rattle.document_texts.specs.PartsRead.{is_named};
ghost use Rattle.document_texts.specs.PartsText.{reference_text};
ghost use Rattle.document_text_laws.specs.Reader.{number_on, read_on, closes, next, grown, escape_of, with_digit, plain};
ghost use Rattle.document_text_laws.specs.Lines.{FirstLine};
ghost use Rattle.js_text.specs.Reads.{Gives, Reads, Takes, mode_of};

use js_doc::{Memory, PartId, Str};
use std::alloc::Global;

/// The first line with its line feed, and what follows; all bytes where they have no line feed.
pub(crate) fn first_line(bytes: &[u8]) -> (&[u8], &[u8])
    ensures { FirstLine result.0.now result.1.now bytes.now }
{
    match bytes.iter().position(|byte| *byte == b'\n') {
        Some(i) => bytes.split_at(i + 1),
        None => bytes.split_at(bytes.len()),
    }
}

/// The number that the digits say, and what comes behind them. None where it doesn't fit.
pub(crate) fn number(text: &[u8]) -> Option<(u32, &[u8])>
    ensures value { (n : ℕ) (rest : List ℕ) → number_on 0 text.now ≡ (n, rest) → n < 4294967296
        → option_map {U = ℕ × List ℕ} (λ (m, left). (m, left.now)) result ≡ Some (n, rest) }
    ensures shorter { Takes is_named (0 ∷ text.now) (option_map {U = ℕ × List ℕ} (λ (m, left). (m, left.now)) result) }
{
    let mut value = 0u32;
    let mut left = text;
    while let [digit, rest @ ..] = left
        && digit.is_ascii_digit()
    {
        let larger = u64::from(value) * 10 + u64::from(*digit - b'0');
        if larger > u64::from(u32::MAX) {
            return None;
        }
        value = larger as u32;
        left = rest;
    }
    Some((value, left))
}

/// The number of a part behind its mark.
pub(crate) fn reference(text: &[u8]) -> Option<(PartId, &[u8])>
    ensures reads { Reads reference_text is_named text.now
        (option_map {U = ℕ × List ℕ} (λ (id, left). (id.0, left.now)) result) }
    ensures takes { Takes is_named text.now (option_map {U = ℕ × List ℕ} (λ (id, left). (id.0, left.now)) result) }
{
    let [_, rest @ ..] = text else { return None };
    let (id, left) = number(rest)?;
    Some((PartId(id), left))
}

/// Where a reader is in a string: among its bytes, behind a backslash, or before so many further digits of a byte.
#[derive(Clone, Copy)]
enum Place {
    Plain,
    Escaped,
    Digits(u8, u8),
}

/// The byte of a letter behind a backslash.
fn escape_of(letter: u8) -> u8
    ensures { result ≡ escape_of letter }
{
    match letter {
        b'b' => 8,
        b'f' => 12,
        b'n' => 10,
        b'r' => 13,
        b't' => 9,
        _ => letter,
    }
}

/// A byte with one more digit behind it.
fn with_digit(value: u8, digit: u8) -> u8
    ensures { result ≡ with_digit value digit }
{
    let last = if digit < 58 {
        digit.saturating_sub(48)
    } else {
        digit.saturating_sub(87)
    };
    ((u32::from(value) * 16 + u32::from(last)) % 256) as u8
}

fn next(place: Place, byte: u8) -> Place
    ensures { mode_of result ≡ next (mode_of place) byte }
{
    match (place, byte) {
        (Place::Plain, b'\\') => Place::Escaped,
        (Place::Escaped, b'u') => Place::Digits(3, 0),
        (Place::Digits(0, _), _) => Place::Plain,
        (Place::Digits(left, value), _) => Place::Digits(left - 1, with_digit(value, byte)),
        _ => Place::Plain,
    }
}

fn closes(place: Place, byte: u8) -> bool
    ensures { result ≡ closes (mode_of place) byte }
{
    match place {
        Place::Plain => byte == b'"',
        _ => false,
    }
}

/// Puts what the byte adds to a string.
fn grow(out: &mut Vec<u8>, place: Place, byte: u8) -> Result<(), Memory>
    ensures { OnOk result (out.new.items ≡ grown out.old.items (mode_of place) byte) }
{
    match (place, byte) {
        (Place::Plain, b'\\') => {}
        (Place::Plain, _) => out.push(byte)?,
        (Place::Escaped, b'u') => {}
        (Place::Escaped, _) => out.push(escape_of(byte))?,
        (Place::Digits(0, value), _) => out.push(with_digit(value, byte))?,
        (Place::Digits(_, _), _) => {}
    }
    Ok(())
}

/// The bytes of a string up to its last quote, and what comes behind.
fn unquoted<'a>(alloc: Global, text: &'a [u8]) -> Result<Option<(Vec<u8>, &'a [u8])>, Memory>
    ensures bytes { IfOk result (λ r. option_map {U = List ℕ × List ℕ} (λ (v, left). (v.items, left.now)) r
        ≡ read_on plain [] text.now) }
    ensures shorter { IfOk result (λ r. IfSome r (λ p. length p.1.now < length text.now)) }
{
    let mut out = Vec::new(alloc);
    let mut place = Place::Plain;
    let mut left = text;
    while let [byte, rest @ ..] = left {
        if closes(place, *byte) {
            return Ok(Some((out, rest)));
        }
        grow(&mut out, place, *byte)?;
        place = next(place, *byte);
        left = rest;
    }
    Ok(None)
}

/// A string, and what comes behind.
pub(crate) fn word<'a>(alloc: Global, text: &'a [u8]) -> Result<Option<(Str, &'a [u8])>, Memory>
    ensures reads { IfOk result (λ r. Reads string_text (every is_scalar) text.now
        (option_map {U = List ℕ × List ℕ} (λ (w, left). (w, left.now)) r)) }
    ensures takes { IfOk result (λ r. Takes (every is_scalar) text.now
        (option_map {U = List ℕ × List ℕ} (λ (w, left). (w, left.now)) r)) }
{
    let [_, quoted @ ..] = text else {
        return Ok(None)
    };
    match unquoted(alloc, quoted)? {
        None => Ok(None),
        Some((bytes, left)) => Ok(beside(text_of(bytes), left)),
    }
}

fn beside(word: Option<Str>, left: &[u8]) -> Option<(Str, &[u8])>
    ensures { option_map {U = List ℕ × List ℕ} (λ (w, rest). (w, rest.now)) result
        ≡ option_map (λ w. (w, left.now)) word }
{
    match word {
        None => None,
        Some(word) => Some((word, left)),
    }
}

/// The string that has these bytes.
fn text_of(bytes: Vec<u8>) -> Option<Str>
    ensures text { (s : List ℕ) → every is_scalar s ≡ true → bytes.items ≡ encode_utf8_all s → result ≡ Some s }
    ensures scalar { Gives (every is_scalar) result }
{
    match String::from_utf8(bytes) {
        Ok(word) => Some(scalars(word)),
        Err(_) => None,
    }
}

fn scalars(word: String) -> Str
    ensures text { result ≡ chars (string_bytes word) }
    ensures scalar { every is_scalar result ≡ true }
{
    let text = Str::from_string(word);
    // The clauses of `as_text` say that the text is made of scalar values.
    let _ = text.as_text();
    text
}
