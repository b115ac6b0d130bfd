//! A line from its text: each line has one spelling.

ghost use Rattle.std.specs.Prelude.{◌≡◌, IfOk, option_map};
ghost use Rattle.js_lines.specs.View.{line_view};
ghost use Rattle.certificate_lines.specs.Reading.{
  bare_line,
  counted_line,
  signed_line,
  paired_line,
  listed_line,
  line_of,
};

use crate::lines::{CertLine, Version};
use crate::listed::{entry_list, number_list, numbers_parted, signed_list};
use crate::pieces::{after, is_word};
use crate::words::{kind, number_after, placed_after, signed_after, two_numbers};
use js_algebra::Pos;
use js_doc::Memory;
use std::alloc::Global;

/// The line that a text is, without its line feed; none where it isn't in the grammar.
pub fn read_line(alloc: Global, text: &[u8]) -> Result<Option<CertLine>, Memory>
    ensures { IfOk result (λ o. option_map line_view o ≡ line_of text.now) }
{
    if let Some(line) = bare_line(text) {
        return Ok(Some(line));
    }
    if let Some(line) = counted_line(text) {
        return Ok(Some(line));
    }
    if let Some(line) = signed_line(text) {
        return Ok(Some(line));
    }
    if let Some(line) = paired_line(text) {
        return Ok(Some(line));
    }
    listed_line(alloc, text)
}

fn bare_line(text: &[u8]) -> Option<CertLine>
    ensures { option_map line_view result ≡ bare_line text.now }
{
    if is_word(text, b"certificate 1") {
        Some(CertLine::Certificate(Version::One))
    } else if is_word(text, b"count") {
        Some(CertLine::Count)
    } else if is_word(text, b"bool") {
        Some(CertLine::Bool)
    } else if is_word(text, b"number") {
        Some(CertLine::Number)
    } else if is_word(text, b"array") {
        Some(CertLine::Array)
    } else if is_word(text, b"split") {
        Some(CertLine::Split)
    } else if is_word(text, b"end") {
        Some(CertLine::End)
    } else {
        None
    }
}

fn counted_line(text: &[u8]) -> Option<CertLine>
    ensures { option_map line_view result ≡ counted_line text.now }
{
    if let Some(count) = number_after(text, b"goals ") {
        Some(CertLine::Goals(count))
    } else if let Some(number) = number_after(text, b"entry ") {
        Some(CertLine::Entry(number))
    } else if let Some(place) = number_after(text, b"clash ") {
        Some(CertLine::Clash(Pos(place)))
    } else {
        let rows = number_after(text, b"string ")?;
        Some(CertLine::Strings(rows))
    }
}

fn signed_line(text: &[u8]) -> Option<CertLine>
    ensures { option_map line_view result ≡ signed_line text.now }
{
    if let Some(x) = signed_after(text, b"rule ") {
        Some(CertLine::Rule(x))
    } else if let Some(x) = signed_after(text, b"kind ") {
        Some(CertLine::Kind(x))
    } else {
        let kind = kind(after(text, b"at ")?)?;
        Some(CertLine::At(kind))
    }
}

fn paired_line(text: &[u8]) -> Option<CertLine>
    ensures { option_map line_view result ≡ paired_line text.now }
{
    if let Some((place, end)) = placed_after(text, b"member ") {
        Some(CertLine::Member(place, end))
    } else if let Some((place, end)) = placed_after(text, b"index ") {
        Some(CertLine::Index(place, end))
    } else if let Some((place, end)) = placed_after(text, b"tail ") {
        Some(CertLine::Tail(place, end))
    } else {
        let (rows, caps) = two_numbers(after(text, b"object ")?)?;
        Some(CertLine::Object(rows, caps))
    }
}

fn listed_line(alloc: Global, text: &[u8]) -> Result<Option<CertLine>, Memory>
    ensures { IfOk result (λ o. option_map line_view o ≡ listed_line text.now) }
{
    if let Some(rest) = after(text, b"row") {
        return Ok(number_list(alloc, rest)?.map(CertLine::Row));
    }
    if let Some(rest) = after(text, b"least") {
        return Ok(number_list(alloc, rest)?.map(CertLine::Least));
    }
    if let Some(rest) = after(text, b"cap") {
        return Ok(numbers_parted(alloc, rest)?.map(|(cell, bounds)| CertLine::Cap(cell, bounds)));
    }
    if let Some(rest) = after(text, b"short") {
        return Ok(entry_list(alloc, rest)?.map(CertLine::Short));
    }
    if let Some(rest) = after(text, b"goal") {
        return Ok(signed_list(alloc, rest)?.map(CertLine::Goal));
    }
    Ok(None)
}
