//! The text of lines: each has one spelling, and ends with a line feed.

ghost use Rattle.std.specs.Prelude.{◌≡◌, ◌∷◌, ◌++◌, map, IfOk, OnOk, string_bytes};
ghost use Rattle.std.specs.Fmt.{decimal};
ghost use Rattle.certificate_lines.specs.Line.{At, Objects, Cap, Short};
ghost use Rattle.certificate_lines.specs.Text.{
  line_text,
  lines_text,
  words_text,
  signed_text,
  ending_text,
  entry_text,
  list_text,
};
ghost use Rattle.js_algebra.specs.View.{signed_view, kind_view};
ghost use Rattle.js_lines.specs.View.{line_view, end_view, entry_view};

use crate::lines::{CertEnd, CertLine, ShortEntry};
use crate::lists::Cert;
use js_algebra::{JsonKind, Signed};
use js_doc::Memory;
use std::alloc::Global;

/// The text of a line.
pub fn write_line(alloc: Global, line: &CertLine) -> Result<Vec<u8>, Memory>
    ensures { IfOk result (λ v. v.items ≡ line_text (line_view line.now)) }
{
    let mut out = String::new(alloc);
    append_line(&mut out, line)?;
    Ok(out.into_bytes())
}

/// The text of a certificate, line after line.
pub fn cert_text(alloc: Global, cert: &Cert) -> Result<Vec<u8>, Memory>
    ensures { IfOk result (λ v. v.items ≡ lines_text cert.now) }
{
    let mut out = String::new(alloc);
    let lines = cert.as_slice();
    for line in lines {
        append_line(&mut out, line)?;
    }
    Ok(out.into_bytes())
}

/// Puts the text of a line at the end. After a refusal of memory a part of it may be there.
pub fn append_line(out: &mut String, line: &CertLine) -> Result<(), Memory>
    ensures { OnOk result (string_bytes out.new ≡ string_bytes out.old ++ line_text (line_view line.now)) }
{
    append_words(out, line)?;
    out.push('\n')?;
    Ok(())
}

fn append_words(out: &mut String, line: &CertLine) -> Result<(), Memory>
    ensures { OnOk result (string_bytes out.new ≡ string_bytes out.old ++ words_text (line_view line.now)) }
{
    match line {
        CertLine::Certificate(_) => append_word(out, "certificate 1"),
        CertLine::Goals(count) => append_number(out, "goals ", *count),
        CertLine::Goal(list) => append_signed_list(out, "goal", list.as_slice()),
        CertLine::Entry(number) => append_number(out, "entry ", *number),
        CertLine::At(kind) => append_kind(out, *kind),
        CertLine::Rule(x) => append_signed(out, "rule ", *x),
        CertLine::Clash(place) => append_number(out, "clash ", place.0),
        CertLine::Kind(x) => append_signed(out, "kind ", *x),
        CertLine::Count => append_word(out, "count"),
        CertLine::Bool => append_word(out, "bool"),
        CertLine::Number => append_word(out, "number"),
        CertLine::Strings(rows) => append_number(out, "string ", *rows),
        CertLine::Row(targets) => append_numbers(out, "row", targets.as_slice()),
        CertLine::Least(lengths) => append_numbers(out, "least", lengths.as_slice()),
        CertLine::Array => append_word(out, "array"),
        CertLine::Object(rows, caps) => append_two(out, *rows, *caps),
        CertLine::Cap(cell, bounds) => append_cap(out, *cell, bounds.as_slice()),
        CertLine::Split => append_word(out, "split"),
        CertLine::Member(place, end) => append_placed(out, "member ", *place, *end),
        CertLine::Index(place, end) => append_placed(out, "index ", *place, *end),
        CertLine::Tail(place, end) => append_placed(out, "tail ", *place, *end),
        CertLine::Short(entries) => append_entries(out, entries.as_slice()),
        CertLine::End => append_word(out, "end"),
    }
}

fn append_word(out: &mut String, word: &str) -> Result<(), Memory>
    ensures { OnOk result (string_bytes out.new ≡ string_bytes out.old ++ word.now) }
{
    out.push_str(word)?;
    Ok(())
}

/// Puts a number behind a word.
fn append_number(out: &mut String, word: &str, number: u32) -> Result<(), Memory>
    ensures { OnOk result (string_bytes out.new ≡ string_bytes out.old ++ (word.now ++ decimal number)) }
{
    out.push_str(word)?;
    write!(out, "{number}")?;
    Ok(())
}

/// Puts numbers behind a word, each after a blank.
fn append_numbers(out: &mut String, word: &str, numbers: &[u32]) -> Result<(), Memory>
    ensures { OnOk result (string_bytes out.new ≡ string_bytes out.old ++ (word.now ++ list_text decimal numbers.now)) }
{
    out.push_str(word)?;
    for number in numbers {
        append_spaced(out, *number)?;
    }
    Ok(())
}

/// Puts a number behind a blank. Of the numbers of a list most have one digit, which needs no formatter.
fn append_spaced(out: &mut String, number: u32) -> Result<(), Memory>
    ensures { OnOk result (string_bytes out.new ≡ string_bytes out.old ++ 32 ∷ decimal number) }
{
    if number >= 10 {
        return append_number(out, " ", number);
    }
    out.push(' ')?;
    out.push(char::from(b'0' + number as u8))?;
    Ok(())
}

fn append_cap(out: &mut String, cell: u32, bounds: &[u32]) -> Result<(), Memory>
    ensures { OnOk result (string_bytes out.new ≡ string_bytes out.old ++ words_text (Cap cell bounds.now)) }
{
    append_number(out, "cap ", cell)?;
    append_numbers(out, "", bounds)
}

fn append_two(out: &mut String, rows: u32, caps: u32) -> Result<(), Memory>
    ensures { OnOk result (string_bytes out.new ≡ string_bytes out.old ++ words_text (Objects rows caps)) }
{
    append_number(out, "object ", rows)?;
    append_number(out, " ", caps)
}

/// Puts a sign and a number behind a word.
fn append_signed(out: &mut String, word: &str, x: Signed) -> Result<(), Memory>
    ensures { OnOk result (string_bytes out.new ≡ string_bytes out.old ++ (word.now ++ signed_text (signed_view x))) }
{
    out.push_str(word)?;
    if x.plus {
        append_number(out, "+", x.pos.0)
    } else {
        append_number(out, "-", x.pos.0)
    }
}

/// Puts signed positions behind a word, each after a blank.
fn append_signed_list(out: &mut String, word: &str, list: &[Signed]) -> Result<(), Memory>
    ensures { OnOk result (string_bytes out.new
        ≡ string_bytes out.old ++ (word.now ++ list_text signed_text (map signed_view list.now))) }
{
    out.push_str(word)?;
    for x in list {
        append_signed(out, " ", *x)?;
    }
    Ok(())
}

/// Puts the end of a list behind a word.
fn append_end(out: &mut String, word: &str, end: CertEnd) -> Result<(), Memory>
    ensures { OnOk result (string_bytes out.new ≡ string_bytes out.old ++ (word.now ++ ending_text (end_view end))) }
{
    out.push_str(word)?;
    match end {
        CertEnd::Clash => append_word(out, "clash"),
        CertEnd::Goal(goal) => append_number(out, "goal ", goal),
    }
}

/// Puts a number behind a word, and then the end of a list.
fn append_placed(out: &mut String, word: &str, place: u32, end: CertEnd) -> Result<(), Memory>
    ensures { OnOk result (string_bytes out.new
        ≡ string_bytes out.old ++ (word.now ++ (decimal place ++ 32 ∷ ending_text (end_view end)))) }
{
    append_number(out, word, place)?;
    append_end(out, " ", end)
}

fn append_entries(out: &mut String, entries: &[ShortEntry]) -> Result<(), Memory>
    ensures { OnOk result (string_bytes out.new ≡ string_bytes out.old ++ words_text (Short (map entry_view entries.now))) }
{
    out.push_str("short")?;
    for entry in entries {
        append_entry(out, *entry)?;
    }
    Ok(())
}

/// Puts an entry behind a blank.
fn append_entry(out: &mut String, entry: ShortEntry) -> Result<(), Memory>
    ensures { OnOk result (string_bytes out.new ≡ string_bytes out.old ++ 32 ∷ entry_text (entry_view entry)) }
{
    match entry {
        ShortEntry::Kept => append_word(out, " -"),
        ShortEntry::Clash => append_end(out, " ", CertEnd::Clash),
        ShortEntry::Goal(goal) => append_end(out, " ", CertEnd::Goal(goal)),
    }
}

fn append_kind(out: &mut String, kind: JsonKind) -> Result<(), Memory>
    ensures { OnOk result (string_bytes out.new ≡ string_bytes out.old ++ words_text (At (kind_view kind))) }
{
    out.push_str("at ")?;
    out.push_str(kind.as_word())?;
    Ok(())
}
