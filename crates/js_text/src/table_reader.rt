//! A table of parts from its text: each line is read, written again and compared, since each has one spelling.

ghost use Rattle.std.specs.Prelude.{◌≡◌, ◌+◌, ◌++◌, ◌∷◌, [], ℕ, ◌<◌, length, option_map, bytes_eq, string_bytes, Err, IfOk, OnOk};
ghost use Rattle.std.specs.Fmt.{decimal};
ghost use Rattle.document_texts.specs.PartsRead.{IsFault, IsRead};
ghost use Rattle.document_texts.specs.PartsText.{count_text, part_text};
ghost use Rattle.js_doc.specs.PartView.{part_view};
ghost use Rattle.js_text.specs.Reads.{IsNoLine, IsTaken, Matches, ReadsCount, ReadsLine};

use crate::part_reader::read_part;
use crate::scalars::push_word;
use crate::scanner::{first_line, number};
use crate::table::push_part;
use js_doc::{Memory, Part, PartId, Parts, PartsFault};
use std::alloc::{AllocError, Global};

/// Why bytes are no table's text, or aren't read.
#[derive(Clone, Copy, PartialEq, Eq, Debug)]
pub enum PartsLineFault {
    Memory,
    /// Up to and with the line of this number, from 1, the bytes begin no table's text. Where they end too early it is
    /// the number of the line that would come next.
    NotAPart(u64),
}

impl From<Memory> for PartsLineFault {
    ghost use Rattle.std.specs.Prelude.{◌≡◌};
    ghost use Rattle.js_text.specs.declared.table_reader.PartsLineFault.TheVariants as fault;

    ghost from_gives = { λ _ made. made ≡ fault.Memory };

    fn from(_: Memory) -> PartsLineFault {
        PartsLineFault::Memory
    }
}

/// The table whose text the bytes are, and its last part. Every table's text is read, and the text of what is read is
/// again these bytes; parts that no part names may be in it. Time and memory in proportion to the bytes.
pub fn parts_read(alloc: Global, bytes: &[u8]) -> Result<(Parts, PartId), PartsLineFault>
    ensures table { IfOk result (λ r. IsRead r.0 bytes.now) }
    ensures last { IfOk result (λ r. r.1.0 + 1 ≡ length r.0) }
    ensures fault { (line : ℕ) → result ≡ Err (PartsLineFault.NotAPart line) → IsFault line bytes.now }
{
    let (line, lines) = first_line(bytes);
    match read_count(alloc, line)? {
        None => Err(PartsLineFault::NotAPart(1)),
        Some(0) => Err(PartsLineFault::NotAPart(1)),
        Some(count) => read_lines(alloc, count, lines),
    }
}

/// The table of so many parts, of which each has a line.
fn read_lines(alloc: Global, count: u32, lines: &[u8]) -> Result<(Parts, PartId), PartsLineFault>
    requires { 0 < count }
    ensures table { IfOk result (λ r. IsRead r.0 (count_text count ++ lines.now)) }
    ensures last { IfOk result (λ r. r.1.0 + 1 ≡ length r.0) }
    ensures fault { (line : ℕ) → result ≡ Err (PartsLineFault.NotAPart line)
        → IsFault line (count_text count ++ lines.now) }
{
    let mut parts = Parts::new(alloc);
    let mut left = lines;
    for _ in 0..count {
        let (line, rest) = first_line(left);
        take_line(alloc, &mut parts, line)?;
        left = rest;
    }
    if !left.is_empty() {
        return Err(PartsLineFault::NotAPart(u64::from(count) + 2));
    }
    Ok((parts, PartId(count - 1)))
}

/// How many parts the line says that there are.
fn read_count(alloc: Global, line: &[u8]) -> Result<Option<u32>, Memory>
    ensures { IfOk result (λ r. ReadsCount line.now r) }
{
    let text = String::from_str(alloc, "parts ")?;
    let start = text.as_bytes().len();
    if line.len() < start {
        return Ok(None);
    }
    match number(&line[start..]) {
        None => Ok(None),
        Some((count, _)) => same_count(text, count, line),
    }
}

/// The number, where the line is the text with it and a line feed behind it, and it isn't 0.
fn same_count(mut text: String, count: u32, line: &[u8]) -> Result<Option<u32>, Memory>
    ensures { IfOk result (λ r. Matches (string_bytes text ++ (decimal count ++ 10 ∷ [])) line.now count r) }
{
    write!(text, "{count}\n")?;
    if is_same(&text, line) {
        Ok(Some(count))
    } else {
        Ok(None)
    }
}

fn is_same(text: &String, line: &[u8]) -> bool
    ensures { result ≡ bytes_eq (string_bytes text.now) line.now }
{
    text.as_bytes() == line
}

/// Takes the part of a line into the table.
fn take_line(alloc: Global, parts: &mut Parts, line: &[u8]) -> Result<(), PartsLineFault>
    requires { length parts.old < 4294967295 }
    ensures taken { OnOk result (IsTaken parts.old parts.new line.now) }
    ensures number { (n : ℕ) → result ≡ Err (PartsLineFault.NotAPart n) → n ≡ length parts.old + 2 }
    ensures none { (n : ℕ) → result ≡ Err (PartsLineFault.NotAPart n) → IsNoLine parts.old line.now }
{
    let place = parts.len();
    let fault = PartsLineFault::NotAPart(u64::from(place) + 2);
    let Some(part) = line_part(alloc, line, place)? else {
        return Err(fault);
    };
    match parts.push(part) {
        Ok(_) => Ok(()),
        Err(PartsFault::Memory) => Err(PartsLineFault::Memory),
        Err(PartsFault::ForwardPart(_)) => Err(fault),
    }
}

/// The part whose line that is, with that number.
fn line_part(alloc: Global, line: &[u8], place: u32) -> Result<Option<Part>, Memory>
    ensures { IfOk result (λ r. ReadsLine place line.now (option_map part_view r)) }
{
    let mut text = String::new(alloc);
    write!(text, "{place} ")?;
    let start = text.as_bytes().len();
    if line.len() < start {
        return Ok(None);
    }
    match read_part(alloc, &line[start..])? {
        None => Ok(None),
        Some(part) => same_line(alloc, text, part, line),
    }
}

/// The part, where the line is the text with it and a line feed behind it.
fn same_line(
    alloc: Global,
    mut text: String,
    part: Part,
    line: &[u8],
) -> Result<Option<Part>, Memory>
    ensures { IfOk result (λ r. Matches (string_bytes text ++ part_text (part_view part) ++ 10 ∷ []) line.now
        (part_view part) (option_map part_view r)) }
{
    push_part(alloc, &mut text, &part)?;
    push_word(&mut text, "\n")?;
    if is_same(&text, line) {
        Ok(Some(part))
    } else {
        Ok(None)
    }
}
