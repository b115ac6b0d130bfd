//! Documents from bytes.
//!
//! The length comes first. Bytes that begin with the word `parts` are then read as a table of parts. Others may have
//! the line `document`; then the JSON text after it is read, as a document at once, or its first number that isn't
//! whole is reported.

ghost use Rattle.std.specs.Prelude.{◌≡◌, ◌≤◌, length, IfOk};
ghost use Rattle.js_json.specs.Value.{value_of};
ghost use Rattle.js_report.specs.WholeFile.{longest_file};
ghost use Rattle.js_input.specs.DocumentReading.{json_text};
ghost use Rattle.js_input.specs.Saying.{DocumentSays, TextSays, DocumentValueSays, PartsSay};

use js_doc::{Doc, Memory, Parts};
use js_json::{JsonFault, read_doc};
use js_report::{LONGEST_FILE, placed_words};
use js_text::{PartsLineFault, parts_read};
use std::alloc::Global;

/// What the bytes of a document file are read as.
#[derive(Drop)]
pub enum DocumentInput {
    Read(Doc),

    /// A table of parts, of which the last one stands for the document. That document isn't made: it may be
    /// exponentially larger than the table.
    Parts(Parts),

    /// The words of the refusal after the file's role.
    Refused(String),
}

/// The document of these bytes, or the words of the first thing that is wrong.
pub fn read_document_bytes(alloc: Global, bytes: &[u8]) -> Result<DocumentInput, Memory>
    ensures { IfOk result (DocumentSays bytes.now) }
{
    if bytes.len() > LONGEST_FILE {
        return Ok(DocumentInput::Refused(String::from_str(alloc, "toolong")?));
    }
    if bytes.starts_with(b"parts") {
        read_parts(alloc, bytes)
    } else {
        read_text(alloc, bytes)
    }
}

fn read_parts(alloc: Global, bytes: &[u8]) -> Result<DocumentInput, Memory>
    ensures { IfOk result (PartsSay bytes.now) }
{
    match parts_read(alloc, bytes) {
        Ok((parts, _)) => Ok(DocumentInput::Parts(parts)),
        Err(PartsLineFault::NotAPart(line)) => {
            let words = format!(in alloc; "parts {line}")?;
            Ok(DocumentInput::Refused(words))
        }
        Err(PartsLineFault::Memory) => Err(Memory),
    }
}

fn read_text(alloc: Global, bytes: &[u8]) -> Result<DocumentInput, Memory>
    requires { length bytes.now ≤ longest_file }
    ensures { IfOk result (TextSays bytes.now) }
{
    read_json_text(alloc, json_text(bytes))
}

fn read_json_text(alloc: Global, text: &[u8]) -> Result<DocumentInput, Memory>
    ensures { IfOk result (DocumentValueSays (value_of text.now)) }
{
    match read_doc(alloc, text) {
        Ok(doc) => Ok(DocumentInput::Read(doc)),
        Err(JsonFault::NotJson) => {
            let words = String::from_str(alloc, "notjson")?;
            Ok(DocumentInput::Refused(words))
        }
        Err(JsonFault::NotWhole(place)) => {
            let words = placed_words(alloc, "notwhole", &place)?;
            Ok(DocumentInput::Refused(words))
        }
        Err(JsonFault::Memory) => Err(Memory),
    }
}

/// What comes after the line `document`, where the bytes begin with it, and else all of them.
fn json_text(bytes: &[u8]) -> &[u8]
    ensures { result.now ≡ json_text bytes.now }
{
    if bytes.starts_with(b"document\n") {
        &bytes[9..]
    } else {
        bytes
    }
}
