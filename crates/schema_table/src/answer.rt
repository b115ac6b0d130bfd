//! The answer on a schema and a document: what is wrong with one of them, or whether the document is valid.

use js_doc::{Memory, PartId};
use js_guard::RankedSchema;
use js_input::{DocumentInput, SchemaInput, read_document_bytes, read_schema_bytes};
use js_valid::{ValidFault, valid, valid_parts};
use std::alloc::Global;

/// What is wrong with the schema, then with the document, or whether the document is valid. The document is JSON text,
/// or a table of parts whose lines have tabs between them.
pub(crate) fn answer(alloc: Global, schema: &str, document: &str) -> Result<String, Memory> {
    match read_schema_bytes(alloc, schema.as_bytes())? {
        SchemaInput::Read(schema) => {
            if document.contains('\t') {
                let text = lines(alloc, document)?;
                return answer_on_bytes(alloc, &schema, text.as_bytes());
            }
            answer_on_bytes(alloc, &schema, document.as_bytes())
        }
        SchemaInput::Refused(words) => refused(alloc, "first", words.as_str()),
    }
}

/// What is between tabs, each in a line of its own.
fn lines(alloc: Global, text: &str) -> Result<String, Memory> {
    let mut lines = String::new(alloc);
    for line in text.split('\t') {
        lines.push_str(line)?;
        lines.push_str("\n")?;
    }
    Ok(lines)
}

fn answer_on_bytes(alloc: Global, schema: &RankedSchema, bytes: &[u8]) -> Result<String, Memory> {
    match read_document_bytes(alloc, bytes)? {
        DocumentInput::Read(doc) => verdict(alloc, valid(alloc, schema, &doc)),
        DocumentInput::Parts(parts) => {
            let last = PartId(parts.len() - 1);
            verdict(alloc, valid_parts(alloc, schema, &parts, last))
        }
        DocumentInput::Refused(words) => refused(alloc, "document", words.as_str()),
    }
}

fn verdict(alloc: Global, answer: Result<bool, ValidFault>) -> Result<String, Memory> {
    match answer {
        Ok(is_valid) => {
            let word = if is_valid { "valid" } else { "invalid" };
            Ok(String::from_str(alloc, word)?)
        }
        Err(ValidFault::Memory) => Err(Memory),
    }
}

fn refused(alloc: Global, role: &str, words: &str) -> Result<String, Memory> {
    let mut text = String::from_str(alloc, "refused ")?;
    text.push_str(role)?;
    text.push_str(" ")?;
    text.push_str(words)?;
    Ok(text)
}
