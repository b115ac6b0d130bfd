//! `valid`: the schema is read, then the document, and then its validity is decided.

ghost use Rattle.std.specs.Prelude.{◌≡◌, ◌<◌, [], ◌∷◌, length, true, Ok, IfOk, OnErr, encode_utf8_all};
ghost use Rattle.documents.specs.Json.{Json};
ghost use Rattle.documents.specs.WellFormed.{is_json};
ghost use Rattle.schemas.specs.Entries.{read};
ghost use Rattle.js_doc.specs.View.{view};
ghost use Rattle.js_keywords.specs.Reading.{rules};
ghost use Rattle.js_guard.specs.RankedView.{entries_of};
ghost use Rattle.draft06.specs.Validity.{valid};
ghost use Rattle.js_input.specs.DocumentReading.{last_document};
ghost use Rattle.js_input.specs.OrderOfFiles.{BeginsInOrder};
ghost use Rattle.js_commands.specs.ValidOutcome.{of_test};
ghost use Rattle.js_commands.specs.ValidSaying.{ValidationSays, outcome_of};

use js_doc::{Doc, Memory, PartId, Parts, Str};
use js_guard::RankedSchema;
use js_input::{DocumentInput, SchemaInput, load_document, load_schema};
use js_outside::Shelf;
use js_valid::{ValidFault, valid, valid_parts};
use std::alloc::Global;

/// What a schema file and a document file come to.
#[derive(Drop)]
pub enum Validation {
    /// The document is valid for the schema.
    Valid,

    /// The document isn't valid for the schema.
    Invalid,

    /// The words of the schema's refusal after its role.
    SchemaRefused(String),

    /// The words of the document's refusal after its role.
    DocumentRefused(String),

    /// A file couldn't be read, and a fault is counted.
    ReadFault,
}

/// Validates the document of one file by the schema of another. The schema is read first, and the document only where
/// the schema is one.
pub fn validate<H: Shelf>(
    alloc: Global,
    shelf: &mut H,
    schema: &Str,
    document: &Str,
) -> Result<Validation, Memory>
    ensures told { H.told shelf.new ≡ H.told shelf.old }
    ensures says { IfOk result
        (ValidationSays (H.told shelf.old) schema.now document.now (H.faults shelf.old) (H.faults shelf.new)) }
    ensures memory { OnErr result (H.faults shelf.new ≡ H.faults shelf.old) }
    ensures begun { BeginsInOrder (H.told shelf.old) (encode_utf8_all schema.now ∷ encode_utf8_all document.now ∷ [])
        (H.begun shelf.old) (H.begun shelf.new) }
{
    let ranked = match load_schema(alloc, shelf, schema)? {
        Some(SchemaInput::Read(ranked)) => ranked,
        Some(SchemaInput::Refused(words)) => return Ok(Validation::SchemaRefused(words)),
        None => return Ok(Validation::ReadFault),
    };
    match load_document(alloc, shelf, document)? {
        Some(DocumentInput::Read(doc)) => judged(alloc, &ranked, &doc),
        Some(DocumentInput::Parts(parts)) => judged_parts(alloc, &ranked, &parts),
        Some(DocumentInput::Refused(words)) => Ok(Validation::DocumentRefused(words)),
        None => Ok(Validation::ReadFault),
    }
}

fn judged(alloc: Global, schema: &RankedSchema, doc: &Doc) -> Result<Validation, Memory>
    ensures { IfOk result (λ v. (j : Json) → is_json j ≡ true → read rules j ≡ Ok (entries_of schema.now)
        → outcome_of v ≡ of_test (valid rules j (view doc.now))) }
{
    match valid(alloc, schema, doc) {
        Ok(true) => Ok(Validation::Valid),
        Ok(false) => Ok(Validation::Invalid),
        Err(ValidFault::Memory) => Err(Memory),
    }
}

/// The same of the document that the last part of a table stands for, which isn't made.
fn judged_parts(alloc: Global, schema: &RankedSchema, parts: &Parts) -> Result<Validation, Memory>
    requires some { 0 < length parts.now }
    ensures { IfOk result (λ v. (j : Json) → is_json j ≡ true → read rules j ≡ Ok (entries_of schema.now)
        → outcome_of v ≡ of_test (valid rules j (last_document parts.now))) }
{
    match valid_parts(alloc, schema, parts, PartId(parts.len() - 1)) {
        Ok(true) => Ok(Validation::Valid),
        Ok(false) => Ok(Validation::Invalid),
        Err(ValidFault::Memory) => Err(Memory),
    }
}
