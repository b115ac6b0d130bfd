//! Files of a shelf as schemas and documents.

ghost use Rattle.std.specs.Prelude.{◌≡◌, [], ◌∷◌, ◌++◌, IfOk, OnErr, encode_utf8_all};
ghost use Rattle.js_input.specs.Saying.{LoadsSchema, LoadsDocument};

use crate::document::{DocumentInput, read_document_bytes};
use crate::schema::{SchemaInput, read_schema_bytes};
use js_doc::{Memory, Str};
use js_outside::Shelf;
use js_report::{FileFault, read_file};
use std::alloc::Global;

/// What the schema file of that name is read as; `None` where it couldn't be read.
pub fn load_schema<H: Shelf>(
    alloc: Global,
    shelf: &mut H,
    name: &Str,
) -> Result<Option<SchemaInput>, Memory>
    ensures told { H.told shelf.new ≡ H.told shelf.old }
    ensures says { IfOk result (LoadsSchema (H.told shelf.old) name.now (H.faults shelf.old) (H.faults shelf.new)) }
    ensures memory { OnErr result (H.faults shelf.new ≡ H.faults shelf.old) }
    ensures begun { H.begun shelf.new ≡ H.begun shelf.old ++ encode_utf8_all name.now ∷ [] }
{
    match read_file(alloc, shelf, name.as_text()) {
        Ok(bytes) => Ok(Some(read_schema_bytes(alloc, bytes.as_slice())?)),
        Err(FileFault::TooLong) => {
            let words = String::from_str(alloc, "toolong")?;
            Ok(Some(SchemaInput::Refused(words)))
        }
        Err(FileFault::Read) => Ok(None),
        Err(FileFault::Memory) => Err(Memory),
    }
}

/// What the document file of that name is read as; `None` where it couldn't be read.
pub fn load_document<H: Shelf>(
    alloc: Global,
    shelf: &mut H,
    name: &Str,
) -> Result<Option<DocumentInput>, Memory>
    ensures told { H.told shelf.new ≡ H.told shelf.old }
    ensures says { IfOk result (LoadsDocument (H.told shelf.old) name.now (H.faults shelf.old) (H.faults shelf.new)) }
    ensures memory { OnErr result (H.faults shelf.new ≡ H.faults shelf.old) }
    ensures begun { H.begun shelf.new ≡ H.begun shelf.old ++ encode_utf8_all name.now ∷ [] }
{
    match read_file(alloc, shelf, name.as_text()) {
        Ok(bytes) => Ok(Some(read_document_bytes(alloc, bytes.as_slice())?)),
        Err(FileFault::TooLong) => {
            let words = String::from_str(alloc, "toolong")?;
            Ok(Some(DocumentInput::Refused(words)))
        }
        Err(FileFault::Read) => Ok(None),
        Err(FileFault::Memory) => Err(Memory),
    }
}
