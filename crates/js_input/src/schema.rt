//! Schemas from bytes.
//!
//! The length comes first, then the JSON text, then the first fault of the schema, and then the cycle of entries that
//! are applied to the same document.

ghost use Rattle.std.specs.Prelude.{IfOk};
ghost use Rattle.js_doc.specs.JsonView.{view};
ghost use Rattle.js_schema.specs.SchemaView.{schema_view};
ghost use Rattle.js_input.specs.Saying.{SchemaSays, ValueSays, EntriesSay};

use js_doc::{Json, Memory};
use js_guard::{Guarded, RankedSchema, guard};
use js_json::{JsonFault, read_json};
use js_keywords::SchemaFault;
use js_reader::read_schema;
use js_report::{LONGEST_FILE, cycle_words, schema_words};
use js_schema::Schema;
use std::alloc::Global;

/// What the bytes of a schema file are read as.
#[derive(Drop)]
pub enum SchemaInput {
    /// A schema without a cycle.
    Read(RankedSchema),

    /// The words of the refusal after the file's role.
    Refused(String),
}

/// The schema of these bytes, or the words of the first thing that is wrong.
pub fn read_schema_bytes(alloc: Global, bytes: &[u8]) -> Result<SchemaInput, Memory>
    ensures { IfOk result (SchemaSays bytes.now) }
{
    if bytes.len() > LONGEST_FILE {
        return Ok(SchemaInput::Refused(String::from_str(alloc, "toolong")?));
    }
    match read_json(alloc, bytes) {
        Ok(json) => read_schema_value(alloc, &json),
        // `read_json` never answers `NotWhole`
        Err(JsonFault::NotJson | JsonFault::NotWhole(_)) => {
            let words = String::from_str(alloc, "notjson")?;
            Ok(SchemaInput::Refused(words))
        }
        Err(JsonFault::Memory) => Err(Memory),
    }
}

/// The schema of this value, or the words of the first thing that is wrong.
pub fn read_schema_value(alloc: Global, json: &Json) -> Result<SchemaInput, Memory>
    ensures { IfOk result (ValueSays (view json.now)) }
{
    match read_schema(alloc, json) {
        Ok(schema) => guarded(alloc, schema),
        Err(SchemaFault::Memory) => Err(Memory),
        Err(fault) => {
            let words = schema_words(alloc, &fault)?;
            Ok(SchemaInput::Refused(words))
        }
    }
}

fn guarded(alloc: Global, schema: Schema) -> Result<SchemaInput, Memory>
    ensures { IfOk result (EntriesSay (schema_view schema)) }
{
    match guard(alloc, schema)? {
        Guarded::Ranked(schema) => Ok(SchemaInput::Read(schema)),
        Guarded::Circular(schema, cycle) => {
            let words = cycle_words(alloc, &schema, &cycle)?;
            Ok(SchemaInput::Refused(words))
        }
    }
}
