//! The text of a schema's core table, or that it is refused.

use js_core_text::core_text;
use js_doc::{Json, Memory};
use js_guard::{Guarded, guard};
use js_json::{JsonFault, read_json};
use js_keywords::SchemaFault;
use js_normal::normalise;
use js_reader::read_schema;
use js_schema::Schema;
use std::alloc::Global;

/// The text of the core table of a schema, given as JSON text.
pub(crate) fn answer(alloc: Global, text: &str) -> Result<String, Memory> {
    match read_json(alloc, text.as_bytes()) {
        Ok(json) => answer_of_value(alloc, &json),
        Err(JsonFault::Memory) => Err(Memory),
        Err(_) => Ok(String::from_str(alloc, "no json\n")?),
    }
}

fn answer_of_value(alloc: Global, json: &Json) -> Result<String, Memory> {
    match read_schema(alloc, json) {
        Ok(schema) => answer_of_schema(alloc, schema),
        Err(SchemaFault::Memory) => Err(Memory),
        Err(_) => Ok(String::from_str(alloc, "no schema\n")?),
    }
}

fn answer_of_schema(alloc: Global, schema: Schema) -> Result<String, Memory> {
    match guard(alloc, schema)? {
        Guarded::Ranked(schema) => {
            let core = normalise(alloc, &schema)?;
            core_text(alloc, &core)
        }
        Guarded::Circular(..) => Ok(String::from_str(alloc, "circular\n")?),
    }
}
