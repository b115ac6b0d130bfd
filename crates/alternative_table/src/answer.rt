//! The alternatives of the goal of a schema.

use crate::text::expansion_text;
use js_algebra::{Core, Pos, Signed, form};
use js_doc::{Json, Memory};
use js_expander::CoreExpander;
use js_guard::{Guarded, guard};
use js_json::{JsonFault, read_json};
use js_keywords::SchemaFault;
use js_normal::normalise;
use js_reader::read_schema;
use js_schema::Schema;
use std::alloc::Global;

/// What is printed for a schema, given as JSON text: the alternatives of the goal that position 0 of its table holds.
pub(crate) fn answer(alloc: Global, text: &str) -> Result<String, Memory> {
    match read_json(alloc, text.as_bytes()) {
        Ok(json) => answer_of_value(alloc, &json),
        Err(JsonFault::Memory) => Err(Memory),
        Err(_) => Ok(String::from_str(alloc, "refused")?),
    }
}

fn answer_of_value(alloc: Global, json: &Json) -> Result<String, Memory> {
    match read_schema(alloc, json) {
        Ok(schema) => answer_of_schema(alloc, schema),
        Err(SchemaFault::Memory) => Err(Memory),
        Err(_) => Ok(String::from_str(alloc, "refused")?),
    }
}

fn answer_of_schema(alloc: Global, schema: Schema) -> Result<String, Memory> {
    match guard(alloc, schema)? {
        Guarded::Ranked(schema) => answer_on(alloc, &normalise(alloc, &schema)?),
        Guarded::Circular(..) => Ok(String::from_str(alloc, "refused")?),
    }
}

fn answer_on(alloc: Global, core: &Core) -> Result<String, Memory> {
    if core.len() == 0 {
        return Ok(String::from_str(alloc, "refused")?);
    }
    match form(alloc, core, &[Signed::plus(Pos(0))])? {
        Some(goal) => expansion_text(alloc, &CoreExpander::new(core), &goal),
        None => Ok(String::from_str(alloc, "clash")?),
    }
}
