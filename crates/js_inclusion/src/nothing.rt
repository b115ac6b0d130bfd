//! The schema for which no document is valid.

ghost use Rattle.std.specs.Prelude.{◌≡◌, IfOk, false};
ghost use Rattle.documents.specs.Json.{boolean};
ghost use Rattle.js_doc.specs.JsonView.{view};
ghost use Rattle.js_guard.specs.RankedView.{entries_of};
ghost use Rattle.js_inclusion.specs.Nothing.{nothing};

use js_doc::{Json, Memory};
use js_guard::{Guarded, RankedSchema, guard};
use js_reader::read_schema;
use std::alloc::Global;

/// The schema of the value `false`.
pub fn false_schema(alloc: Global) -> Result<RankedSchema, Memory>
    ensures { IfOk result (λ s. entries_of s ≡ nothing) }
{
    // `false` is a schema without a cycle, so memory is all that can be missing
    let Ok(schema) = read_schema(alloc, &false_value()) else {
        return Err(Memory);
    };
    match guard(alloc, schema)? {
        Guarded::Ranked(ranked) => Ok(ranked),
        Guarded::Circular(_, _) => Err(Memory),
    }
}

fn false_value() -> Json
    ensures { view result ≡ boolean false }
{
    Json::Bool(false)
}
