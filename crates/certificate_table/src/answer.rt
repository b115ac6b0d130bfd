//! The verdict that a line requests.

ghost use Rattle.std.specs.Prelude.{◌<◌, ◌^◌, length, IfOk, IfSome};

use crate::judging::verdict_text;
use js_algebra::Core;
use js_doc::{Json, Memory};
use js_guard::{Guarded, guard};
use js_json::{JsonFault, read_json};
use js_keywords::SchemaFault;
use js_normal::{join_tables, normalise};
use js_reader::read_schema;
use js_schema::Schema;
use std::alloc::Global;
use std::thread::Threads;

/// What is printed for a line: the verdict, or that it isn't a case.
pub(crate) fn answer<R: Threads + Sync>(
    rt: &R,
    alloc: Global,
    line: &str,
) -> Result<String, Memory> {
    match read_json(alloc, line.as_bytes()) {
        Ok(json) => answer_to_case(rt, alloc, &json),
        Err(JsonFault::Memory) => Err(Memory),
        Err(_) => refused(alloc),
    }
}

fn refused(alloc: Global) -> Result<String, Memory> {
    Ok(String::from_str(alloc, "refused")?)
}

fn answer_to_case<R: Threads + Sync>(rt: &R, alloc: Global, case: &Json) -> Result<String, Memory> {
    match case {
        Json::List(parts) if parts.len() == 3 => {
            answer_to_parts(rt, alloc, parts.at(0), parts.at(1), parts.at(2))
        }
        _ => refused(alloc),
    }
}

fn answer_to_parts<R: Threads + Sync>(
    rt: &R,
    alloc: Global,
    first: &Json,
    second: &Json,
    certificate: &Json,
) -> Result<String, Memory> {
    match (
        table_of(alloc, first)?,
        table_of(alloc, second)?,
        certificate,
    ) {
        (Some(a), Some(b), Json::List(pieces)) => answer_on(rt, alloc, &a, &b, pieces.as_slice()),
        _ => refused(alloc),
    }
}

fn answer_on<R: Threads + Sync>(
    rt: &R,
    alloc: Global,
    a: &Core,
    b: &Core,
    pieces: &[Json],
) -> Result<String, Memory>
    requires a_filled { 0 < length a.now.positions }
    requires b_filled { 0 < length b.now.positions }
    requires a_small { length a.now.positions < 2 ^ 31 }
    requires b_small { length b.now.positions < 2 ^ 31 }
{
    let (core, first, second) = join_tables(alloc, a, b)?;
    verdict_text(rt, alloc, &core, first, second, pieces)
}

/// The core table of a schema. None where the value is no schema, or one that leads in a circle.
fn table_of(alloc: Global, json: &Json) -> Result<Option<Core>, Memory>
    ensures filled { IfOk result (λ o. IfSome o (λ c. 0 < length c.positions)) }
    ensures small { IfOk result (λ o. IfSome o (λ c. length c.positions < 2 ^ 31)) }
{
    match read_schema(alloc, json) {
        Ok(schema) => table_of_schema(alloc, schema),
        Err(SchemaFault::Memory) => Err(Memory),
        Err(_) => Ok(None),
    }
}

fn table_of_schema(alloc: Global, schema: Schema) -> Result<Option<Core>, Memory>
    ensures filled { IfOk result (λ o. IfSome o (λ c. 0 < length c.positions)) }
    ensures small { IfOk result (λ o. IfSome o (λ c. length c.positions < 2 ^ 31)) }
{
    match guard(alloc, schema)? {
        Guarded::Ranked(schema) => {
            let core = normalise(alloc, &schema)?;
            Ok(if core.len() > 0 { Some(core) } else { None })
        }
        Guarded::Circular(..) => Ok(None),
    }
}
