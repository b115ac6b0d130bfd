//! The branches of the goal of one schema or of two.

ghost use Rattle.std.specs.Prelude.{◌≡◌, ◌<◌, ◌^◌, true, length, map, IfOk, IfSome};
ghost use Rattle.js_algebra.specs.View.{signed_view, are_in_table};

use crate::text::goal_text;
use js_algebra::{Core, Pos, Signed, form};
use js_doc::{Json, Memory};
use js_guard::{Guarded, guard};
use js_json::{JsonFault, read_json};
use js_keywords::SchemaFault;
use js_normal::{join_tables, normalise};
use js_reader::read_schema;
use js_schema::Schema;
use std::alloc::Global;

/// What is printed for a line: a schema's goal is that it is met, and that of two that the first is met and the second
/// isn't.
pub(crate) fn answer(alloc: Global, line: &str) -> Result<String, Memory> {
    match line.split_once('\t') {
        Some((first, second)) => answer_to_two(alloc, first, second),
        None => answer_to_one(alloc, line),
    }
}

fn answer_to_one(alloc: Global, text: &str) -> Result<String, Memory> {
    match table_of(alloc, text)? {
        Some(core) => answer_on(alloc, &core, &[Signed::plus(Pos(0))]),
        None => Ok(String::from_str(alloc, "refused\n")?),
    }
}

fn answer_to_two(alloc: Global, first: &str, second: &str) -> Result<String, Memory> {
    match (table_of(alloc, first)?, table_of(alloc, second)?) {
        (Some(a), Some(b)) => answer_to_tables(alloc, &a, &b),
        _ => Ok(String::from_str(alloc, "refused\n")?),
    }
}

fn answer_to_tables(alloc: Global, a: &Core, b: &Core) -> Result<String, Memory>
    requires a_filled { 0 < length a.now.positions }
    requires b_filled { 0 < length b.now.positions }
    requires a_small { length a.now.positions < 2 ^ 31 }
    requires b_small { length b.now.positions < 2 ^ 31 }
{
    let (core, first, second) = join_tables(alloc, a, b)?;
    answer_on(alloc, &core, &[Signed::plus(first), Signed::minus(second)])
}

/// The core table of a schema, given as JSON text. None where the text is no schema, or one that leads in a circle.
fn table_of(alloc: Global, text: &str) -> Result<Option<Core>, Memory>
    ensures filled { IfOk result (λ o. IfSome o (λ c. 0 < length c.positions)) }
    ensures small { IfOk result (λ o. IfSome o (λ c. length c.positions < 2 ^ 31)) }
{
    match read_json(alloc, text.as_bytes()) {
        Ok(json) => table_of_value(alloc, &json),
        Err(JsonFault::Memory) => Err(Memory),
        Err(_) => Ok(None),
    }
}

fn table_of_value(alloc: Global, json: &Json) -> Result<Option<Core>, Memory>
    ensures filled { IfOk result (λ o. IfSome o (λ c. 0 < length c.positions)) }
    ensures small { IfOk result (λ o. IfSome o (λ c. length c.positions < 2 ^ 31)) }
{
    match read_schema(alloc, json) {
        Ok(schema) => table_of_schema(alloc, schema),
        Err(SchemaFault::Memory) => Err(Memory),
        Err(_) => Ok(None),
    }
}

fn table_of_schema(alloc: Global, schema: Schema) -> Result<Option<Core>, Memory>
    ensures filled { IfOk result (λ o. IfSome o (λ c. 0 < length c.positions)) }
    ensures small { IfOk result (λ o. IfSome o (λ c. length c.positions < 2 ^ 31)) }
{
    match guard(alloc, schema)? {
        Guarded::Ranked(schema) => {
            let core = normalise(alloc, &schema)?;
            Ok(if core.len() > 0 { Some(core) } else { None })
        }
        Guarded::Circular(..) => Ok(None),
    }
}

fn answer_on(alloc: Global, core: &Core, list: &[Signed]) -> Result<String, Memory>
    requires { are_in_table core.now.positions (map signed_view list.now) ≡ true }
{
    match form(alloc, core, list)? {
        Some(goal) => goal_text(alloc, core, &goal),
        None => Ok(String::from_str(alloc, "clash\n")?),
    }
}
