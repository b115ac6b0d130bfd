//! Objects of many members, each a whole number.

ghost use Rattle.std.specs.Prelude.{◌≡◌, ◌∷◌, [], IfOk, codes};
ghost use Rattle.documents.specs.Json as D;
ghost use Rattle.families.specs.Objects.{object_of, array_of, first};
ghost use Rattle.families.specs.Families as F;
ghost use Rattle.js_doc.specs.JsonView.{view};

use crate::members::Members;
use crate::parts::integer_from;
use crate::words::{numbered, text};
use js_doc::{Json, JsonList, Memory, Word};
use std::alloc::Global;

/// The first schema at `n`: all members are there, each with a least value of its own.
pub(crate) fn narrow(alloc: Global, n: u32) -> Result<Json, Memory>
    ensures { IfOk result
        (λ j. view j ≡ object_of (F.of_type (codes "object") ∷ F.required n ∷ F.properties (λ i. i) n)) }
{
    let mut schema = Members::new(alloc);
    schema.set("type", text(alloc, "object")?)?;
    schema.set("required", names(alloc, n)?)?;
    schema.set("properties", numbers_from_own(alloc, n)?)?;
    schema.set("additionalProperties", Json::Bool(false))?;
    Ok(schema.into_json())
}

/// The second schema at `n`: no member has to be there, and the least value of each is 0.
pub(crate) fn loose(alloc: Global, n: u32) -> Result<Json, Memory>
    ensures { IfOk result (λ j. view j ≡ object_of (F.of_type (codes "object") ∷ F.properties (λ i. 0) n)) }
{
    let mut schema = Members::new(alloc);
    schema.set("type", text(alloc, "object")?)?;
    schema.set("properties", numbers_from_zero(alloc, n)?)?;
    schema.set("additionalProperties", Json::Bool(false))?;
    Ok(schema.into_json())
}

fn names(alloc: Global, n: u32) -> Result<Json, Memory>
    ensures { IfOk result (λ j. view j ≡ array_of (first (λ i. D.string (F.numbered (codes "p") i)) n)) }
{
    let mut texts = Vec::new(alloc);
    for i in 0..n {
        texts.push(Json::Text(Word::new(numbered(alloc, "p", i)?)))?;
    }
    Ok(Json::List(JsonList::from_vec(texts)))
}

fn numbers_from_own(alloc: Global, n: u32) -> Result<Json, Memory>
    ensures { IfOk result
        (λ j. view j ≡ object_of (first (λ i. (F.numbered (codes "p") i, F.integer_from i)) n)) }
{
    let mut schemas = Members::new(alloc);
    for i in 0..n {
        schemas.put(numbered(alloc, "p", i)?, integer_from(alloc, i)?)?;
    }
    Ok(schemas.into_json())
}

fn numbers_from_zero(alloc: Global, n: u32) -> Result<Json, Memory>
    ensures { IfOk result
        (λ j. view j ≡ object_of (first (λ i. (F.numbered (codes "p") i, F.integer_from 0)) n)) }
{
    let mut schemas = Members::new(alloc);
    for i in 0..n {
        schemas.put(numbered(alloc, "p", i)?, integer_from(alloc, 0)?)?;
    }
    Ok(schemas.into_json())
}
