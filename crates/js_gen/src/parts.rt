//! Parts of the schemas.

ghost use Rattle.std.specs.Prelude.{◌≡◌, ◌∷◌, [], true, IfOk, codes, pos};
ghost use Rattle.documents.specs.Json as D;
ghost use Rattle.families.specs.Objects.{object_of, array_of};
ghost use Rattle.families.specs.Families as F;
ghost use Rattle.js_doc.specs.JsonView.{view};
ghost use Rattle.js_gen.specs.Ascii.{is_ascii};

use crate::members::Members;
use crate::words::{definition_path, numbered, text};
use js_doc::{Json, JsonList, Memory};
use std::alloc::Global;

/// The schema that requires a type alone.
pub(crate) fn of_type(alloc: Global, word: &str) -> Result<Json, Memory>
    requires { is_ascii word.now ≡ true }
    ensures { IfOk result (λ j. view j ≡ object_of (F.of_type word.now ∷ [])) }
{
    let mut schema = Members::new(alloc);
    schema.set("type", text(alloc, word)?)?;
    Ok(schema.into_json())
}

/// The schema of one keyword, which has a number.
pub(crate) fn of_number(alloc: Global, keyword: &str, n: u32) -> Result<Json, Memory>
    requires { is_ascii keyword.now ≡ true }
    ensures { IfOk result (λ j. view j ≡ object_of ((keyword.now, D.number (pos n)) ∷ [])) }
{
    let mut schema = Members::new(alloc);
    schema.set(keyword, number(n))?;
    Ok(schema.into_json())
}

pub(crate) fn number(n: u32) -> Json
    ensures { view result ≡ D.number (pos n) }
{
    Json::Num(i128::from(n))
}

/// The schema that refers to a definition.
pub(crate) fn reference(alloc: Global, start: &str, number: u32) -> Result<Json, Memory>
    requires { is_ascii start.now ≡ true }
    ensures { IfOk result (λ j. view j ≡ F.reference start.now number) }
{
    let mut schema = Members::new(alloc);
    schema.set(
        "$ref",
        definition_path(alloc, &numbered(alloc, start, number)?)?,
    )?;
    Ok(schema.into_json())
}

/// A reference to definition 0, over the definitions.
pub(crate) fn defined(alloc: Global, start: &str, definitions: Json) -> Result<Json, Memory>
    requires { is_ascii start.now ≡ true }
    ensures { IfOk result
        (λ j. view j ≡ object_of (F.to_definition start.now 0 ∷ (codes "definitions", view definitions) ∷ [])) }
{
    let mut schema = Members::new(alloc);
    schema.set("$ref", definition_path(alloc, &numbered(alloc, start, 0)?)?)?;
    schema.set("definitions", definitions)?;
    Ok(schema.into_json())
}

/// A whole number, at least `least`.
pub(crate) fn integer_from(alloc: Global, least: u32) -> Result<Json, Memory>
    ensures { IfOk result (λ j. view j ≡ F.integer_from least) }
{
    let mut schema = Members::new(alloc);
    schema.set("type", text(alloc, "integer")?)?;
    schema.set("minimum", number(least))?;
    Ok(schema.into_json())
}

/// Objects that have two members, each as a schema says.
pub(crate) fn pair_schema(
    alloc: Global,
    first: &str,
    first_schema: Json,
    second: &str,
    second_schema: Json,
) -> Result<Json, Memory>
    requires first { is_ascii first.now ≡ true }
    requires second { is_ascii second.now ≡ true }
    ensures { IfOk result
        (λ j. view j ≡ F.pair_schema (first.now, view first_schema) (second.now, view second_schema)) }
{
    let mut schema = Members::new(alloc);
    schema.set("type", text(alloc, "object")?)?;
    schema.set("required", two_texts(alloc, first, second)?)?;
    let mut properties = Members::new(alloc);
    properties.set(first, first_schema)?;
    properties.set(second, second_schema)?;
    schema.set("properties", properties.into_json())?;
    Ok(schema.into_json())
}

fn two_texts(alloc: Global, first: &str, second: &str) -> Result<Json, Memory>
    requires first { is_ascii first.now ≡ true }
    requires second { is_ascii second.now ≡ true }
    ensures { IfOk result (λ j. view j ≡ array_of (D.string first.now ∷ D.string second.now ∷ [])) }
{
    let mut texts = Vec::with_capacity(alloc, 2)?;
    texts.push(text(alloc, first)?)?;
    texts.push(text(alloc, second)?)?;
    Ok(Json::List(JsonList::from_vec(texts)))
}
