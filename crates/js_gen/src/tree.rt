//! Definitions in a circle, each of which names the next one in an array that isn't empty.

ghost use Rattle.std.specs.Prelude.{◌≡◌, ◌<◌, ◌+◌, ◌%◌, ◌∷◌, [], IfOk, codes, pos};
ghost use Rattle.documents.specs.Json as D;
ghost use Rattle.families.specs.Objects.{object_of, first};
ghost use Rattle.families.specs.Families as F;
ghost use Rattle.js_doc.specs.JsonView.{view};

use crate::members::Members;
use crate::parts::{defined, number, of_type, pair_schema, reference};
use crate::words::{numbered, text};
use js_doc::{Json, Memory};
use std::alloc::Global;

/// The first schema at `n`.
pub(crate) fn tree(alloc: Global, n: u32) -> Result<Json, Memory>
    ensures { IfOk result (λ j. view j ≡ F.defined (codes "t") (F.branch n) n) }
{
    defined(alloc, "t", branches(alloc, n)?)
}

fn branches(alloc: Global, n: u32) -> Result<Json, Memory>
    ensures { IfOk result (λ j. view j ≡ object_of (first (λ i. (F.numbered (codes "t") i, F.branch n i)) n)) }
{
    let mut definitions = Members::new(alloc);
    for i in 0..n {
        definitions.put(numbered(alloc, "t", i)?, branch(alloc, n, i)?)?;
    }
    Ok(definitions.into_json())
}

fn branch(alloc: Global, n: u32, i: u32) -> Result<Json, Memory>
    requires { i < n }
    ensures { IfOk result (λ j. view j ≡ F.branch n i) }
{
    pair_schema(
        alloc,
        "kids",
        kids(alloc, (i + 1) % n)?,
        "v",
        of_type(alloc, "integer")?,
    )
}

/// An array that isn't empty, whose elements are as a definition says.
fn kids(alloc: Global, next: u32) -> Result<Json, Memory>
    ensures { IfOk result
        (λ j. view j ≡ object_of (F.of_type (codes "array") ∷ (codes "minItems", D.number (pos 1))
        ∷ (codes "items", F.reference (codes "t") next) ∷ [])) }
{
    let mut schema = Members::new(alloc);
    schema.set("type", text(alloc, "array")?)?;
    schema.set("minItems", number(1))?;
    schema.set("items", reference(alloc, "t", next)?)?;
    Ok(schema.into_json())
}
