//! Definitions, each of which names the next one twice.

ghost use Rattle.std.specs.Prelude.{◌≡◌, ◌<◌, IfOk, codes};
ghost use Rattle.families.specs.Objects.{object_of, first};
ghost use Rattle.families.specs.Families as F;
ghost use Rattle.js_doc.specs.JsonView.{view};

use crate::members::Members;
use crate::parts::{defined, of_type, pair_schema, reference};
use crate::words::numbered;
use js_doc::{Json, Memory};
use std::alloc::Global;

/// The first schema at `n`.
pub(crate) fn chain(alloc: Global, n: u32) -> Result<Json, Memory>
    ensures { IfOk result (λ j. view j ≡ F.defined (codes "d") (F.link n) n) }
{
    defined(alloc, "d", links(alloc, n)?)
}

fn links(alloc: Global, n: u32) -> Result<Json, Memory>
    ensures { IfOk result (λ j. view j ≡ object_of (first (λ i. (F.numbered (codes "d") i, F.link n i)) n)) }
{
    let mut definitions = Members::new(alloc);
    for i in 0..n {
        definitions.put(numbered(alloc, "d", i)?, link(alloc, n, i)?)?;
    }
    Ok(definitions.into_json())
}

fn link(alloc: Global, n: u32, i: u32) -> Result<Json, Memory>
    requires { i < n }
    ensures { IfOk result (λ j. view j ≡ F.link n i) }
{
    let next = i + 1;
    if next < n {
        pair_schema(
            alloc,
            "l",
            reference(alloc, "d", next)?,
            "r",
            reference(alloc, "d", next)?,
        )
    } else {
        of_type(alloc, "null")
    }
}
