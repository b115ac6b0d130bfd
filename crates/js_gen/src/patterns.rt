//! An object whose members' names are matched with patterns.

ghost use Rattle.std.specs.Prelude.{◌≡◌, ◌≤◌, ◌<◌, ◌∷◌, [], IfOk, codes, pos};
ghost use Rattle.documents.specs.Json as D;
ghost use Rattle.families.specs.Objects.{object_of, first};
ghost use Rattle.families.specs.Families as F;
ghost use Rattle.js_doc.specs.JsonView.{view};

use crate::members::Members;
use crate::parts::{number, of_number};
use crate::words::{letter, text};
use js_doc::{Json, Memory};
use std::alloc::Global;

/// The first schema at `n`.
pub(crate) fn patterned(alloc: Global, n: u32) -> Result<Json, Memory>
    requires { n ≤ 26 }
    ensures { IfOk result
        (λ j. view j ≡ object_of (F.of_type (codes "object") ∷ (codes "minProperties", D.number (pos 1))
        ∷ (codes "patternProperties", object_of (first F.lettered n)) ∷ [])) }
{
    let mut schema = Members::new(alloc);
    schema.set("type", text(alloc, "object")?)?;
    schema.set("minProperties", number(1))?;
    schema.set("patternProperties", lettered(alloc, n)?)?;
    Ok(schema.into_json())
}

fn lettered(alloc: Global, n: u32) -> Result<Json, Memory>
    requires { n ≤ 26 }
    ensures { IfOk result (λ j. view j ≡ object_of (first F.lettered n)) }
{
    let mut schemas = Members::new(alloc);
    for i in 0..n {
        schemas.put(letter(alloc, i)?, of_number(alloc, "minimum", i)?)?;
    }
    Ok(schemas.into_json())
}
