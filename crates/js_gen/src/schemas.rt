//! The two schemas of a family.

ghost use Rattle.std.specs.Prelude.{◌≡◌, ◌≤◌, IfOk};
ghost use Rattle.families.specs.Families.{family, greatest};
ghost use Rattle.js_doc.specs.JsonView.{view};
ghost use Rattle.js_gen.specs.KindView.{kind_view};

use crate::chain::chain;
use crate::kind::GenKind;
use crate::parts::of_number;
use crate::patterns::patterned;
use crate::tree::tree;
use crate::wide::{loose, narrow};
use js_doc::{Json, Memory};
use std::alloc::Global;

/// The first schema of the family at `n`, and the second one.
pub fn generate(alloc: Global, kind: GenKind, n: u32) -> Result<(Json, Json), Memory>
    requires least { 1 ≤ n }
    requires most { n ≤ greatest (kind_view kind) }
    ensures { IfOk result (λ p. (view p.0, view p.1) ≡ family (kind_view kind) n) }
{
    match kind {
        GenKind::Chain => Ok((chain(alloc, n)?, Json::Bool(false))),
        GenKind::Wide => Ok((narrow(alloc, n)?, loose(alloc, n)?)),
        GenKind::Patterns => Ok((patterned(alloc, n)?, of_number(alloc, "maxProperties", n)?)),
        GenKind::Tree => Ok((tree(alloc, n)?, Json::Bool(false))),
    }
}
