//! Alternatives without members and fillers.

ghost use Rattle.std.specs.Prelude.{◌≡◌, List, IfOk, Ok};
ghost use Rattle.documents.specs.Kind as K;
ghost use Rattle.positions.specs.Position.{Position};
ghost use Rattle.expansions.specs.Leaves as L;
ghost use Rattle.expansions.specs.Leaves.{leaf, Finders};
ghost use Rattle.js_algebra.specs.View.{kind_view};
ghost use Rattle.js_expansion.specs.View.{shape_view};
ghost use Rattle.js_expansion.specs.AlternativeView.{alternative_view};

use js_algebra::{BranchId, JsonKind};
use js_doc::Memory;
use js_expansion::{Alternative, AlternativeList, FillerList, Leaf, PlacedList, Shape};
use js_tableau::Branch;
use std::alloc::Global;

/// The alternative of a branch that builds that scalar. It takes no memory.
pub(crate) fn scalar(alloc: Global, kind: JsonKind, number: u32, shape: Shape) -> Alternative
    ensures { alternative_view result ≡ L.scalar (kind_view kind) number (shape_view shape) }
{
    Alternative {
        branch: BranchId { kind, number },
        shape,
        members: PlacedList::from_vec(Vec::new(alloc)),
        need: 0,
        fillers: FillerList::from_vec(Vec::new(alloc)),
    }
}

/// The one alternative of a null branch.
pub fn null_alternatives(alloc: Global, branch: &Branch) -> Result<Leaf, Memory>
    ensures { IfOk result (λ l. (F : Finders) (T : List Position)
        → Ok l.alternatives ≡ leaf F T K.Null branch.now.id.number branch.now.set) }
{
    let mut alternatives = Vec::new(alloc);
    let null = scalar(alloc, JsonKind::Null, branch.id.number, Shape::Null);
    alternatives.push(null)?;
    Ok(Leaf {
        alternatives: AlternativeList::from_vec(alternatives),
    })
}
