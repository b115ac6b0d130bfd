//! The positions of entries, and a dependency of the positions that are named below it.

ghost use Rattle.std.specs.Prelude.{◌≡◌, IfOk};
ghost use Rattle.normal_forms.specs.KeywordNodes as W;
ghost use Rattle.js_algebra.specs.View.{node_view, places};

use js_algebra::{Node, Pos, PosList};
use js_doc::Memory;
use js_schema::EntryList;
use std::alloc::Global;

/// The positions of entries.
pub(crate) fn positions(alloc: Global, entries: &EntryList) -> Result<PosList, Memory>
    ensures { IfOk result (λ ps. places ps ≡ entries.now) }
{
    let mut positions = Vec::with_capacity(alloc, entries.as_slice().len())?;
    for entry in entries.as_slice() {
        positions.push(Pos(*entry))?;
    }
    Ok(PosList::from_vec(positions))
}

/// Where the first holds, the second is required.
pub(crate) fn depends_of(named: &[Pos]) -> Node
    ensures { node_view result ≡ W.depends_of (places named.now) }
{
    if named.len() == 2 {
        Node::Depends(named[0], named[1])
    } else {
        Node::False
    }
}
