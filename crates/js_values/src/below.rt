//! What is made of the positions that are named below a node.

ghost use Rattle.std.specs.Prelude.{◌≡◌};
ghost use Rattle.normal_forms.specs.Nodes as M;
ghost use Rattle.normal_forms.specs.Values as V;
ghost use Rattle.js_algebra.specs.View.{node_view, places};

use js_algebra::{Node, Pos, PosList};

/// The one position that is named.
pub fn the_one(named: &[Pos]) -> Pos
    ensures { result.0 ≡ M.the_one (places named.now) }
{
    match named.first() {
        Some(p) => *p,
        None => Pos(0),
    }
}

/// The last position is required of all elements after those that the others speak of.
pub(crate) fn items_of(named: Vec<Pos>) -> Node
    ensures { node_view result ≡ V.items_of (places named.items) }
{
    let mut prefix = named;
    match prefix.pop() {
        Some(rest) => Node::Items(PosList::from_vec(prefix), rest),
        None => Node::Items(PosList::from_vec(prefix), Pos(0)),
    }
}
