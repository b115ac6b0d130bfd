//! Two core tables in one.
//!
//! The first table stays as it is, and the positions of the second are moved up by its length. Each keeps what it
//! means.
//! The cost is that of a copy.

ghost use Rattle.std.specs.Prelude.{ℕ, true, ◌≡◌, ◌+◌, ◌^◌, ◌<◌, ◌++◌, IfOk, length, map};
ghost use Rattle.position_laws.specs.Join.{joined, moved};
ghost use Rattle.positions.specs.Position.{in_place, of_parts};
ghost use Rattle.positions.specs.Holds.{holds};
ghost use Rattle.documents.specs.Document.{Document};
ghost use Rattle.documents.specs.Tests.{every};
ghost use Rattle.js_normal.specs.Room.{has_room};
ghost use Rattle.js_algebra.specs.View.{node_view, places};

use js_algebra::{Core, Node, NodeList, Pos, PosList, RankList};
use js_doc::Memory;
use std::alloc::Global;

/// The table of both, and where position 0 of each is in it.
pub fn join_tables(alloc: Global, a: &Core, b: &Core) -> Result<(Core, Pos, Pos), Memory>
    requires { length a.now.positions + length b.now.positions < 2 ^ 32 }
    ensures positions { IfOk result (λ r. r.0.positions ≡ joined a.now.positions b.now.positions) }
    ensures first { IfOk result (λ r. r.1.0 ≡ 0) }
    ensures second { IfOk result (λ r. r.2.0 ≡ length a.now.positions) }

    // Every position of both tables keeps what it means.
    ensures first_means { IfOk result (λ r. (p : ℕ) (J : Document) → p < length a.now.positions
        → holds r.0.positions p J ≡ holds a.now.positions p J) }
    ensures second_means { IfOk result (λ r. (p : ℕ) (J : Document) → p < length b.now.positions
        → holds r.0.positions (length a.now.positions + p) J ≡ holds b.now.positions p J) }
{
    let mut nodes = Vec::with_capacity(alloc, (a.len() + b.len()) as usize)?;
    let mut ranks = Vec::with_capacity(alloc, (a.len() + b.len()) as usize)?;
    append(alloc, a, 0, &mut nodes, &mut ranks)?;
    append(alloc, b, a.len(), &mut nodes, &mut ranks)?;
    let nodes = NodeList::from_vec(nodes);
    let core = Core::make(alloc, nodes, RankList::from_vec(ranks))?;
    Ok((core, Pos(0), Pos(a.len())))
}

/// Appends the nodes of a table, moved up by `by`, and its ranks.
fn append(
    alloc: Global,
    core: &Core,
    by: u32,
    nodes: &mut Vec<Node>,
    ranks: &mut Vec<u64>,
) -> Result<(), Memory>
    requires { by + length core.now.positions < 2 ^ 32 }
    ensures nodes { IfOk result (λ _. map node_view nodes.new.items
        ≡ map node_view nodes.old.items ++ map (moved by) core.now.positions) }
    ensures ranks { IfOk result (λ _. ranks.new.items ≡ ranks.old.items ++ core.now.ranks) }
{
    for i in 0..core.len() {
        nodes.push(moved_node(alloc, core.node(Pos(i)), by)?)?;
        ranks.push(core.rank(Pos(i)))?;
    }
    Ok(())
}

fn moved_node(alloc: Global, node: &Node, by: u32) -> Result<Node, Memory>
    requires in_place { every (has_room by) (in_place (node_view node.now)) ≡ true }
    requires of_parts { every (has_room by) (of_parts (node_view node.now)) ≡ true }
    ensures { IfOk result (λ r. node_view r ≡ moved by (node_view node.now)) }
{
    match node {
        Node::Same(p) => Ok(Node::Same(moved_pos(*p, by))),
        Node::Not(p) => Ok(Node::Not(moved_pos(*p, by))),
        Node::All(ps) => Ok(Node::All(moved_list(alloc, ps, by)?)),
        Node::Any(ps) => Ok(Node::Any(moved_list(alloc, ps, by)?)),
        Node::One(ps) => Ok(Node::One(moved_list(alloc, ps, by)?)),
        Node::Depends(h, p) => Ok(Node::Depends(moved_pos(*h, by), moved_pos(*p, by))),
        Node::Items(ps, rest) => {
            let prefix = moved_list(alloc, ps, by)?;
            Ok(Node::Items(prefix, moved_pos(*rest, by)))
        }
        Node::Contains(p) => Ok(Node::Contains(moved_pos(*p, by))),
        Node::MembersOf(names, p) => {
            let names = names.copy(alloc)?;
            Ok(Node::MembersOf(names, moved_pos(*p, by)))
        }
        Node::NamesIn(p) => Ok(Node::NamesIn(moved_pos(*p, by))),
        // the others name no position
        node => node.copy(alloc),
    }
}

fn moved_pos(p: Pos, by: u32) -> Pos
    requires { has_room by p.0 ≡ true }
    ensures { result.0 ≡ by + p.0 }
{
    Pos(by + p.0)
}

fn moved_list(alloc: Global, list: &PosList, by: u32) -> Result<PosList, Memory>
    requires { every (has_room by) (places list.now) ≡ true }
    ensures { IfOk result (λ r. places r ≡ map (λ q. by + q) (places list.now)) }
{
    let mut moved = Vec::with_capacity(alloc, list.as_slice().len())?;
    for p in list.as_slice() {
        moved.push(moved_pos(*p, by))?;
    }
    Ok(PosList::from_vec(moved))
}
