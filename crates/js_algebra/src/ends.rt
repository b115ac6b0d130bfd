//! The ends of references, found once for a table.
//!
//! A position that only names another one, `Same` or `Not`, is a reference. A walk along references stops at a position
//! whose end is known, and the end is left at each position that was passed; so all walks together take time in
//! proportion to the number of positions, however long the chains are.

ghost use Rattle.std.specs.Prelude.{◌≡◌, ◌<◌, ◌^◌, map, length, IfOk, true, set, option_map};
ghost use Rattle.goals.specs.Goal as G;
ghost use Rattle.js_algebra.specs.View.{node_view, signed_view, is_in_table};
ghost use Rattle.js_algebra.specs.Ends.{AreEnds, MayBeEnds, AreLeft, AreThemselves, HasEnds, reference_of, known_at, signed_by};

use crate::node::{Node, Pos};
use crate::signed::Signed;
use js_doc::Memory;
use std::alloc::Global;

/// For each position, taken with plus, where its references end.
pub(crate) fn ends_of(alloc: Global, nodes: &[Node]) -> Result<Vec<Signed>, Memory>
    requires ended { HasEnds (map node_view nodes.now) }
    requires small { length nodes.now < 2 ^ 32 }
    ensures { IfOk result (λ v. AreEnds (map node_view nodes.now) (map signed_view v.items)) }
{
    let count = nodes.len() as u32;
    let mut ends = themselves(alloc, count)?;
    for p in 0..count {
        let x = Signed::plus(Pos(p));
        let end = end_of(nodes, ends.as_slice(), x);
        leave(nodes, ends.as_mut_slice(), x, end);
    }
    Ok(ends)
}

/// So many positions, each taken with plus.
fn themselves(alloc: Global, count: u32) -> Result<Vec<Signed>, Memory>
    ensures { IfOk result (λ v. AreThemselves count (map signed_view v.items)) }
{
    let mut ends = Vec::with_capacity(alloc, count as usize)?;
    for p in 0..count {
        ends.push(Signed::plus(Pos(p)))?;
    }
    Ok(ends)
}

/// Where the references of `x` end. It takes a step for each that is passed before an end is known.
fn end_of(nodes: &[Node], ends: &[Signed], x: Signed) -> Signed
    requires ended { HasEnds (map node_view nodes.now) }
    requires in_table { is_in_table (map node_view nodes.now) (signed_view x) ≡ true }
    requires known { MayBeEnds (map node_view nodes.now) (map signed_view ends.now) }
    ensures { signed_view result ≡ G.follow (map node_view nodes.now) (signed_view x) }
{
    let mut at = x;
    for _ in 0..nodes.len() {
        if let Some(end) = known_end(ends, at) {
            return end;
        }
        match reference(nodes, at) {
            Some(next) => at = next,
            None => return at,
        }
    }
    at
}

/// Leaves the end of `x` at each position on the way to it, up to one whose end is known.
fn leave(nodes: &[Node], ends: &mut [Signed], x: Signed, end: Signed)
    requires ended { HasEnds (map node_view nodes.now) }
    requires in_table { is_in_table (map node_view nodes.now) (signed_view x) ≡ true }
    requires known { MayBeEnds (map node_view nodes.now) (map signed_view ends.old) }
    requires end { signed_view end ≡ G.follow (map node_view nodes.now) (signed_view x) }
    ensures { AreLeft (map node_view nodes.now) x.pos.0 (map signed_view ends.old) (map signed_view ends.new) }
{
    set_end(ends, x, end);
    let mut at = x;
    for _ in 0..nodes.len() {
        match reference(nodes, at) {
            Some(next) => at = next,
            None => return,
        }
        if known_end(ends, at).is_some() {
            return;
        }
        set_end(ends, at, end);
    }
}

/// The end of `x`, once it is known. That of a position that is no reference is itself, and never counts as known.
fn known_end(ends: &[Signed], x: Signed) -> Option<Signed>
    requires { x.pos.0 < length ends.now }
    ensures { option_map signed_view result ≡ known_at (map signed_view ends.now) x.plus x.pos.0 }
{
    let end = ends[x.pos.0 as usize];
    if end == Signed::plus(x.pos) {
        None
    } else {
        Some(end.signed_by(x.plus))
    }
}

fn set_end(ends: &mut [Signed], x: Signed, end: Signed)
    requires { x.pos.0 < length ends.old }
    ensures { map signed_view ends.new ≡ set (map signed_view ends.old) x.pos.0 (signed_by x.plus (signed_view end)) }
{
    ends[x.pos.0 as usize] = end.signed_by(x.plus);
}

/// The signed position that `x` stands for, where it is a reference.
fn reference(nodes: &[Node], x: Signed) -> Option<Signed>
    requires { x.pos.0 < length nodes.now }
    ensures { option_map signed_view result ≡ G.reference (map node_view nodes.now) (signed_view x) }
{
    nodes[x.pos.0 as usize].reference(x.plus)
}

impl Node {
    /// The signed position that the node with that sign stands for, where it is a reference.
    fn reference(&self, plus: bool) -> Option<Signed>
        ensures { option_map signed_view result ≡ reference_of plus (node_view self.now) }
    {
        match self {
            Node::Same(q) => Some(Signed::plus(*q).signed_by(plus)),
            Node::Not(q) => Some(Signed::minus(*q).signed_by(plus)),
            _ => None,
        }
    }
}
