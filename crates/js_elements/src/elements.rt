//! What a set of signed positions requires of elements.

ghost use Rattle.std.specs.Prelude.{◌≡◌, map, true, length, filter, IfOk};
ghost use Rattle.std.specs.Option.{option_to_list};
ghost use Rattle.frames.specs.ArrayFrame as A;
ghost use Rattle.js_algebra.specs.View.{signed_view, node_view, places, is_in_table, are_in_table};
ghost use Rattle.js_elements.specs.Elements.{asked_at, served_at};

use js_algebra::{Core, Node, Pos, Signed};
use js_doc::Memory;
use std::alloc::Global;

/// What a literal requires of the element at an index.
pub fn asked(core: &Core, index: usize, x: Signed) -> Option<Signed>
    requires { is_in_table core.now.positions (signed_view x) ≡ true }
    ensures value { map signed_view (option_to_list result) ≡ asked_at core.now.positions index (signed_view x) }
    ensures in_table { are_in_table core.now.positions (map signed_view (option_to_list result)) ≡ true }
{
    let node = core.node(x.pos);
    if x.plus {
        plus_each(node, index)
    } else {
        minus_each(node)
    }
}

/// What a literal requires of the element at an index that serves it, none where no element has to.
pub fn served(core: &Core, index: usize, x: Signed) -> Option<Signed>
    requires { is_in_table core.now.positions (signed_view x) ≡ true }
    ensures value { map signed_view (option_to_list result) ≡ served_at core.now.positions index (signed_view x) }
    ensures in_table { are_in_table core.now.positions (map signed_view (option_to_list result)) ≡ true }
{
    let node = core.node(x.pos);
    if x.plus {
        plus_serving(node)
    } else {
        minus_serving(node, index)
    }
}

fn plus_each(node: &Node, index: usize) -> Option<Signed>
    ensures { map signed_view (option_to_list result) ≡ A.plus_each index (node_view node.now) }
{
    match node {
        Node::Items(first, rest) => { Some(Signed::plus(item_at(first.as_slice(), *rest, index))) }
        _ => None,
    }
}

fn minus_each(node: &Node) -> Option<Signed>
    ensures { map signed_view (option_to_list result) ≡ A.minus_each (node_view node.now) }
{
    match node {
        Node::Contains(q) => Some(Signed::minus(*q)),
        _ => None,
    }
}

fn plus_serving(node: &Node) -> Option<Signed>
    ensures { map signed_view (option_to_list result) ≡ A.plus_serving (node_view node.now) }
{
    match node {
        Node::Contains(q) => Some(Signed::plus(*q)),
        _ => None,
    }
}

fn minus_serving(node: &Node, index: usize) -> Option<Signed>
    ensures { map signed_view (option_to_list result) ≡ A.minus_serving index (node_view node.now) }
{
    match node {
        Node::Items(first, rest) => { Some(Signed::minus(item_at(first.as_slice(), *rest, index))) }
        _ => None,
    }
}

fn item_at(first: &[Pos], rest: Pos, index: usize) -> Pos
    ensures { result.0 ≡ A.item_at (places first.now) rest.0 index }
{
    match first.get(index) {
        Some(p) => *p,
        None => rest,
    }
}

fn prefix_of(node: &Node) -> usize
    ensures { result ≡ A.prefix_of (node_view node.now) }
{
    match node {
        Node::Items(first, _) => first.as_slice().len(),
        _ => 0,
    }
}

/// The length of the longest list of first elements.
pub fn longest(core: &Core, set: &[Signed]) -> usize
    requires { are_in_table core.now.positions (map signed_view set.now) ≡ true }
    ensures { result ≡ A.longest core.now.positions (map signed_view set.now) }
{
    let mut longest = 0;
    for x in set {
        longest = longest.max(prefix_of(core.node(x.pos)));
    }
    longest
}

/// What some element has to serve.
pub fn demands(alloc: Global, core: &Core, set: &[Signed]) -> Result<Vec<Signed>, Memory>
    requires { are_in_table core.now.positions (map signed_view set.now) ≡ true }
    ensures value { IfOk result (λ v. map signed_view v.items
        ≡ filter (A.is_demand core.now.positions) (map signed_view set.now)) }
    ensures in_table { IfOk result (λ v. are_in_table core.now.positions (map signed_view v.items) ≡ true) }
{
    let mut demands = Vec::new(alloc);
    for x in set {
        if served(core, 0, *x).is_some() {
            demands.push(*x)?;
        }
    }
    Ok(demands)
}
