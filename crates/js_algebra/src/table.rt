//! Core tables: positions that name one another, with ranks that fall from each to those that it names in place.

ghost use Rattle.std.specs.Prelude.{◌≡◌, ◌<◌, ◌^◌, map, length, true, get_or, IfOk};

use crate::ends::ends_of;
use crate::lists::{NodeList, RankList};
use crate::node::{Node, Pos};
use crate::signed::Signed;
use js_doc::Memory;
use std::alloc::Global;
use std::marker::Model;

/// A table of positions, each of which names only positions of the table. Contracts see its `positions` and `ranks`.
#[derive(Drop)]
pub struct Core {
    nodes: NodeList,
    ranks: RankList,
    /// For each position, taken with plus, where its references end.
    ends: Vec<Signed>,
}

impl Model for Core {
    ghost use Rattle.std.specs.Prelude.{map};
    ghost use Rattle.std.specs.Coded.{codes};
    ghost use Rattle.js_algebra.specs.TreeCode.{tree_code};
    ghost use Rattle.js_algebra.specs.View.{Table, IsCore, node_view, signed_view};

    ghost Value = { Table };

    ghost coded = { Prim.hlevel (codes, tree_code) };

    ghost view = { λ c. record { positions = map node_view c.nodes; ranks = c.ranks } };

    ghost invariant = { λ c. IsCore (map node_view c.nodes) c.ranks (map signed_view c.ends.items) };
}

impl Core {
    ghost use Rattle.positions.specs.Position.{is_table, position_at, names_below, in_range};
    ghost use Rattle.goals.specs.Goal as G;
    ghost use Rattle.js_algebra.specs.View.{node_view, signed_view, is_in_table, IsCore};

    /// The table of these nodes, with a rank for each: every position that a node names is in it, ranks fall from a
    /// node to those that it names in place, and bounds and divisors have their ranges. It takes time and memory in
    /// proportion to the number of positions, in which the ends of references are found.
    pub fn make(alloc: Global, nodes: NodeList, ranks: RankList) -> Result<Core, Memory>
        requires table { is_table (map node_view nodes) ranks ≡ true }
        requires small { length nodes < 2 ^ 32 }
        ensures positions { IfOk result (λ c. c.positions ≡ map node_view nodes) }
        ensures ranks { IfOk result (λ c. c.ranks ≡ ranks) }
    {
        let ends = ends_of(alloc, nodes.as_slice())?;
        Ok(Core { nodes, ranks, ends })
    }

    /// How many positions there are, in constant time. They are numbered from 0.
    pub fn len(&self) -> u32
        ensures value { result ≡ length self.now.positions }
        ensures table { is_table self.now.positions self.now.ranks ≡ true }
    {
        self.nodes.as_slice().len() as u32
    }

    /// The node at that position, lent in constant time.
    pub fn node(&self, p: Pos) -> &Node
        requires { p.0 < length self.now.positions }
        ensures value { node_view result.now ≡ position_at self.now.positions p.0 }
        ensures named { names_below (length self.now.positions) (node_view result.now) ≡ true }
        ensures range { in_range (node_view result.now) ≡ true }
    {
        &self.nodes.as_slice()[p.0 as usize]
    }

    /// The rank of that position, in constant time. It is above those of the positions that it names in place.
    pub fn rank(&self, p: Pos) -> u64
        requires { p.0 < length self.now.positions }
        ensures { result ≡ get_or self.now.ranks p.0 0 }
    {
        self.ranks.as_slice()[p.0 as usize]
    }

    /// Where the references of `x` end.
    pub(crate) fn follow(&self, x: Signed) -> Signed
        requires { is_in_table self.now.positions (signed_view x) ≡ true }
        ensures value { signed_view result ≡ G.follow self.now.positions (signed_view x) }
        ensures in_table { is_in_table self.now.positions (signed_view result) ≡ true }
    {
        self.ends[x.pos.0 as usize].signed_by(x.plus)
    }
}
