//! What is appended behind the entries of a table.
//!
//! What a maker of `normal_forms` appends, a function pushes onto a sink; and the numbers that the maker names are
//! there, behind those that were named before. `run` of `specs/Runs.antt` says both at once. What a node needs below
//! itself is named apart, between `take_named` and `swap_named`.

ghost use Rattle.std.specs.Prelude.{◌≡◌, ◌+◌, [], IfOk, OnOk, map};
ghost use Rattle.normal_forms.specs.Nodes as M;
ghost use Rattle.normal_forms.specs.NormalForm as N;
ghost use Rattle.js_algebra.specs.View.{node_view, places};
ghost use Rattle.js_values.specs.Runs.{empty, run, with_named, of_entry};

use js_algebra::{Node, Pos};
use js_doc::Memory;
use std::alloc::Global;
use std::marker::Model;
use std::mem;

/// Nodes with their ranks, and the positions that are named. Nodes are numbered behind the entries.
#[derive(Drop)]
pub struct Sink {
    alloc: Global,
    first: u32,
    rank: u32,
    nodes: Vec<Node>,
    ranks: Vec<u64>,
    named: Vec<Pos>,
}

impl Model for Sink {
    ghost use Rattle.std.specs.Prelude.{map};
    ghost use Rattle.std.specs.Coded.{codes};
    ghost use Rattle.js_algebra.specs.TreeCode.{tree_code};
    ghost use Rattle.js_algebra.specs.View.{node_view, places};
    ghost use Rattle.js_values.specs.Runs.{State};

    ghost Value = { State };

    ghost coded = { Prim.hlevel (codes, tree_code) };

    ghost view = { λ s. record {
      first = s.first;
      rank = s.rank;
      nodes = map node_view s.nodes.items;
      ranks = s.ranks.items;
      named = places s.named.items;
    } };
}

impl Sink {
    /// A sink without nodes, whose first node gets the number `first`. It takes no memory.
    pub fn new(alloc: Global, first: u32) -> Sink
        ensures { result ≡ empty first }
    {
        Sink {
            alloc,
            first,
            rank: 0,
            nodes: Vec::new(alloc),
            ranks: Vec::new(alloc),
            named: Vec::new(alloc),
        }
    }

    /// What makers take memory from.
    pub fn alloc(&self) -> Global {
        self.alloc
    }

    /// From here on nodes are those of an entry of that rank, and none is named yet.
    pub fn begin_entry(&mut self, rank: u32)
        ensures { self.new ≡ of_entry rank self.old }
    {
        self.rank = rank;
        self.named = Vec::new(self.alloc);
    }

    /// Appends a node, and names it. As many nodes as there are numbers don't fit the memory.
    pub fn push(&mut self, node: Node) -> Result<(), Memory>
        ensures { OnOk result (self.new ≡ run (M.node (node_view node)) self.old) }
    {
        let number = number_behind(self.first, self.nodes.len())?;
        self.nodes.push(node)?;
        self.ranks.push(node_rank(self.rank, number))?;
        self.named.push(Pos(number))?;
        Ok(())
    }

    /// Names a position that is in the table already.
    pub fn name(&mut self, position: Pos) -> Result<(), Memory>
        ensures { OnOk result (self.new ≡ run (M.entry position.0) self.old) }
    {
        self.named.push(position)?;
        Ok(())
    }

    /// The positions that are named so far. From here on others are named, as those that a node needs below itself.
    pub fn take_named(&mut self) -> Vec<Pos>
        ensures named { places result.items ≡ self.old.named }
        ensures rest { self.new ≡ with_named [] self.old }
    {
        mem::replace(&mut self.named, Vec::new(self.alloc))
    }

    /// The positions that were named since `take_named` gave `outer`, which are named again.
    pub fn swap_named(&mut self, outer: Vec<Pos>) -> Vec<Pos>
        ensures named { places result.items ≡ self.old.named }
        ensures rest { self.new ≡ with_named (places outer.items) self.old }
    {
        mem::replace(&mut self.named, outer)
    }

    /// The nodes that were appended, without the entries, and the rank of each at the same index.
    pub fn into_nodes_and_ranks(self) -> (Vec<Node>, Vec<u64>)
        ensures nodes { map node_view result.0.items ≡ self.nodes }
        ensures ranks { result.1.items ≡ self.ranks }
    {
        let Sink { nodes, ranks, .. } = self;
        (nodes, ranks)
    }
}

/// The number of the node behind so many nodes, and behind the entries.
fn number_behind(first: u32, count: usize) -> Result<u32, Memory>
    ensures { IfOk result (λ n. n ≡ first + count) }
{
    let Ok(count) = u32::try_from(count) else {
        return Err(Memory);
    };
    match first.checked_add(count) {
        Some(number) => Ok(number),
        None => Err(Memory),
    }
}

/// The rank of an entry's node.
fn node_rank(rank: u32, number: u32) -> u64
    ensures { result ≡ N.node_rank rank number }
{
    u64::from(rank) * 4_294_967_296 + u64::from(number)
}
