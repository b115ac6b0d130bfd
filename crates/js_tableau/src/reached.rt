//! The positions to which steps in place lead from a position at a name.

ghost use Rattle.std.specs.Prelude.{◌≡◌, ◌++◌, ◌<◌, length, reverse, IfOk, OnOk};
ghost use Rattle.name_truths.specs.NameTruth.{asked_of_string};
ghost use Rattle.name_laws.specs.Searches.{AreReached};
ghost use Rattle.js_algebra.specs.View.{node_view, places};

use indexmap::IndexSet;
use js_algebra::{Core, Node, Pos};
use js_doc::Memory;
use std::alloc::Global;

/// Each position once, in the order in which they are first come to, depth first. No dependency is entered.
pub fn reached(alloc: Global, core: &Core, p: Pos) -> Result<IndexSet<u32>, Memory>
    requires { p.0 < length core.now.positions }
    ensures { IfOk result (λ found. AreReached core.now.positions p.0 found.keys) }
{
    let _length = core.len();
    let mut found = IndexSet::new(alloc);
    let mut waiting = vec![in alloc; p]?;
    while let Some(q) = waiting.pop() {
        let is_new = found.insert(q.0)?;
        if is_new {
            add_asked(core.node(q), &mut waiting)?;
        }
    }
    Ok(found)
}

/// Those that the position depends on at a string are added, the first one next.
fn add_asked(node: &Node, waiting: &mut Vec<Pos>) -> Result<(), Memory>
    ensures { OnOk result (reverse (places waiting.new.items)
        ≡ asked_of_string (node_view node.now) ++ reverse (places waiting.old.items)) }
{
    match node {
        Node::Same(q) | Node::Not(q) => waiting.push(*q)?,
        Node::All(qs) | Node::Any(qs) | Node::One(qs) => add_list(qs.as_slice(), waiting)?,
        _ => {}
    }
    Ok(())
}

fn add_list(list: &[Pos], waiting: &mut Vec<Pos>) -> Result<(), Memory>
    ensures { OnOk result (reverse (places waiting.new.items)
        ≡ places list.now ++ reverse (places waiting.old.items)) }
{
    let mut index = list.len();
    while index > 0 {
        index -= 1;
        waiting.push(list[index])?;
    }
    Ok(())
}
