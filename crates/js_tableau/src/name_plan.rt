//! Positions at many names, by a plan that is made once.
//!
//! A plan has the positions to which steps in place lead, each once: first those that are an atom, in the order in
//! which they are first come to, then the others by rank, so that each depends only on those before it. They are found
//! by a stack of its own. The truth at a name is then one look at each of them, in a room that the caller keeps,
//! without recursion and without memory. Cells of names, the leaves of objects and the checker judge many names with
//! one plan.

ghost use Rattle.std.specs.Prelude.{◌≡◌, ◌<◌, ◌≤◌, ◌++◌, ℕ, List, Bool, map, filter, length, nat_eq, nat_lt, not, true, IfOk};
ghost use Rattle.std.specs.List.{IsDistinct};
ghost use Rattle.std.specs.List.Sorted.{IsPermutation, IsNonDecreasingBy};
ghost use Rattle.documents.specs.Tests.{every};
ghost use Rattle.documents.specs.Document.{string};
ghost use Rattle.word_states.specs.Atom.{Atom, is_true};
ghost use Rattle.positions.specs.Position.{position_at};
ghost use Rattle.positions.specs.Holds.{holds};
ghost use Rattle.name_truths.specs.NameTruth.{atoms, name_holds};
ghost use Rattle.name_laws.specs.Plans.{IsPlan, SameMentions, atoms_of, is_leaf, rises};
ghost use Rattle.js_algebra.specs.View.{node_view, places};
ghost use Rattle.js_tableau.specs.NamePlans.{places_of, have_ranks};

use crate::name_room::{fill, sweep};
use crate::reached::reached;
use js_algebra::{Core, Node, Pos};
use js_doc::Memory;
use std::alloc::Global;
use std::marker::Model;

/// A position with its rank.
#[derive(Clone, Copy)]
pub struct Ranked {
    pub rank: u64,
    pub pos: Pos,
}

/// In which order the truths of positions at a name are found. Contracts see it as a `Plan`.
#[derive(Drop)]
pub struct NamePlan {
    root: Pos,
    leaves: Vec<Pos>,
    inner: Vec<Ranked>,
}

impl Model for NamePlan {
    ghost use Rattle.name_laws.specs.Plans.{Plan};
    ghost use Rattle.js_algebra.specs.View.{places};
    ghost use Rattle.js_tableau.specs.NamePlans.{places_of};

    ghost Value = { Plan };

    ghost view = { λ t. record { root = t.root.0; leaves = places t.leaves.items; inner = places_of t.inner.items } };
}

impl NamePlan {
    /// The plan of a position. It costs what the positions to which steps lead name together, and a sort by rank of
    /// those that are no atom; it takes memory for them alone, and not for the table.
    pub fn new(alloc: Global, core: &Core, p: Pos) -> Result<NamePlan, Memory>
        requires { p.0 < length core.now.positions }
        ensures root { IfOk result (λ plan. plan.root ≡ p.0) }
        ensures plan { IfOk result (λ plan. IsPlan core.now.positions plan) }
        ensures rising { IfOk result (λ plan. rises core.now.ranks plan.inner ≡ true) }
        ensures distinct { IfOk result (λ plan. IsDistinct nat_eq (plan.leaves ++ plan.inner)) }

        // The atoms of its leaves are those of the position, in the order in which these are first mentioned.
        ensures atoms { IfOk result (λ plan.
            SameMentions (atoms_of core.now.positions plan.leaves) (atoms core.now.positions p.0)) }
    {
        // The length comes with the fact that ranks fall, on which the order rests.
        let _length = core.len();
        let found = reached(alloc, core, p)?;
        let leaves = leaves_of(alloc, core, found.as_slice())?;
        let others = others_of(alloc, core, found.as_slice())?;
        Ok(NamePlan {
            root: p,
            leaves,
            inner: by_rank(others),
        })
    }

    /// The position whose truth the plan finds.
    pub fn root(&self) -> Pos
        ensures { result.0 ≡ self.now.root }
    {
        self.root
    }

    /// The positions that are an atom, or the opposite of one: word lists, patterns, least lengths above 0 and greatest
    /// lengths. Leaf `k` takes the truth of atom `k`, and two leaves may have equal atoms.
    pub fn leaves(&self) -> &[Pos]
        ensures places { places result.now ≡ self.now.leaves }
        ensures count { length result.now ≡ length self.now.leaves }
    {
        self.leaves.as_slice()
    }

    /// Whether the position holds of a name, by the truths of the atoms of the leaves in order. The room has a place
    /// for each position of the table, and what is in it doesn't matter. It takes no memory, and a look at each
    /// position of the plan and at those that it depends on.
    pub fn truth(&self, core: &Core, truths: &[bool], room: &mut [bool]) -> bool
        requires plan { IsPlan core.now.positions self.now }
        requires truths { length truths.now ≡ length self.now.leaves }
        requires room { length core.now.positions ≤ length room.old }
        ensures value { (truth : Atom → Bool) → truths.now ≡ map truth (atoms_of core.now.positions self.now.leaves)
            → result ≡ name_holds core.now.positions truth self.now.root }
        ensures holds { (w : List ℕ)
            → truths.now ≡ map (λ a. is_true a w) (atoms_of core.now.positions self.now.leaves)
            → result ≡ holds core.now.positions self.now.root (string w) }
    {
        // The length comes with the fact that ranks fall, so that a position holds where what it requires is met.
        let _length = core.len();
        fill(core, self.leaves.as_slice(), truths, room);
        sweep(core, self.inner.as_slice(), room);
        room[self.root.0 as usize]
    }
}

/// The positions that are an atom, in their order.
fn leaves_of(alloc: Global, core: &Core, found: &[u32]) -> Result<Vec<Pos>, Memory>
    requires { every (λ q. nat_lt q (length core.now.positions)) found.now ≡ true }
    ensures { IfOk result (λ v. places v.items ≡ filter (λ q. is_leaf (position_at core.now.positions q)) found.now) }
{
    let mut leaves = Vec::new(alloc);
    for q in found {
        let pos = Pos(*q);
        let is_leaf = is_atom(core.node(pos));
        if is_leaf {
            leaves.push(pos)?;
        }
    }
    Ok(leaves)
}

/// The others, in their order, with their ranks.
fn others_of(alloc: Global, core: &Core, found: &[u32]) -> Result<Vec<Ranked>, Memory>
    requires { every (λ q. nat_lt q (length core.now.positions)) found.now ≡ true }
    ensures places { IfOk result (λ v.
        places_of v.items ≡ filter (λ q. not (is_leaf (position_at core.now.positions q))) found.now) }
    ensures ranks { IfOk result (λ v. have_ranks core.now.ranks v.items ≡ true) }
{
    let mut others = Vec::new(alloc);
    for q in found {
        let pos = Pos(*q);
        let is_leaf = is_atom(core.node(pos));
        if !is_leaf {
            let rank = core.rank(pos);
            others.push(Ranked { rank, pos })?;
        }
    }
    Ok(others)
}

fn by_rank(mut items: Vec<Ranked>) -> Vec<Ranked>
    ensures same { IsPermutation items.items result.items }
    ensures order { IsNonDecreasingBy (λ (r : Ranked). r.rank) result.items }
{
    items.sort_unstable_by_key(|r| r.rank);
    items
}

/// Whether the position is an atom, or the opposite of one.
fn is_atom(node: &Node) -> bool
    ensures { result ≡ is_leaf (node_view node.now) }
{
    match node {
        Node::Words(_) | Node::Match(_) | Node::LengthMax(_) => true,
        Node::LengthMin(n) => *n != 0,
        _ => false,
    }
}
