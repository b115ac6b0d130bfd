//! The truths of the positions of a plan at one name, found one after another in a room with a place for each position.

ghost use Rattle.std.specs.Prelude.{◌≡◌, ◌≤◌, ◌++◌, ℕ, List, Bool, map, length, nat_lt, not, true, false};
ghost use Rattle.documents.specs.Tests.{every, some};
ghost use Rattle.documents.specs.Measures.{exactly_one};
ghost use Rattle.word_states.specs.Atom.{Atom};
ghost use Rattle.positions.specs.Position.{position_at};
ghost use Rattle.name_truths.specs.NameTruth.{asked_of_string, asks_name};
ghost use Rattle.name_laws.specs.Plans.{is_leaf, asks_earlier, atoms_of};
ghost use Rattle.name_laws.specs.Rooms.{truth_at, is_right, leaf_holds};
ghost use Rattle.js_algebra.specs.View.{node_view, places};
ghost use Rattle.js_tableau.specs.NamePlans.{places_of};

use crate::name_plan::Ranked;
use crate::names::has_text;
use js_algebra::{Core, Node, Pos, PosList};

/// Writes whether each leaf holds, by the truth of its atom.
pub fn fill(core: &Core, leaves: &[Pos], truths: &[bool], room: &mut [bool])
    requires within { every (λ q. nat_lt q (length core.now.positions)) (places leaves.now) ≡ true }
    requires leaves { every (λ q. is_leaf (position_at core.now.positions q)) (places leaves.now) ≡ true }
    requires truths { length truths.now ≡ length leaves.now }
    requires room { length core.now.positions ≤ length room.old }
    ensures { (truth : Atom → Bool) → truths.now ≡ map truth (atoms_of core.now.positions (places leaves.now))
        → every (is_right core.now.positions truth room.new) (places leaves.now) ≡ true }
{
    let _length = core.len();
    for (k, p) in leaves.iter().enumerate() {
        room[p.0 as usize] = is_leaf_held(core.node(*p), truths[k]);
    }
}

/// Writes whether each of the others holds. Each depends only on such as were seen before it.
pub fn sweep(core: &Core, inner: &[Ranked], room: &mut [bool])
    requires within { every (λ q. nat_lt q (length core.now.positions)) (places_of inner.now) ≡ true }
    requires inner { every (λ q. not (is_leaf (position_at core.now.positions q))) (places_of inner.now) ≡ true }
    requires room { length core.now.positions ≤ length room.old }
    ensures { (truth : Atom → Bool) (seen : List ℕ)
        → asks_earlier core.now.positions seen (places_of inner.now) ≡ true
        → every (is_right core.now.positions truth room.old) seen ≡ true
        → every (is_right core.now.positions truth room.new) (seen ++ places_of inner.now) ≡ true }
{
    let _length = core.len();
    for r in inner {
        let is_held = is_met(core.node(r.pos), room);
        room[r.pos.0 as usize] = is_held;
    }
}

/// Whether a leaf holds, by the truth of its atom.
fn is_leaf_held(node: &Node, truth: bool) -> bool
    ensures { result ≡ leaf_holds (node_view node.now) truth }
{
    match node {
        Node::LengthMax(_) => !truth,
        _ => truth,
    }
}

/// What another position requires of the name, by what is in the room.
fn is_met(node: &Node, room: &[bool]) -> bool
    requires inner { is_leaf (node_view node.now) ≡ false }
    requires places { every (λ q. nat_lt q (length room.now)) (asked_of_string (node_view node.now)) ≡ true }
    ensures { (truth : Atom → Bool) → result ≡ asks_name truth (truth_at room.now) (node_view node.now) }
{
    match node {
        Node::False => false,
        Node::Same(q) => room[q.0 as usize],
        Node::Not(q) => !room[q.0 as usize],
        Node::All(qs) => are_held(qs, room),
        Node::Any(qs) => is_one_held(qs, room),
        Node::One(qs) => is_just_one_held(qs, room),
        Node::Types(kinds) => has_text(kinds),
        // every name has at least no characters, and all other positions constrain other kinds
        _ => true,
    }
}

/// Whether all of them hold.
fn are_held(list: &PosList, room: &[bool]) -> bool
    requires { every (λ q. nat_lt q (length room.now)) (places list.now) ≡ true }
    ensures { result ≡ every (truth_at room.now) (places list.now) }
{
    list.as_slice().iter().all(|q| room[q.0 as usize])
}

/// Whether at least one of them holds.
fn is_one_held(list: &PosList, room: &[bool]) -> bool
    requires { every (λ q. nat_lt q (length room.now)) (places list.now) ≡ true }
    ensures { result ≡ some (truth_at room.now) (places list.now) }
{
    list.as_slice().iter().any(|q| room[q.0 as usize])
}

/// Whether exactly one of them holds.
fn is_just_one_held(list: &PosList, room: &[bool]) -> bool
    requires { every (λ q. nat_lt q (length room.now)) (places list.now) ≡ true }
    ensures { result ≡ exactly_one (truth_at room.now) (places list.now) }
{
    let mut found = false;
    for q in list.as_slice() {
        if room[q.0 as usize] {
            if found {
                return false;
            }
            found = true;
        }
    }
    found
}
