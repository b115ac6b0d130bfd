//! Positions at a name.
//!
//! It goes from a position to those that it names in place, each time that they are named, and recurs as deep as these
//! follow one another.

ghost use Rattle.std.specs.Prelude.{◌≡◌, ◌<◌, ℕ, List, map, length, nat_lt, true};
ghost use Rattle.documents.specs.Tests.{every, some};
ghost use Rattle.documents.specs.Measures.{exactly_one};
ghost use Rattle.documents.specs.Document.{string};
ghost use Rattle.documents.specs.Kind as K;
ghost use Rattle.positions.specs.Holds.{holds};
ghost use Rattle.js_algebra.specs.View.{node_view, kind_view, places};
ghost use Rattle.name_truths.specs.NameTruth.{asked_of_string, own_atoms, atoms, atoms_within, are_known, are_all_known, asks_name, name_holds, name_within, AreTrue};

use crate::truths::Truths;
use js_algebra::{Core, JsonKind, KindList, Node, Pos, PosList};

/// Whether the position holds of the name whose atoms have these truths, as a string. It takes no memory, and a look at
/// each position that it comes to, as often as it comes there.
#[tactic(auto, using(name_laws::proofs::NameLaws::holds_by_truths))]
pub fn name_truth<S: Truths>(core: &Core, p: Pos, truths: &S) -> bool
    requires place { p.0 < length core.now.positions }
    requires known { are_all_known (S.knows truths.now) (atoms core.now.positions p.0) ≡ true }
    ensures value { result ≡ name_holds core.now.positions (S.truth truths.now) p.0 }
    ensures holds { (w : List ℕ) → AreTrue (S.truth truths.now) w (atoms core.now.positions p.0)
        → result ≡ holds core.now.positions p.0 (string w) }
{
    is_held(core, core.len(), p, truths)
}

/// `name_truth` within `steps` positions in place, one below another; false where these don't suffice.
#[cycle(names)]
#[tactic(auto, using(name_laws::proofs::KnownLaws::own_known, name_laws::proofs::KnownLaws::asked_known, name_laws::proofs::KnownLaws::asked_named))]
fn is_held<S: Truths>(core: &Core, steps: u32, p: Pos, truths: &S) -> bool
    requires place { p.0 < length core.now.positions }
    requires known { are_all_known (S.knows truths.now) (atoms_within core.now.positions steps p.0) ≡ true }
    ensures { result ≡ name_within core.now.positions (S.truth truths.now) steps p.0 }
{
    if steps == 0 {
        return false;
    }
    is_met(core, steps - 1, core.node(p), truths)
}

/// What the position requires of the name, with so many steps from those that it names.
#[cycle(names)]
fn is_met<S: Truths>(core: &Core, steps: u32, node: &Node, truths: &S) -> bool
    requires places { every (λ q. nat_lt q (length core.now.positions)) (asked_of_string (node_view node.now)) ≡ true }
    requires own { are_all_known (S.knows truths.now) (own_atoms (node_view node.now)) ≡ true }
    requires known { are_known (S.knows truths.now) core.now.positions steps
        (asked_of_string (node_view node.now)) ≡ true }
    ensures { result ≡ asks_name (S.truth truths.now) (name_within core.now.positions (S.truth truths.now) steps)
        (node_view node.now) }
{
    match node {
        Node::False => false,
        Node::Same(q) => is_held(core, steps, *q, truths),
        Node::Not(q) => !is_held(core, steps, *q, truths),
        Node::All(qs) => are_held(core, steps, qs, truths),
        Node::Any(qs) => is_one_held(core, steps, qs, truths),
        Node::One(qs) => is_just_one_held(core, steps, qs, truths),
        Node::Types(kinds) => has_text(kinds),
        Node::Words(words) => truths.listed(words),
        Node::Match(pattern) => truths.matches(&pattern.re),
        Node::LengthMin(n) => *n == 0 || truths.long(u128::from(*n)),
        Node::LengthMax(n) => !truths.long(u128::from(*n) + 1),
        // positions that constrain other kinds
        _ => true,
    }
}

/// Whether all of them hold.
#[cycle(names)]
fn are_held<S: Truths>(core: &Core, steps: u32, list: &PosList, truths: &S) -> bool
    requires places { every (λ q. nat_lt q (length core.now.positions)) (places list.now) ≡ true }
    requires known { are_known (S.knows truths.now) core.now.positions steps (places list.now) ≡ true }
    ensures { result ≡ every (name_within core.now.positions (S.truth truths.now) steps) (places list.now) }
{
    for q in list.as_slice() {
        if !is_held(core, steps, *q, truths) {
            return false;
        }
    }
    true
}

/// Whether at least one of them holds.
#[cycle(names)]
fn is_one_held<S: Truths>(core: &Core, steps: u32, list: &PosList, truths: &S) -> bool
    requires places { every (λ q. nat_lt q (length core.now.positions)) (places list.now) ≡ true }
    requires known { are_known (S.knows truths.now) core.now.positions steps (places list.now) ≡ true }
    ensures { result ≡ some (name_within core.now.positions (S.truth truths.now) steps) (places list.now) }
{
    for q in list.as_slice() {
        if is_held(core, steps, *q, truths) {
            return true;
        }
    }
    false
}

/// Whether exactly one of them holds.
#[cycle(names)]
fn is_just_one_held<S: Truths>(core: &Core, steps: u32, list: &PosList, truths: &S) -> bool
    requires places { every (λ q. nat_lt q (length core.now.positions)) (places list.now) ≡ true }
    requires known { are_known (S.knows truths.now) core.now.positions steps (places list.now) ≡ true }
    ensures { result ≡ exactly_one (name_within core.now.positions (S.truth truths.now) steps) (places list.now) }
{
    let mut found = false;
    for q in list.as_slice() {
        if is_held(core, steps, *q, truths) {
            if found {
                return false;
            }
            found = true;
        }
    }
    found
}

/// Whether strings are among the kinds, in time in proportion to the list.
pub fn has_text(kinds: &KindList) -> bool
    ensures { result ≡ some (K.same_kind K.Text) (map kind_view kinds.now) }
{
    kinds.as_slice().contains(&JsonKind::Text)
}
