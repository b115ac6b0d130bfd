//! Goals: rising lists of signed positions without a clash, formed from any list.
//!
//! A goal stands for its list; that it rises holds of every value. Forming one follows each signed position along its
//! references, sorts, and looks for a clash at neighbours, so its cost is that of the sort.

ghost use Rattle.std.specs.Prelude.{◌≡◌, map, length, IfOk, IfSome, true, List, []};
ghost use Rattle.goals.specs.Signed.{is_rising, add_all};
ghost use Rattle.goals.specs.Goal as G;
ghost use Rattle.documents.specs.Document.{Document};
ghost use Rattle.goals.specs.Signed.{meets};
ghost use Rattle.goal_laws.specs.Formed.{meets_goal};
ghost use Rattle.js_algebra.specs.View.{signed_view, is_in_table, are_in_table};
ghost use Rattle.js_algebra.specs.Close.{clashes_nearby, begins_with};
ghost use Rattle.js_algebra.specs.Equality.{same_goal, same_goal_equiv, goal_writes, goals_Alike};
ghost use Rattle.positions.specs.Position.{Position};
ghost use Rattle.std.specs.Cmp.{partial_equiv_from_equiv};

use crate::node::Node;
use crate::signed::Signed;
use crate::table::Core;
use js_doc::Memory;
use std::alloc::{AllocError, Global};
use std::hash::{Hash, Hasher};
use std::marker::Model;

/// A set of signed positions, strictly rising by position with plus before minus.
#[derive(Drop)]
pub struct Goal {
    items: Vec<Signed>,
}

impl Model for Goal {
    ghost use Rattle.std.specs.Prelude.{◌≡◌, List, map, true};
    ghost use Rattle.goals.specs.Signed.{Signed, is_rising};

    ghost Value = { List Signed };

    ghost use Rattle.js_algebra.specs.View.{signed_view};

    ghost view = { λ g. map signed_view g.items.items };

    ghost invariant = { λ g. is_rising (map signed_view g.items.items) ≡ true };
}

impl Goal {
    /// The signed positions in rising order, lent without a copy: by position, plus before minus.
    pub fn as_slice(&self) -> &[Signed]
        ensures list { map signed_view result.now ≡ self.now }
        ensures rising { is_rising self.now ≡ true }
    {
        self.items.as_slice()
    }
}

impl Clone for Goal {
    ghost is_clone = { λ g h. h ≡ g };

    fn clone(&self) -> Result<Goal, AllocError> {
        let items = self.items.clone()?;
        Ok(Goal { items })
    }
}

/// Goals are equal where their lists are.
impl PartialEq for Goal {
    ghost eq = { same_goal };

    ghost laws = { partial_equiv_from_equiv same_goal_equiv };

    fn eq(&self, other: &Goal) -> bool {
        self.items == other.items
    }
}

impl Eq for Goal {
    ghost laws = { same_goal_equiv };
}

impl Hash for Goal {
    ghost hash_input = { goal_writes };

    ghost respects_eq = { goals_Alike.fed };

    fn hash<H: Hasher>(&self, state: &mut H) {
        self.items.as_slice().hash(state);
    }
}

/// The goal of a list: each signed position followed along its references, sorted, without repeats and without what
/// every document meets. None exactly where no document meets one of them, or two are opposite.
pub fn form(alloc: Global, core: &Core, list: &[Signed]) -> Result<Option<Goal>, Memory>
    requires { are_in_table core.now.positions (map signed_view list.now) ≡ true }
    ensures goal { IfOk result (λ o. o ≡ G.form core.now.positions (map signed_view list.now)) }
    ensures in_table { IfOk result (λ o. IfSome o (λ g. are_in_table core.now.positions g ≡ true)) }

    // A document meets the list exactly where it meets the goal, and none where there is none.
    ensures meaning { IfOk result (λ o. (J : Document)
        → meets core.now.positions (map signed_view list.now) J ≡ meets_goal core.now.positions o J) }
{
    // The length comes with the fact that ranks fall, on which `meaning` rests.
    let _length = core.len();
    let found = core.followed(alloc, list)?;
    let items = sorted(found);
    if core.clashes_nearby(items.as_slice()) {
        return Ok(None);
    }
    Ok(Some(Goal { items }))
}

/// The list in rising order, each signed position once.
pub(crate) fn sorted(mut items: Vec<Signed>) -> Vec<Signed>
    ensures { map signed_view result.items ≡ add_all (map signed_view items.items) [] }
{
    items.sort_unstable_by_key(|x| x.order());
    items.dedup();
    items
}

impl Core {
    /// Whether every document meets `x`.
    fn is_always(&self, x: Signed) -> bool
        requires { is_in_table self.now.positions (signed_view x) ≡ true }
        ensures { result ≡ G.is_always self.now.positions (signed_view x) }
    {
        match self.node(x.pos) {
            Node::True => x.plus,
            Node::False => !x.plus,
            _ => false,
        }
    }

    fn followed(&self, alloc: Global, list: &[Signed]) -> Result<Vec<Signed>, Memory>
        requires { are_in_table self.now.positions (map signed_view list.now) ≡ true }
        ensures value { IfOk result (λ v. map signed_view v.items ≡ G.followed self.now.positions
            (map signed_view list.now)) }
        ensures in_table { IfOk result (λ v. are_in_table self.now.positions (map signed_view v.items) ≡ true) }
    {
        let mut found = Vec::with_capacity(alloc, list.len())?;
        for x in list {
            let y = self.follow(*x);
            if !self.is_always(y) {
                found.push(y)?;
            }
        }
        Ok(found)
    }

    /// Whether a rising list clashes: opposites are side by side in it.
    fn clashes_nearby(&self, items: &[Signed]) -> bool
        requires { are_in_table self.now.positions (map signed_view items.now) ≡ true }
        ensures { result ≡ clashes_nearby self.now.positions (map signed_view items.now) }
    {
        for (i, x) in items.iter().enumerate() {
            let opposite = x.opposite();
            if self.is_always(opposite) || begins_with(&items[i + 1..], opposite) {
                return true;
            }
        }
        false
    }
}

fn begins_with(items: &[Signed], x: Signed) -> bool
    ensures { result ≡ begins_with (signed_view x) (map signed_view items.now) }
{
    match items.first() {
        Some(y) => *y == x,
        None => false,
    }
}

/// Whether each signed position of the small goal is one of the big goal: one pass over both, without memory.
pub fn contains(big: &Goal, small: &Goal) -> bool
    ensures value { result ≡ G.contains big.now small.now }

    // A document that meets the big goal meets a small one that it contains.
    ensures meaning { (T : List Position) (J : Document) → result ≡ true → meets T big.now J ≡ true
        → meets T small.now J ≡ true }
{
    let mut left = small.as_slice();
    let all = big.as_slice();
    for x in all {
        match left {
            [] => return true,
            [y, rest @ ..] => {
                if *x == *y {
                    left = rest;
                } else if y.order() < x.order() {
                    return false;
                }
            }
        }
    }
    left.is_empty()
}
