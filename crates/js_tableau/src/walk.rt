//! The path of a walk through a tree: its set, and what still needs a choice.
//!
//! A signed position is settled where one of its choices is in the set, or it has none. Each member of the set is
//! waiting or was seen to be settled; so the least that isn't settled is found by taking the least waiting ones.

ghost use Rattle.std.specs.Prelude.{◌≡◌, ◌<◌, ◌≤◌, ◌*◌, ℕ, List, [], ◌∷◌, map, take, length, IfOk, OnOk, IfSome, MatchOption, true, false, Option, Some, None, get_or, option_map, not, nat_lt};
ghost use Rattle.documents.specs.Tests.{every, some};
ghost use Rattle.goals.specs.Signed.{has, opposite};
ghost use Rattle.goals.specs.Choices.{choices, is_wrong};
ghost use Rattle.positions.specs.Position.{is_table};
ghost use Rattle.goals.specs.Tree.{next, choice_list, has_choice};
ghost use Rattle.js_algebra.specs.View.{signed_view, kind_view, is_in_table, are_in_table};
ghost use Rattle.js_algebra.specs.Rules.{choice_view};
ghost use Rattle.js_algebra.specs.Order.{order_of};
ghost use Rattle.js_algebra.specs.SignedSets.{with_member, with_members, set_of};
ghost use Rattle.js_tableau.specs.Walks.{IsCovered, is_clean, are_settled, are_settled_but, step_view, IsLeast, is_clash, Follows, Keeps};

use crate::waiting::Waiting;
use js_algebra::{Choice, Core, JsonKind, Signed, SignedSet};
use js_doc::Memory;
use std::alloc::Global;

/// What the tree has at a set; `step_view` is the step that it stands for. A rule comes with the number of its choices.
#[derive(Clone, Copy)]
pub enum Step {
    /// The position of the signed position has both signs in the set.
    Clash(Signed),
    Wrong(Signed),
    Rule(Signed, u128),
    Saturated,
}

/// The set of the path, with its members in the order in which they came.
#[derive(Drop)]
pub struct Walk {
    pub trail: SignedSet,
    pub waiting: Waiting,
    pub settled: Vec<Signed>,
}

impl Walk {
    /// A walk whose set is empty, which takes no memory; `begin` starts it at a list.
    pub fn new(alloc: Global) -> Walk {
        Walk {
            trail: SignedSet::new(alloc),
            waiting: Waiting::new(alloc),
            settled: Vec::new(alloc),
        }
    }

    /// Begins again, with the set of a list, in the time of what the walk holds and of the list.
    pub fn begin(&mut self, list: &[Signed]) -> Result<(), Memory>
        ensures members { OnOk result (self.new.trail ≡ with_members (map signed_view list.now) []) }
        ensures settled { OnOk result (self.new.settled.items ≡ []) }
        ensures covered { OnOk result (IsCovered self.new) }
    {
        self.trail.go_back(0);
        self.waiting.clear();
        self.settled.clear();
        for x in list {
            self.add(*x)?;
        }
        Ok(())
    }

    fn add(&mut self, x: Signed) -> Result<(), Memory>
        ensures members { OnOk result (self.new.trail ≡ with_member (signed_view x) self.old.trail) }
        ensures settled { OnOk result (self.new.settled ≡ self.old.settled) }
        ensures covered { OnOk result (IsCovered self.old → IsCovered self.new) }
    {
        self.waiting.add(x)?;
        self.trail.add(x)?;
        Ok(())
    }

    /// Adds each of a choice to the set.
    fn add_each(&mut self, choice: Choice<'_>) -> Result<(), Memory>
        ensures members { OnOk result (self.new.trail ≡ with_members (choice_view choice.entry) self.old.trail) }
        ensures kept { OnOk result (Keeps self.old self.new) }
    {
        for k in 0..choice.len() {
            self.add(choice.at(k))?;
        }
        Ok(())
    }

    /// Adds the choice of that number of the rule of `x`.
    pub fn add_choice(
        &mut self,
        core: &Core,
        kind: JsonKind,
        x: Signed,
        index: usize,
    ) -> Result<(), Memory>
        requires in_table { is_in_table core.now.positions (signed_view x) ≡ true }
        requires index { index < length (choice_list (choices core.now.positions (kind_view kind) (signed_view x))) }
        ensures members { OnOk result (self.new.trail ≡ with_members
            (get_or (choice_list (choices core.now.positions (kind_view kind) (signed_view x))) index [])
            self.old.trail) }
        ensures in_table { are_in_table core.now.positions
            (get_or (choice_list (choices core.now.positions (kind_view kind) (signed_view x))) index []) ≡ true }
        ensures kept { OnOk result (Keeps self.old self.new) }
    {
        self.add_each(core.rule(x, kind).choice(index as u128))
    }

    /// Forgets what came after the first `members` members, and what was seen to be settled after the first `settled`.
    pub fn go_back(&mut self, members: usize, settled: usize) -> Result<(), Memory>
        requires { settled ≤ length self.old.settled.items }
        ensures members { OnOk result (self.new.trail ≡ take members self.old.trail) }
        ensures settled { OnOk result (self.new.settled.items ≡ take settled self.old.settled.items) }
        ensures covered { OnOk result (IsCovered self.old → IsCovered self.new) }
    {
        self.trail.go_back(members);
        while self.settled.len() > settled {
            match self.settled.pop() {
                Some(x) => self.waiting.add(x)?,
                None => return Ok(()),
            }
        }
        Ok(())
    }
}
