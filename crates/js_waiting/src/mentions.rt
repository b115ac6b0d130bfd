//! For each goal the places that name it.

ghost use Rattle.std.specs.Prelude.{◌≡◌, ◌<◌, ◌++◌, ◌∷◌, ◌^◌, [], ℕ, cond, nat_eq, get_or, length, map, IfOk, OnOk};
ghost use Rattle.js_explore.specs.View.{placed_view, filler_view};
ghost use Rattle.js_explore.specs.NumberedView.{numbered_view};
ghost use Rattle.js_explore.specs.ExploredView.{explored_view};
ghost use Rattle.js_waiting.specs.Mentioned.{mention, named_goals, mentions_from, mentions_by, mentions_of};

use crate::mention::Mention;
use js_doc::Memory;
use js_explore::{Explored, Numbered, NumberedFiller, NumberedPlaced};
use std::alloc::Global;
use std::marker::Model;

/// The places that name a goal.
#[derive(Drop)]
struct MentionList {
    items: Vec<Mention>,
}

impl Model for MentionList {
    ghost use Rattle.std.specs.Prelude.{List};
    ghost use Rattle.js_waiting.specs.declared.mention.Mention.{Mention as Named};

    ghost Value = { List Named };

    ghost view = { λ l. l.items.items };
}

impl MentionList {
    fn push(&mut self, mention: Mention) -> Result<(), Memory>
        ensures { OnOk result (self.new ≡ self.old ++ mention ∷ []) }
    {
        self.items.push(mention)?;
        Ok(())
    }
}

/// For each goal the places that name it, in order of goals, alternatives and places.
#[derive(Drop)]
pub struct Mentions {
    goals: Vec<MentionList>,
}

impl Model for Mentions {
    ghost use Rattle.std.specs.Prelude.{List};
    ghost use Rattle.js_waiting.specs.declared.mention.Mention.{Mention as Named};

    ghost Value = { List (List Named) };

    ghost view = { λ l. l.goals.items };
}

/// A place; where its number isn't one of 32 bits memory would not hold the alternative.
fn numbered(goal: u32, alternative: u32, place: usize) -> Result<Mention, Memory>
    ensures { IfOk result (λ m. m ≡ mention goal alternative place) }
{
    match u32::try_from(place) {
        Ok(place) => Ok(Mention {
            goal,
            alternative,
            place,
        }),
        Err(_) => Err(Memory),
    }
}

impl Mentions {
    /// The places of all alternatives. It costs a step for each.
    pub fn new(alloc: Global, explored: &Explored) -> Result<Mentions, Memory>
        ensures length { IfOk result (λ t. length t ≡ length (explored_view explored.now).found.goals) }
        ensures mentions { IfOk result (λ t. (m : ℕ) → m < length (explored_view explored.now).found.goals
            → get_or t m [] ≡ mentions_of (explored_view explored.now) m) }
    {
        let mut mentions = Mentions::none(alloc, explored.len())?;
        for goal in 0..explored.len() {
            mentions.add_goal(goal, explored.alternatives(goal))?;
        }
        Ok(mentions)
    }

    fn none(alloc: Global, len: u32) -> Result<Mentions, Memory>
        ensures length { IfOk result (λ t. length t ≡ len) }
        ensures none { IfOk result (λ t. (m : ℕ) → get_or t m [] ≡ []) }
    {
        let mut goals = Vec::new(alloc);
        for goal in 0..len {
            let _ = goal;
            goals.push(MentionList {
                items: Vec::new(alloc),
            })?;
        }
        Ok(Mentions { goals })
    }

    /// The places that name the goal.
    pub fn of(&self, goal: u32) -> &[Mention]
        ensures { result.now ≡ get_or self.now goal [] }
    {
        match self.goals.get(goal as usize) {
            Some(list) => list.items.as_slice(),
            None => &[],
        }
    }

    /// One more place. A goal without number is never taken.
    fn add(&mut self, named: u32, mention: Mention) -> Result<(), Memory>
        ensures length { OnOk result (length self.new ≡ length self.old) }
        ensures mentions { OnOk result ((m : ℕ) → m < length self.old
            → get_or self.new m [] ≡ get_or self.old m [] ++ cond (nat_eq named m) (mention ∷ []) []) }
    {
        if (named as usize) < self.goals.len() {
            self.goals[named as usize].push(mention)?;
        }
        Ok(())
    }

    /// The places of members, which come first.
    fn add_members(
        &mut self,
        goal: u32,
        number: u32,
        members: &[NumberedPlaced],
    ) -> Result<(), Memory>
        ensures length { OnOk result (length self.new ≡ length self.old) }
        ensures mentions { OnOk result ((m : ℕ) → m < length self.old → get_or self.new m []
            ≡ get_or self.old m [] ++ mentions_from m goal number 0 (map (λ x. x.goal) (map placed_view members.now))) }
    {
        for (place, member) in members.iter().enumerate() {
            self.add(member.goal, numbered(goal, number, place)?)?;
        }
        Ok(())
    }

    /// The places of fillers, from one on.
    fn add_fillers(
        &mut self,
        goal: u32,
        number: u32,
        first: usize,
        fillers: &[NumberedFiller],
    ) -> Result<(), Memory>
        requires { first < 2 ^ 63 }
        ensures length { OnOk result (length self.new ≡ length self.old) }
        ensures mentions { OnOk result ((m : ℕ) → m < length self.old → get_or self.new m []
            ≡ get_or self.old m []
            ++ mentions_from m goal number first (map (λ x. x.goal) (map filler_view fillers.now))) }
    {
        for (place, filler) in fillers.iter().enumerate() {
            self.add(filler.goal, numbered(goal, number, first + place)?)?;
        }
        Ok(())
    }

    /// The places of an alternative.
    fn add_alternative(
        &mut self,
        goal: u32,
        number: u32,
        alternative: &Numbered,
    ) -> Result<(), Memory>
        ensures length { OnOk result (length self.new ≡ length self.old) }
        ensures mentions { OnOk result ((m : ℕ) → m < length self.old → get_or self.new m []
            ≡ get_or self.old m [] ++ mentions_from m goal number 0 (named_goals (numbered_view alternative.now))) }
    {
        let members = alternative.members.as_slice();
        self.add_members(goal, number, members)?;
        self.add_fillers(goal, number, members.len(), alternative.fillers.as_slice())
    }

    /// The places of the alternatives of a goal.
    fn add_goal(&mut self, goal: u32, alternatives: &[Numbered]) -> Result<(), Memory>
        requires { length alternatives.now < 2 ^ 32 }
        ensures length { OnOk result (length self.new ≡ length self.old) }
        ensures mentions { OnOk result ((m : ℕ) → m < length self.old → get_or self.new m []
            ≡ get_or self.old m [] ++ mentions_by m goal 0 (map numbered_view alternatives.now)) }
    {
        for (number, alternative) in alternatives.iter().enumerate() {
            self.add_alternative(goal, number as u32, alternative)?;
        }
        Ok(())
    }
}
