//! How a round comes from the one before: the places that name its goals are counted, and what wakes gets an answer.

ghost use Rattle.std.specs.Prelude.{◌≡◌, ◌<◌, ◌≤◌, ◌+◌, ◌-◌, ◌^◌, ◌++◌, ◌∷◌, [], ℕ, List, true, None, Some, cond, is_some, get_or, length, set, take};
ghost use Rattle.goals.specs.Signed.{Signed};
ghost use Rattle.list_laws.specs.In.{IsIn};
ghost use Rattle.alternatives.specs.Expansion as X;
ghost use Rattle.search.specs.Explored.{Found};
ghost use Rattle.js_explore.specs.ExploredView.{explored_view};
ghost use Rattle.js_waiting.specs.Counts.{waits_at, count_at, waiting};
ghost use Rattle.js_waiting.specs.Mentioned.{can_count, count_all};
ghost use Rattle.js_waiting.specs.declared.mention.Mention.{Mention as Named};
ghost use Rattle.js_rounds.specs.Sorted.{IsSorted};

use crate::rounds::Rounds;
use js_explore::Explored;
use js_waiting::{Mention, Steps};
use std::sync::ledger::Ledger;

/// A part of a list is put in order.
fn sort_part(order: &mut [u32], from: usize, to: usize)
    requires from { from ≤ to }
    requires to { to ≤ length order.old }
    ensures { IsSorted from to order.old order.new }
{
    order[from..to].sort_unstable();
}

impl Rounds {
    ghost use Rattle.js_rounds.specs.State.{IsNew, IsRoomy, IsUncounted};
    ghost use Rattle.js_rounds.specs.Waking.{Keeps, AreSame, Waking, firsts, told_at, new_goal};

    /// A goal without an answer gets one, and is noted.
    fn enter(&mut self, goal: u32, alternative: u32, round: u32)
        requires round { round < 2 ^ 32 - 1 }
        requires goal { goal < length self.old.known.items }
        requires none { get_or self.old.known.items goal None ≡ None }
        requires roomy { IsRoomy (length self.old.known.items) self.old }
        ensures known { self.new.known.items ≡ set self.old.known.items goal (Some (round + 1, alternative)) }
        ensures order { take self.new.count self.new.order.items
            ≡ take self.old.count self.old.order.items ++ goal ∷ [] }
        ensures last { self.new.last ≡ round + 1 }
        ensures roomy { IsRoomy (length self.old.known.items) self.new }
        ensures has_run { self.new.has_run ≡ self.old.has_run }
        ensures waiting { self.new.waiting ≡ self.old.waiting }
        ensures mentions { self.new.mentions ≡ self.old.mentions }
    {
        self.known[goal as usize] = Some((round + 1, alternative));
        self.order[self.count] = goal;
        self.count += 1;
        self.last = round + 1;
    }

    /// An alternative of a goal is met by a round: an answer of the next round is kept where its alternative comes
    /// before, and one of an earlier round always.
    fn tell(&mut self, goal: u32, alternative: u32, round: u32)
        requires round { round < 2 ^ 32 - 1 }
        requires goal { goal < length self.old.known.items }
        requires roomy { IsRoomy (length self.old.known.items) self.old }
        ensures known { self.new.known.items ≡ set self.old.known.items goal
            (told_at round alternative (get_or self.old.known.items goal None)) }
        ensures order { take self.new.count self.new.order.items
            ≡ take self.old.count self.old.order.items ++ new_goal goal (get_or self.old.known.items goal None) }
        ensures last { self.new.last
            ≡ cond (is_some (get_or self.old.known.items goal None)) self.old.last (round + 1) }
        ensures roomy { IsRoomy (length self.old.known.items) self.new }
        ensures has_run { self.new.has_run ≡ self.old.has_run }
        ensures waiting { self.new.waiting ≡ self.old.waiting }
        ensures mentions { self.new.mentions ≡ self.old.mentions }
    {
        match self.known[goal as usize] {
            None => self.enter(goal, alternative, round),
            Some((least, first)) => {
                if round < least && alternative < first {
                    self.known[goal as usize] = Some((least, alternative));
                }
            }
        }
    }

    /// A goal of the first round: it has an alternative that waits for nothing.
    fn look(&mut self, goal: u32)
        requires goal { goal < length self.old.known.items }
        requires roomy { IsRoomy (length self.old.known.items) self.old }
        ensures waking { (expansion : List Signed → X.Expansion) (f : Found)
            → Waking expansion f 0 (firsts (take goal self.old.waiting)) self.old
            → Waking expansion f 0 (firsts (take (goal + 1) self.old.waiting)) self.new }
        ensures roomy { IsRoomy (length self.old.known.items) self.new }
        ensures has_run { self.new.has_run ≡ self.old.has_run }
        ensures waiting { self.new.waiting ≡ self.old.waiting }
        ensures mentions { self.new.mentions ≡ self.old.mentions }
    {
        if let Some(alternative) = self.waiting.first_ready(goal) {
            self.tell(goal, alternative, 0);
        }
    }

    /// The goals of the first round.
    pub(crate) fn begin(&mut self, explored: &Explored)
        requires new { IsNew (length (explored_view explored.now).found.goals) self.old }
        requires uncounted { IsUncounted (explored_view explored.now) self.old }
        ensures waking { (expansion : List Signed → X.Expansion) (f : Found)
            → Waking expansion f 0 (firsts self.new.waiting) self.new }
        ensures roomy { IsRoomy (length (explored_view explored.now).found.goals) self.new }
        ensures has_run { self.new.has_run ≡ self.old.has_run }
        ensures waiting { self.new.waiting ≡ self.old.waiting }
        ensures mentions { self.new.mentions ≡ self.old.mentions }
    {
        for goal in 0..explored.len() {
            self.look(goal);
        }
    }

    /// Counts a place that names a goal of the round.
    fn count_place<L: Ledger>(&mut self, mention: Mention, round: u32, steps: &mut Steps<L>)
        requires round { round < 2 ^ 32 - 1 }
        requires goal { mention.goal < length self.old.known.items }
        requires roomy { IsRoomy (length self.old.known.items) self.old }
        requires waits { waits_at mention.goal mention.alternative mention.place self.old.waiting ≡ true }
        ensures waking { (expansion : List Signed → X.Expansion) (f : Found)
            → Waking expansion f round (firsts self.old.waiting) self.old
            → Waking expansion f round (firsts self.new.waiting) self.new }
        ensures roomy { IsRoomy (length self.old.known.items) self.new }
        ensures keeps { Keeps self.old self.new }
        ensures waiting { self.new.waiting
            ≡ count_at mention.goal mention.alternative mention.place self.old.waiting }
        ensures steps { steps.new + waiting self.new.waiting ≡ steps.old + waiting self.old.waiting }
    {
        if self
            .waiting
            .lower(mention.goal, mention.alternative, mention.place, steps)
        {
            self.tell(mention.goal, mention.alternative, round);
        }
    }

    /// Takes a goal of the round: all places that name it are counted.
    pub(crate) fn take_goal<L: Ledger>(&mut self, goal: u32, round: u32, steps: &mut Steps<L>)
        requires round { round < 2 ^ 32 - 1 }
        requires goals { (u : Named) → IsIn u (get_or self.old.mentions goal [])
            → u.goal < length self.old.known.items }
        requires roomy { IsRoomy (length self.old.known.items) self.old }
        requires waits { can_count (get_or self.old.mentions goal []) self.old.waiting ≡ true }
        ensures waking { (expansion : List Signed → X.Expansion) (f : Found)
            → Waking expansion f round (firsts self.old.waiting) self.old
            → Waking expansion f round (firsts self.new.waiting) self.new }
        ensures roomy { IsRoomy (length self.old.known.items) self.new }
        ensures keeps { Keeps self.old self.new }
        ensures waiting { self.new.waiting ≡ count_all (get_or self.old.mentions goal []) self.old.waiting }
        ensures steps { steps.new + waiting self.new.waiting ≡ steps.old + waiting self.old.waiting }
    {
        for place in 0..self.mentions.of(goal).len() {
            let mention = self.mentions.of(goal)[place];
            self.count_place(mention, round, steps);
        }
    }

    /// The goals that were noted from a place on are put in order of numbers.
    pub(crate) fn sort(&mut self, from: usize)
        requires from { from ≤ self.old.count }
        requires roomy { IsRoomy (length self.old.known.items) self.old }
        ensures sorted { IsSorted from self.old.count self.old.order.items self.new.order.items }
        ensures same { AreSame self.old self.new }
        ensures roomy { IsRoomy (length self.old.known.items) self.new }
    {
        sort_part(&mut self.order, from, self.count);
    }
}
