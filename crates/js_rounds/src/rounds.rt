//! Rounds by waiting counts: a goal enters when the first of its alternatives wakes.

ghost use Rattle.std.specs.Prelude.{◌≡◌, ◌<◌, ◌≤◌, ◌+◌, ℕ, List, true, false, IfOk, length};
ghost use Rattle.goals.specs.Signed.{Signed};
ghost use Rattle.alternatives.specs.Expansion as X;
ghost use Rattle.search.specs.Explored.{Found};
ghost use Rattle.search.specs.Uses as U;
ghost use Rattle.js_explore.specs.ExploredView.{explored_view};
ghost use Rattle.js_explore.specs.Exploration.{Explores};
ghost use Rattle.js_waiting.specs.Counts.{all_places};

use crate::meeting::Answer;
use js_doc::Memory;
use js_explore::Explored;
use js_waiting::{Mentions, Steps, Waiting};
use std::alloc::Global;
use std::marker::Brand;
use std::sync::ledger::{Blank, Ledger};

/// The rounds of explored goals.
#[derive(Drop)]
pub struct Rounds {
    pub(crate) known: Vec<Answer>,
    /// The goals that have an answer, in order of rounds and then numbers; behind them is room for the others.
    pub(crate) order: Vec<u32>,
    /// How many goals have an answer.
    pub(crate) count: usize,
    pub(crate) last: u32,
    has_run: bool,
    pub(crate) waiting: Waiting,
    pub(crate) mentions: Mentions,
}

impl Rounds {
    ghost use Rattle.js_rounds.specs.State.{IsNew, IsFor, IsMade, IsUncounted, IsRoomy, AreRounds, IsLeast, answer_to};

    /// No round of the goals is known yet. It makes the room for all of them.
    pub fn new(alloc: Global, explored: &Explored) -> Result<Rounds, Memory>
        ensures new { IfOk result (λ r. IsNew (length (explored_view explored.now).found.goals) r) }
        ensures made { IfOk result (λ r. IsMade (explored_view explored.now) r) }
    {
        let goals = explored.len() as usize;
        Ok(Rounds {
            known: vec![in alloc; None; goals]?,
            order: vec![in alloc; 0; goals]?,
            count: 0,
            last: 0,
            has_run: false,
            waiting: Waiting::new(alloc, explored)?,
            mentions: Mentions::new(alloc, explored)?,
        })
    }

    /// Round after round, until one adds no goal.
    fn run_all<L: Ledger>(&mut self, explored: &Explored, steps: &mut Steps<L>)
        requires new { IsNew (length (explored_view explored.now).found.goals) self.old }
        requires uncounted { IsUncounted (explored_view explored.now) self.old }
        ensures rounds { (expansion : List Signed → X.Expansion) → Explores expansion (explored_view explored.now)
            → AreRounds expansion (explored_view explored.now).found self.new }
        ensures roomy { IsRoomy (length (explored_view explored.now).found.goals) self.new }
        ensures steps { steps.new ≤ steps.old + all_places (explored_view explored.now) }
    {
        self.begin(explored);
        let mut from = 0;
        for round in 1..explored.len() {
            self.sort(from);
            let to = self.count;
            if from == to {
                return;
            }
            for place in from..to {
                let goal = self.order[place];
                self.take_goal(goal, round, steps);
            }
            from = to;
        }
        self.sort(from);
    }

    /// Finds the rounds of the goals. The goals of a round are taken by number: what names one is counted, and an
    /// alternative wakes when nothing is left that it waits for. It is to be given what the rounds were made for. A
    /// second call changes nothing.
    ///
    /// It takes no memory. Each count is a step; beside them it looks once at each alternative, and sorts each round's
    /// goals by number.
    pub fn run<L: Ledger>(&mut self, explored: &Explored, steps: &mut Steps<L>)
        requires same { IsFor (length (explored_view explored.now).found.goals) self.old }
        requires made { IsMade (explored_view explored.now) self.old }
        ensures rounds { self.old.has_run ≡ false
            → (expansion : List Signed → X.Expansion) → Explores expansion (explored_view explored.now)
            → AreRounds expansion (explored_view explored.now).found self.new }
        ensures again { self.old.has_run ≡ true → self.new ≡ self.old }
        ensures has_run { self.new.has_run ≡ true }
        ensures same { IsFor (length (explored_view explored.now).found.goals) self.new }
        ensures made { IsMade (explored_view explored.now) self.new }
        ensures steps { steps.new ≤ steps.old + all_places (explored_view explored.now) }
    {
        if !self.has_run {
            self.run_all(explored, steps);
            self.has_run = true;
        }
    }

    /// As `run`, for a caller that counts no steps.
    pub fn run_uncounted(&mut self, explored: &Explored)
        requires same { IsFor (length (explored_view explored.now).found.goals) self.old }
        requires made { IsMade (explored_view explored.now) self.old }
        ensures rounds { self.old.has_run ≡ false
            → (expansion : List Signed → X.Expansion) → Explores expansion (explored_view explored.now)
            → AreRounds expansion (explored_view explored.now).found self.new }
        ensures again { self.old.has_run ≡ true → self.new ≡ self.old }
        ensures has_run { self.new.has_run ≡ true }
        ensures same { IsFor (length (explored_view explored.now).found.goals) self.new }
        ensures made { IsMade (explored_view explored.now) self.new }
    {
        self.run_from::<Brand>(explored, Blank::new(1));
    }

    fn run_from<L: Ledger>(&mut self, explored: &Explored, blank: Blank)
        requires name { blank.name ≡ L.name }
        requires parts { blank.parts ≡ L.parts }
        requires whole { 0 < blank.parts }
        requires same { IsFor (length (explored_view explored.now).found.goals) self.old }
        requires made { IsMade (explored_view explored.now) self.old }
        ensures rounds { self.old.has_run ≡ false
            → (expansion : List Signed → X.Expansion) → Explores expansion (explored_view explored.now)
            → AreRounds expansion (explored_view explored.now).found self.new }
        ensures again { self.old.has_run ≡ true → self.new ≡ self.old }
        ensures has_run { self.new.has_run ≡ true }
        ensures same { IsFor (length (explored_view explored.now).found.goals) self.new }
        ensures made { IsMade (explored_view explored.now) self.new }
    {
        let mut steps = Steps::<L>::new(blank);
        self.run(explored, &mut steps);
    }

    /// The least round that has the goal, and the first of its alternatives that the round before meets; None exactly
    /// where no round has it.
    pub fn satisfied(&self, goal: u32) -> Option<(u32, u32)>
        requires { self.now.has_run ≡ true }
        ensures value { result ≡ answer_to self.now goal }
        ensures rounds { (expansion : List Signed → X.Expansion) (f : Found) → AreRounds expansion f self.now
            → result ≡ U.satisfied expansion f goal }
        ensures meaning { (expansion : List Signed → X.Expansion) (f : Found) → AreRounds expansion f self.now
            → IsLeast expansion f goal result }
    {
        match self.known.get(goal as usize) {
            Some(answer) => *answer,
            None => None,
        }
    }

    /// The last round that added a goal, 0 where there is none.
    pub fn last_round(&self) -> u32
        requires { self.now.has_run ≡ true }
        ensures rounds { (expansion : List Signed → X.Expansion) (f : Found) → AreRounds expansion f self.now
            → result ≡ U.last_round expansion f }
    {
        self.last
    }
}
