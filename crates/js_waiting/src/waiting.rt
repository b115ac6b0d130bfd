//! What is counted of the alternatives of all goals.

ghost use Rattle.std.specs.Prelude.{◌≡◌, ◌+◌, ◌&&◌, [], not, true, get_or, IfOk};
ghost use Rattle.search.specs.Rounds.{first_place};
ghost use Rattle.js_explore.specs.ExploredView.{explored_view};
ghost use Rattle.js_waiting.specs.Counts.{is_ready, uncounted, waits_at, count_at, is_ready_at};

use crate::counts::CountsList;
use crate::steps::Steps;
use js_doc::Memory;
use js_explore::Explored;
use std::alloc::Global;
use std::marker::Model;
use std::sync::ledger::Ledger;

/// What is counted of the alternatives of all goals; the value keeps which places were counted.
#[derive(Drop)]
pub struct Waiting {
    goals: Vec<CountsList>,
}

impl Model for Waiting {
    ghost use Rattle.std.specs.Prelude.{List};
    ghost use Rattle.js_waiting.specs.Counts.{Counts as Counted};

    ghost Value = { List (List Counted) };

    ghost view = { λ w. w.goals.items };
}

impl Waiting {
    /// Nothing is counted. It costs a step for each place.
    pub fn new(alloc: Global, explored: &Explored) -> Result<Waiting, Memory>
        ensures { IfOk result (λ w. w ≡ uncounted (explored_view explored.now)) }
    {
        let mut goals = Vec::new(alloc);
        for goal in 0..explored.len() {
            goals.push(CountsList::new(alloc, explored.alternatives(goal))?)?;
        }
        Ok(Waiting { goals })
    }

    /// The first alternative of the goal that is ready.
    pub fn first_ready(&self, goal: u32) -> Option<u32>
        ensures { result ≡ first_place is_ready (get_or self.now goal []) }
    {
        match self.goals.get(goal as usize) {
            Some(counts) => counts.first_ready(),
            None => None,
        }
    }

    /// Counts a place that waits: a member or filler of that alternative which wasn't counted. Members are numbered
    /// from 0, and fillers after them. It answers whether the alternative is ready now and wasn't before. One step,
    /// and no memory.
    pub fn lower<L: Ledger>(
        &mut self,
        goal: u32,
        alternative: u32,
        place: u32,
        steps: &mut Steps<L>,
    ) -> bool
        requires { waits_at goal alternative place self.old ≡ true }
        ensures counted { self.new ≡ count_at goal alternative place self.old }
        ensures wakes { result ≡ (is_ready_at goal alternative self.new
            && not (is_ready_at goal alternative self.old)) }
        ensures step { steps.new ≡ steps.old + 1 }
    {
        steps.tick();
        self.goals[goal as usize].count(alternative as usize, place as usize)
    }
}
