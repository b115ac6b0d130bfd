//! The goals that a document uses, from the last round back.

ghost use Rattle.std.specs.Prelude.{◌≡◌, ◌<◌, ◌≤◌, ◌||◌, ◌&&◌, ◌++◌, [], ◌∷◌, ℕ, List, true, false, cond, is_some, IfOk, OnOk, IfSome, option_map, get_or, length, nat_eq, reverse};
ghost use Rattle.documents.specs.Tests.{some};
ghost use Rattle.goals.specs.Signed.{Signed};
ghost use Rattle.alternatives.specs.Expansion as X;
ghost use Rattle.search.specs.Uses as U;
ghost use Rattle.js_expansion.specs.View.{slot_view};
ghost use Rattle.js_explore.specs.ExploredView.{explored_view};
ghost use Rattle.js_explore.specs.Exploration.{Explores, alternatives_at};
ghost use Rattle.js_explore.specs.NumberedView.{numbered_view};
ghost use Rattle.js_rounds.specs.Spread.{spread};
ghost use Rattle.js_rounds.specs.State.{IsRoomy, AreRounds, answer_to, contents_at};

use crate::rounds::Rounds;
use crate::runs::{Run, runs};
use js_doc::Memory;
use js_explore::{Explored, Numbered};
use std::alloc::Global;

/// The alternative of an answer, and the round before it.
#[derive(Clone, Copy)]
pub(crate) struct Choice<'a> {
    pub(crate) alternative: &'a Numbered,
    pub(crate) round: u32,
}

/// Marks the goal of a run.
fn mark_run(marks: &mut [bool], run: &Run)
    ensures length { length marks.new ≡ length marks.old }
    ensures marks { (m : ℕ) → m < length marks.old → get_or marks.new m false
        ≡ (get_or marks.old m false
        || some (λ p. nat_eq p.goal m) (U.repeated (slot_view run.now.slot) run.now.count run.now.goal)) }
{
    let goal = run.goal as usize;
    if run.count > 0 && goal < marks.len() {
        marks[goal] = true;
    }
}

/// Marks the goals of runs.
fn mark_runs(marks: &mut [bool], runs: &[Run])
    ensures length { length marks.new ≡ length marks.old }
    ensures marks { (m : ℕ) → m < length marks.old → get_or marks.new m false
        ≡ (get_or marks.old m false || some (λ p. nat_eq p.goal m) (spread runs.now)) }
{
    for run in runs {
        mark_run(marks, run);
    }
}

fn is_marked(marks: &[bool], goal: u32) -> bool
    ensures { result ≡ get_or marks.now goal false }
{
    match marks.get(goal as usize) {
        Some(mark) => *mark,
        None => false,
    }
}

impl Rounds {
    /// The alternative of the goal's answer.
    pub(crate) fn choice<'a>(&self, explored: &'a Explored, goal: u32) -> Option<Choice<'a>>
        ensures chosen { option_map (λ c. numbered_view c.alternative.now) result
            ≡ U.chosen_in (alternatives_at (explored_view explored.now) goal) (answer_to self.now goal) }
        ensures round { IfSome result (λ c. c.round ≡ U.round_before (answer_to self.now goal)) }
    {
        match self.known.get(goal as usize) {
            Some(Some((round, place))) => {
                let alternative = explored.alternatives(goal).get(*place as usize)?;
                Some(Choice {
                    alternative,
                    round: round.saturating_sub(1),
                })
            }
            _ => None,
        }
    }

    /// What the document of the goal is made of.
    pub(crate) fn runs_of(
        &self,
        alloc: Global,
        explored: &Explored,
        goal: u32,
    ) -> Result<Vec<Run>, Memory>
        ensures { IfOk result (λ v. spread v.items ≡ contents_at (explored_view explored.now) self.now goal) }
    {
        match self.choice(explored, goal) {
            Some(choice) => runs(alloc, &self.known, choice.alternative, choice.round),
            None => Ok(Vec::new(alloc)),
        }
    }

    /// Takes a goal that is marked, and marks what it contains.
    fn take_marked(
        &self,
        alloc: Global,
        explored: &Explored,
        goal: u32,
        marks: &mut [bool],
        found: &mut Vec<u32>,
    ) -> Result<(), Memory>
        ensures length { length marks.new ≡ length marks.old }
        ensures marks { OnOk result ((m : ℕ) → m < length marks.old → get_or marks.new m false
            ≡ (get_or marks.old m false || (get_or marks.old goal false
            && some (λ p. nat_eq p.goal m) (contents_at (explored_view explored.now) self.now goal)))) }
        ensures found { OnOk result (found.new.items
            ≡ found.old.items ++ cond (get_or marks.old goal false) (goal ∷ []) []) }
    {
        if is_marked(marks, goal) {
            let runs = self.runs_of(alloc, explored, goal)?;
            mark_runs(marks, &runs);
            found.push(goal)?;
        }
        Ok(())
    }

    /// The goals that the document of a goal uses, the last one first. It goes back through the goals that have an
    /// answer, and looks at what each used one contains.
    pub(crate) fn used(
        &self,
        alloc: Global,
        explored: &Explored,
        goal: u32,
    ) -> Result<Vec<u32>, Memory>
        requires roomy { IsRoomy (length (explored_view explored.now).found.goals) self.now }
        requires goal { goal < length (explored_view explored.now).found.goals }
        ensures { (expansion : List Signed → X.Expansion) → Explores expansion (explored_view explored.now)
            → AreRounds expansion (explored_view explored.now).found self.now
            → is_some (U.satisfied expansion (explored_view explored.now).found goal) ≡ true
            → IfOk result (λ v. reverse v.items ≡ U.used_goals expansion (explored_view explored.now).found goal) }
    {
        let mut marks = vec![in alloc; false; self.known.len()]?;
        marks[goal as usize] = true;
        let mut found = Vec::new(alloc);
        for place in (0..self.count).rev() {
            self.take_marked(alloc, explored, self.order[place], &mut marks, &mut found)?;
        }
        Ok(found)
    }
}
