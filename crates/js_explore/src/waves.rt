//! The search for goals by waves: all goals that wait are expanded at once, by several threads.
//!
//! A wave of k goals is k steps of a search by one thread, so both find the same, whatever the number of threads. While
//! goals are expanded nothing is written that threads share: each expands goals by their numbers, and gives its
//! expansions back. They are then taken in the order of the goals, and only there new goals get their numbers.

ghost use Rattle.std.specs.Prelude.{◌≡◌, ◌+◌, ◌-◌, ◌<◌, ◌≤◌, true, false, length, IfOk, OnOk};
ghost use Rattle.std.specs.List.{range_with_len};
ghost use Rattle.documents.specs.Tests.{every};
ghost use Rattle.search.specs.Explored as S;
ghost use Rattle.js_explore.specs.Exploration.{Explores, GoesOn};
ghost use Rattle.js_explore.specs.ExploredView.{explored_view, found_view};
ghost use Rattle.js_explore.specs.WaveAnswers.{AnswersFrom, Gives};

use crate::explored::Explored;
use js_algebra::Goal;
use js_doc::Memory;
use js_expansion::{Expander, Expansion};
use js_par::{Answers, Gate, Task, Workers, map_items};
use std::alloc::{AllocError, Global};
use std::thread::Threads;

/// What goals are expanded by in a search by waves, and its limits.
#[derive(Drop)]
pub(crate) struct Waves<'a, E> {
    pub(crate) alloc: Global,
    pub(crate) expander: &'a E,
    pub(crate) most_goals: u32,
    pub(crate) most_total: u32,
}

impl<E: Expander + Sync> Waves<'_, E> {
    /// Explores from a root. Each wave but the last takes a goal, so there are no more waves than goals with a number.
    pub(crate) fn explore<R: Threads + Sync, G: Gate + Sync>(
        &self,
        workers: &Workers<'_, R, G>,
        root: Goal,
    ) -> Result<Explored, Memory>
        requires { E.takes self.now.expander.now root ≡ true }
        ensures found { IfOk result (λ e. (explored_view e).found
            ≡ S.explored self.now.most_goals self.now.most_total (E.expansion self.now.expander.now) root) }
        ensures answers { IfOk result (λ e. Explores (E.expansion self.now.expander.now) (explored_view e)) }
        ensures taken { IfOk result (λ e. every (E.takes self.now.expander.now) (explored_view e).found.goals ≡ true) }
    {
        let mut search = Explored::new(self.alloc, root)?;
        for turn in 0..self.most_goals {
            if !self.wave(workers, &mut search)? {
                break;
            }
        }
        Ok(search)
    }

    /// Requests all goals that wait, and takes the answers. False says that another step changes nothing.
    fn wave<R: Threads + Sync, G: Gate + Sync>(
        &self,
        workers: &Workers<'_, R, G>,
        search: &mut Explored,
    ) -> Result<bool, Memory>
        requires { GoesOn self.now.most_goals self.now.most_total (E.takes self.now.expander.now)
            (E.expansion self.now.expander.now) (explored_view search.old) }
        ensures steps { OnOk result (found_view search.new
            ≡ S.after self.now.most_goals self.now.most_total (E.expansion self.now.expander.now)
            (length (found_view search.old).goals - (found_view search.old).taken) (found_view search.old)) }
        ensures ended { IfOk result (λ b. b ≡ false → S.step self.now.most_goals self.now.most_total
            (E.expansion self.now.expander.now) (found_view search.new) ≡ found_view search.new) }
        ensures some_left { IfOk result (λ b. b ≡ true
            → (found_view search.old).taken < length (found_view search.old).goals) }
        ensures moved { IfOk result (λ b. b ≡ true
            → (found_view search.new).taken ≡ length (found_view search.old).goals) }
        ensures goes_on { OnOk result (GoesOn self.now.most_goals self.now.most_total (E.takes self.now.expander.now)
            (E.expansion self.now.expander.now) (explored_view search.new)) }
    {
        if search.taken() == search.len() {
            return Ok(false);
        }
        let answers = self.ask(workers, search)?;
        self.take_all(search, answers.as_slice())
    }

    /// Requests all goals that wait.
    fn ask<R: Threads + Sync, G: Gate + Sync>(
        &self,
        workers: &Workers<'_, R, G>,
        search: &Explored,
    ) -> Result<Answers<Result<Expansion, Memory>>, Memory>
        requires taken { (found_view search.now).taken ≤ length (found_view search.now).goals }
        requires takes { every (E.takes self.now.expander.now) (found_view search.now).goals ≡ true }
        ensures count { IfOk result (λ v. length v
            ≡ length (found_view search.now).goals - (found_view search.now).taken) }
        ensures each { IfOk result (AnswersFrom (E.expansion self.now.expander.now) (found_view search.now).goals
            (found_view search.now).taken) }
    {
        let waiting = numbers(self.alloc, search.taken(), search.len())?;
        let task = Expanding {
            alloc: self.alloc,
            expander: self.expander,
            search,
        };
        map_items(
            workers.rt,
            self.alloc,
            &task,
            workers.gate,
            waiting.as_slice(),
            workers.count,
        )
    }
}

impl<E: Expander> Waves<'_, E> {
    /// Takes the answers for the goals that come next, in order. False says that another step changes nothing.
    fn take_all(
        &self,
        search: &mut Explored,
        answers: &[Result<Expansion, Memory>],
    ) -> Result<bool, Memory>
        requires goes_on { GoesOn self.now.most_goals self.now.most_total (E.takes self.now.expander.now)
            (E.expansion self.now.expander.now) (explored_view search.old) }
        requires count { (found_view search.old).taken + length answers.now ≤ length (found_view search.old).goals }
        requires each { AnswersFrom (E.expansion self.now.expander.now) (found_view search.old).goals
            (found_view search.old).taken answers.now }
        ensures steps { OnOk result (found_view search.new
            ≡ S.after self.now.most_goals self.now.most_total (E.expansion self.now.expander.now)
            (length answers.now) (found_view search.old)) }
        ensures ended { IfOk result (λ b. b ≡ false → S.step self.now.most_goals self.now.most_total
            (E.expansion self.now.expander.now) (found_view search.new) ≡ found_view search.new) }
        ensures moved { IfOk result (λ b. b ≡ true
            → (found_view search.new).taken ≡ length answers.now + (found_view search.old).taken) }
        ensures goes_on { OnOk result (GoesOn self.now.most_goals self.now.most_total (E.takes self.now.expander.now)
            (E.expansion self.now.expander.now) (explored_view search.new)) }
    {
        for answer in answers {
            if !self.take(search, answer)? {
                return Ok(false);
            }
        }
        Ok(true)
    }

    /// Takes the answer for the goal that comes next. False says that another step changes nothing.
    fn take(
        &self,
        search: &mut Explored,
        answer: &Result<Expansion, Memory>,
    ) -> Result<bool, Memory>
        requires goes_on { GoesOn self.now.most_goals self.now.most_total (E.takes self.now.expander.now)
            (E.expansion self.now.expander.now) (explored_view search.old) }
        requires next { (found_view search.old).taken < length (found_view search.old).goals }
        requires answer { Gives (E.expansion self.now.expander.now) (found_view search.old).goals
            (found_view search.old).taken answer.now }
        ensures step { OnOk result (found_view search.new
            ≡ S.step self.now.most_goals self.now.most_total (E.expansion self.now.expander.now)
            (found_view search.old)) }
        ensures ended { IfOk result (λ b. b ≡ false → S.step self.now.most_goals self.now.most_total
            (E.expansion self.now.expander.now) (found_view search.new) ≡ found_view search.new) }
        ensures moved { IfOk result (λ b. b ≡ true
            → (found_view search.new).taken ≡ (found_view search.old).taken + 1) }
        ensures goes_on { OnOk result (GoesOn self.now.most_goals self.now.most_total (E.takes self.now.expander.now)
            (E.expansion self.now.expander.now) (explored_view search.new)) }
    {
        match answer {
            Ok(expansion) => search.take(self.alloc, expansion, self.most_goals, self.most_total),
            Err(memory) => Err(*memory),
        }
    }
}

/// Expands goals of a search by their numbers.
#[derive(Drop)]
struct Expanding<'a, E> {
    alloc: Global,
    expander: &'a E,
    search: &'a Explored,
}

impl<E: Expander> Task for Expanding<'_, E> {
    type Item = u32;

    type Answer = Result<Expansion, Memory>;

    ghost use Rattle.std.specs.Prelude.{is_err};
    ghost use Rattle.js_explore.specs.ExploredView.{found_view};
    ghost use Rattle.js_explore.specs.WaveAnswers.{Gives, IsTaken, expansion_at, one_answer};

    ghost takes = { λ task n. IsTaken (E.takes task.expander.now) (found_view task.search.now).goals n };

    ghost gives = { λ task n answer. Gives (E.expansion task.expander.now) (found_view task.search.now).goals n
        answer };

    ghost lacks_memory = { is_err };

    ghost one_answer = { λ task n. one_answer
        (expansion_at (E.expansion task.expander.now) (found_view task.search.now).goals n) };

    fn answer(&self, number: &u32) -> Result<Expansion, Memory> {
        self.expander.expand(self.alloc, self.search.goal(*number))
    }
}

/// The numbers from one up to another.
fn numbers(alloc: Global, from: u32, to: u32) -> Result<Vec<u32>, AllocError>
    requires { from ≤ to }
    ensures { IfOk result (λ v. v.items ≡ range_with_len from (to - from)) }
{
    (from..to).collect(alloc)
}
