//! What the search shows of a root, for any expander.

ghost use Rattle.std.specs.Prelude.{◌≡◌, ◌<◌, ℕ, List, Some, None, true, false, IfOk, is_some, length, take};
ghost use Rattle.documents.specs.Tests.{every};
ghost use Rattle.positions.specs.Position.{Position};
ghost use Rattle.goals.specs.Signed.{Signed};
ghost use Rattle.alternatives.specs.Limit as L;
ghost use Rattle.alternatives.specs.Expansion as X;
ghost use Rattle.search.specs.Explored as S;
ghost use Rattle.search.specs.Rounds.{hole_of};
ghost use Rattle.decisions.specs.Decision as D;
ghost use Rattle.expander_laws.specs.Expander.{words_by};
ghost use Rattle.expander_laws.specs.Sound.{AreSound};
ghost use Rattle.js_explore.specs.ExploredView.{explored_view};
ghost use Rattle.js_explore.specs.Exploration.{Explores};
ghost use Rattle.js_rounds.specs.State.{IsFor, AreRounds};
ghost use Rattle.js_decide.specs.View.{outcome_view};
ghost use Rattle.js_decide.specs.MeetsRoot.{MeetsRoot};

use crate::outcome::{Outcome, Searched};
use js_algebra::Goal;
use js_doc::Memory;
use js_expansion::Expander;
use js_explore::{Explored, explore};
use js_par::{Gate, Workers};
use js_rounds::Rounds;
use std::alloc::Global;
use std::thread::Threads;

/// Explores from a root, runs rounds, and answers what they show of it.
///
/// It costs what `explore`, `Rounds::run` and `Rounds::witness` cost, of which the workers share the first.
pub fn search_root<R: Threads + Sync, E: Expander + Sync, G: Gate + Sync>(
    workers: &Workers<'_, R, G>,
    alloc: Global,
    expander: &E,
    root: Goal,
) -> Result<Searched, Memory>
    requires { E.takes expander.now root ≡ true }
    ensures outcome { IfOk result (λ s. outcome_view s.outcome ≡ D.verdict_of (words_by (E.cells expander.now))
        (E.expansion expander.now) (explored_view s.explored).found) }

    // What a document means: whatever the table, where each alternative is sound for it.
    ensures meets { (T : List Position) → IfOk result (λ s. AreSound T (words_by (E.cells expander.now))
        (E.expansion expander.now) (explored_view s.explored).found.goals
        → MeetsRoot T (E.expansion expander.now) (explored_view s.explored).found (outcome_view s.outcome)) }

    // Which goals were explored, and what is known of them.
    ensures found { IfOk result (λ s. (explored_view s.explored).found
        ≡ S.explored L.most_goals L.most_total (E.expansion expander.now) root) }
    ensures explores { IfOk result (λ s. Explores (E.expansion expander.now) (explored_view s.explored)) }
    ensures taken { IfOk result (λ s. every (E.takes expander.now) (explored_view s.explored).found.goals ≡ true) }
    ensures has_run { IfOk result (λ s. s.rounds.has_run ≡ true) }
    ensures rounds { IfOk result (λ s. AreRounds (E.expansion expander.now) (explored_view s.explored).found s.rounds) }
{
    let explored = explore(workers, alloc, expander, root)?;
    let mut rounds = Rounds::new(alloc, &explored)?;
    rounds.run_uncounted(&explored);
    let outcome = outcome(alloc, expander, &explored, &rounds)?;
    Ok(Searched {
        explored,
        rounds,
        outcome,
    })
}

/// What the rounds show of the first goal.
fn outcome<E: Expander>(
    alloc: Global,
    expander: &E,
    explored: &Explored,
    rounds: &Rounds,
) -> Result<Outcome, Memory>
    requires has_run { rounds.now.has_run ≡ true }
    requires same { IsFor (length (explored_view explored.now).found.goals) rounds.now }
    requires explores { Explores (E.expansion expander.now) (explored_view explored.now) }
    requires rounds { AreRounds (E.expansion expander.now) (explored_view explored.now).found rounds.now }
    requires taken { every (E.takes expander.now) (explored_view explored.now).found.goals ≡ true }
    ensures outcome { IfOk result (λ o. outcome_view o ≡ D.verdict_of (words_by (E.cells expander.now))
        (E.expansion expander.now) (explored_view explored.now).found) }
    ensures meets { (T : List Position)
        → AreSound T (words_by (E.cells expander.now)) (E.expansion expander.now)
        (explored_view explored.now).found.goals
        → IfOk result (λ o. MeetsRoot T (E.expansion expander.now) (explored_view explored.now).found
        (outcome_view o)) }
{
    if rounds.satisfied(0).is_some() {
        let (parts, own) = rounds.witness(alloc, explored, expander, 0)?;
        return Ok(Outcome::Document(parts, own));
    }
    by_limits(explored)
}

/// The first goal that passes a limit, else the limit on all of them.
fn by_limits(explored: &Explored) -> Result<Outcome, Memory>
    ensures { (expansion : List Signed → X.Expansion) → Explores expansion (explored_view explored.now)
        → IfOk result (λ o. outcome_view o ≡ D.by_limits (D.first_hole expansion
        (take (explored_view explored.now).found.taken (explored_view explored.now).found.goals))
        (explored_view explored.now).found.over) }
{
    for number in 0..explored.len() {
        if let Some(kind) = explored.hole(number) {
            let goal = explored.goal(number).clone()?;
            return Ok(Outcome::Limit(kind, Some(goal)));
        }
    }
    match explored.over() {
        Some(kind) => Ok(Outcome::Limit(kind, None)),
        None => Ok(Outcome::NoDocument),
    }
}
