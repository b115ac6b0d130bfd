//! What is decided of a root, with the certificate where there is no document.

ghost use Rattle.std.specs.Prelude.{◌≡◌, ℕ, List, Some, None, true, IfOk};
ghost use Rattle.documents.specs.Kind.{Kind};
ghost use Rattle.documents.specs.Tests.{every};
ghost use Rattle.positions.specs.Position.{Position};
ghost use Rattle.goals.specs.Signed.{Signed};
ghost use Rattle.alternatives.specs.Expansion.{Expansion};
ghost use Rattle.alternatives.specs.Limit.{most_goals, most_total};
ghost use Rattle.decisions.specs.Decision.{of_root};
ghost use Rattle.certificate_lines.specs.Text.{lines_text};
ghost use Rattle.refutations.specs.Refutation.{found_refutation, root_refutation};
ghost use Rattle.search.specs.Explored.{explored};
ghost use Rattle.expander_laws.specs.Expander.{takes, words_by};
ghost use Rattle.js_algebra.specs.View.{are_in_table};
ghost use Rattle.js_explore.specs.ExploredView.{explored_view};
ghost use Rattle.js_explore.specs.Exploration.{Explores};
ghost use Rattle.js_rounds.specs.State.{AreRounds};
ghost use Rattle.js_expander.specs.Found.{goal_expansion, cells_at};
ghost use Rattle.js_decide.specs.View.{outcome_view, verdict_view, decided_view};
ghost use Rattle.js_decide.specs.Certified.{HasCertificate};
ghost use Rattle.js_decide.specs.MeetsRoot.{MeetsRoot};

use crate::outcome::{Outcome, Searched};
use crate::root::search_root;
use crate::verdict::{Decided, Verdict};
use js_algebra::{Core, Goal};
use js_doc::Memory;
use js_expander::CoreExpander;
use js_par::{Gate, Workers};
use js_refute::{no_goal, refute};
use std::alloc::Global;
use std::thread::Threads;

/// Where the root is a goal.
pub(crate) fn decide_root<R: Threads + Sync, G: Gate + Sync>(
    workers: &Workers<'_, R, G>,
    alloc: Global,
    core: &Core,
    root: Goal,
) -> Result<Decided, Memory>
    requires { takes core.now.positions core.now.ranks root ≡ true }
    ensures decided { IfOk result (λ d. decided_view d ≡ of_root (words_by (cells_at core.now.positions))
        (goal_expansion core.now.positions) most_goals most_total (Some root)) }
    ensures certificate { IfOk result (λ d. HasCertificate
        (lines_text (root_refutation core.now.positions most_goals most_total (Some root))) d.verdict) }
    ensures meets { IfOk result (λ d. MeetsRoot core.now.positions (goal_expansion core.now.positions)
        (explored most_goals most_total (goal_expansion core.now.positions) root) (decided_view d).verdict) }
{
    let searched = search_root(workers, alloc, &CoreExpander::new(core), root)?;
    let goals = searched.explored.len();
    let rounds = searched.rounds.last_round();
    Ok(Decided {
        verdict: certified(alloc, core, searched)?,
        goals,
        rounds,
    })
}

/// Where the two positions clash, so that there is no goal.
pub(crate) fn decide_clash(alloc: Global) -> Result<Decided, Memory>
    ensures decided { (words : List Signed → Kind → ℕ → ℕ → ℕ → List ℕ) (expansion : List Signed → Expansion)
        → IfOk result (λ d. decided_view d ≡ of_root words expansion most_goals most_total None) }
    ensures certificate { (T : List Position) → IfOk result (λ d. HasCertificate
        (lines_text (root_refutation T most_goals most_total None)) d.verdict) }
{
    Ok(Decided {
        verdict: Verdict::Certificate(no_goal(alloc)?),
        goals: 0,
        rounds: 0,
    })
}

/// The verdict that an outcome comes to, with a certificate where there is no document.
fn certified(alloc: Global, core: &Core, searched: Searched) -> Result<Verdict, Memory>
    requires has_run { searched.rounds.has_run ≡ true }
    requires inside { every (are_in_table core.now.positions) (explored_view searched.explored).found.goals ≡ true }
    ensures verdict { IfOk result (λ v. verdict_view v ≡ outcome_view searched.outcome) }
    ensures certificate { IfOk result (λ v. (expansion : List Signed → Expansion)
        → Explores expansion (explored_view searched.explored)
        → AreRounds expansion (explored_view searched.explored).found searched.rounds
        → HasCertificate (lines_text (found_refutation expansion (explored_view searched.explored).found
        core.now.positions)) v) }
{
    let Searched {
        explored,
        rounds,
        outcome,
    } = searched;
    match outcome {
        Outcome::Document(parts, own) => Ok(Verdict::Document(parts, own)),
        Outcome::Limit(kind, goal) => Ok(Verdict::Limit(kind, goal)),
        Outcome::NoDocument => {
            let certificate = refute(alloc, core, &explored, &rounds)?;
            Ok(Verdict::Certificate(certificate))
        }
    }
}
