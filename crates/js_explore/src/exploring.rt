//! The search for goals, from a root on.

ghost use Rattle.std.specs.Prelude.{◌≡◌, None, true, length, IfOk};
ghost use Rattle.documents.specs.Tests.{every};
ghost use Rattle.alternatives.specs.Limit as L;
ghost use Rattle.search.specs.Explored.{explored};
ghost use Rattle.js_explore.specs.Exploration.{Explores};
ghost use Rattle.js_explore.specs.ExploredView.{explored_view};

use crate::explored::Explored;
use crate::waves::Waves;
use js_algebra::Goal;
use js_doc::Memory;
use js_expansion::Expander;
use js_par::{Gate, Workers};
use std::alloc::Global;
use std::thread::Threads;

/// Goals that get a number.
pub const MOST_GOALS: u32 = 65_536;

/// Places of the alternatives of all goals that are taken.
pub const MOST_TOTAL: u32 = 16_777_216;

/// Explores from a root: it has number 0, goals are taken by number, and what the alternatives of one name is mentioned
/// in order, members before fillers.
///
/// Past 65,536 goals none gets a number. At the first goal with which the places of all would be more than 16,777,216
/// the search ends: neither this goal nor a later one is taken. Where `over` is None all goals were taken. Each goal is
/// expanded once, and what it names costs three hashes each at most.
///
/// One worker expands one goal after another, and the gate isn't called. Several expand all goals that wait at once:
/// the root, then all goals that it names, and so on. Memory holds the expansions of one such wave at once.
pub fn explore<R: Threads + Sync, E: Expander + Sync, G: Gate + Sync>(
    workers: &Workers<'_, R, G>,
    alloc: Global,
    expander: &E,
    root: Goal,
) -> Result<Explored, Memory>
    requires { E.takes expander.now root ≡ true }
    ensures found { IfOk result (λ e. (explored_view e).found
        ≡ explored L.most_goals L.most_total (E.expansion expander.now) root) }
    ensures answers { IfOk result (λ e. Explores (E.expansion expander.now) (explored_view e)) }
    ensures taken { IfOk result (λ e. every (E.takes expander.now) (explored_view e).found.goals ≡ true) }
    ensures whole { IfOk result (λ e. (explored_view e).found.over ≡ None
        → (explored_view e).found.taken ≡ length (explored_view e).found.goals) }
{
    explore_within(workers, alloc, expander, root, MOST_GOALS, MOST_TOTAL)
}

/// `explore` within given limits on goals and places.
pub(crate) fn explore_within<R: Threads + Sync, E: Expander + Sync, G: Gate + Sync>(
    workers: &Workers<'_, R, G>,
    alloc: Global,
    expander: &E,
    root: Goal,
    most_goals: u32,
    most_total: u32,
) -> Result<Explored, Memory>
    requires { E.takes expander.now root ≡ true }
    ensures found { IfOk result (λ e. (explored_view e).found
        ≡ explored most_goals most_total (E.expansion expander.now) root) }
    ensures answers { IfOk result (λ e. Explores (E.expansion expander.now) (explored_view e)) }
    ensures taken { IfOk result (λ e. every (E.takes expander.now) (explored_view e).found.goals ≡ true) }
{
    if workers.count == 1 {
        return explore_alone(alloc, expander, root, most_goals, most_total);
    }
    let waves = Waves {
        alloc,
        expander,
        most_goals,
        most_total,
    };
    waves.explore(workers, root)
}

/// Explores on the calling thread alone, one goal after another.
fn explore_alone<E: Expander>(
    alloc: Global,
    expander: &E,
    root: Goal,
    most_goals: u32,
    most_total: u32,
) -> Result<Explored, Memory>
    requires { E.takes expander.now root ≡ true }
    ensures found { IfOk result (λ e. (explored_view e).found
        ≡ explored most_goals most_total (E.expansion expander.now) root) }
    ensures answers { IfOk result (λ e. Explores (E.expansion expander.now) (explored_view e)) }
    ensures taken { IfOk result (λ e. every (E.takes expander.now) (explored_view e).found.goals ≡ true) }
{
    let mut search = Explored::new(alloc, root)?;
    for turn in 0..most_goals {
        if !search.step(alloc, expander, most_goals, most_total)? {
            break;
        }
    }
    Ok(search)
}
