//! Numbers in place of goals.

ghost use Rattle.std.specs.Prelude.{◌≡◌, ◌<◌, ◌^◌, map, length, option_map, IfOk};
ghost use Rattle.search.specs.Explored.{number_in};
ghost use Rattle.search.specs.Rounds as R;
ghost use Rattle.js_expansion.specs.View as E;
ghost use Rattle.js_expansion.specs.AlternativeView.{alternative_view};
ghost use Rattle.js_explore.specs.NumberedView.{numbered_view};

use crate::numbered::{
    Numbered, NumberedFiller, NumberedFillerList, NumberedPlaced, NumberedPlacedList,
};
use indexmap::IndexSet;
use js_algebra::Goal;
use js_doc::Memory;
use js_expansion::{Alternative, Filler, Placed};
use std::alloc::Global;

/// The number of a goal. It costs a hash.
pub(crate) fn number(goals: &IndexSet<Goal>, goal: &Goal) -> Option<u32>
    requires { length goals.now.keys < 2 ^ 32 }
    ensures { result ≡ number_in goals.now.keys goal.now }
{
    match goals.get_index_of(goal) {
        Some(number) => Some(number as u32),
        None => None,
    }
}

/// Members with numbers, if the goal of each has one.
fn number_members(
    alloc: Global,
    goals: &IndexSet<Goal>,
    members: &[Placed],
) -> Result<Option<NumberedPlacedList>, Memory>
    requires { length goals.now.keys < 2 ^ 32 }
    ensures { IfOk result (λ o. o ≡ R.number_members goals.now.keys (map E.placed_view members.now)) }
{
    let mut found = Vec::with_capacity(alloc, members.len())?;
    for member in members {
        let Some(goal) = number(goals, &member.goal) else {
            return Ok(None);
        };
        found.push(NumberedPlaced {
            slot: member.slot,
            goal,
        })?;
    }
    Ok(Some(NumberedPlacedList::from_vec(found)))
}

/// Those fillers with numbers whose goals have one.
fn number_fillers(
    alloc: Global,
    goals: &IndexSet<Goal>,
    fillers: &[Filler],
) -> Result<NumberedFillerList, Memory>
    requires { length goals.now.keys < 2 ^ 32 }
    ensures { IfOk result (λ l. l ≡ R.number_fillers goals.now.keys (map E.filler_view fillers.now)) }
{
    let mut found = Vec::new(alloc);
    for filler in fillers {
        if let Some(goal) = number(goals, &filler.goal) {
            found.push(NumberedFiller {
                goal,
                room: filler.room,
                slot: filler.slot,
            })?;
        }
    }
    Ok(NumberedFillerList::from_vec(found))
}

/// Those alternatives with numbers whose members all have one. A hash for each member and filler.
pub(crate) fn number_alternatives(
    alloc: Global,
    goals: &IndexSet<Goal>,
    alternatives: &[Alternative],
) -> Result<Vec<Numbered>, Memory>
    requires { length goals.now.keys < 2 ^ 32 }
    ensures { IfOk result (λ v. map numbered_view v.items
        ≡ R.numbered goals.now.keys (map alternative_view alternatives.now)) }
{
    let mut found = Vec::new(alloc);
    for alternative in alternatives {
        if let Some(members) = number_members(alloc, goals, alternative.members.as_slice())? {
            let fillers = number_fillers(alloc, goals, alternative.fillers.as_slice())?;
            found.push(Numbered {
                branch: alternative.branch,
                shape: alternative.shape,
                members,
                need: alternative.need,
                fillers,
            })?;
        }
    }
    Ok(found)
}
