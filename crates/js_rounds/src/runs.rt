//! What the document of an alternative is made of, with what is at neighbouring slots given at once.

ghost use Rattle.std.specs.Prelude.{◌≡◌, ◌++◌, ◌-◌, [], cond, map, min, IfOk, OnOk};
ghost use Rattle.search.specs.Uses as U;
ghost use Rattle.js_expansion.specs.View.{slot_view};
ghost use Rattle.js_explore.specs.View.{filler_view};
ghost use Rattle.js_explore.specs.NumberedView.{numbered_view};
ghost use Rattle.js_rounds.specs.Seen.{seen};
ghost use Rattle.js_rounds.specs.Spread.{spread};

use crate::meeting::{Answer, has};
use js_doc::Memory;
use js_expansion::Slot;
use js_explore::{Numbered, NumberedFiller};
use std::alloc::Global;

/// Documents of one goal, at so many slots from one on.
#[derive(Clone, Copy, PartialEq, Eq, Debug)]
pub(crate) struct Run {
    pub(crate) slot: Slot,
    pub(crate) goal: u32,
    pub(crate) count: u32,
}

/// So many of a filler as are needed, up to its room, if the round has its goal. Answers how many are needed then.
fn add_filler(
    found: &mut Vec<Run>,
    known: &[Answer],
    need: u32,
    filler: &NumberedFiller,
    round: u32,
) -> Result<u32, Memory>
    ensures found { OnOk result (spread found.new.items ≡ spread found.old.items
        ++ cond (seen known.now round filler.now.goal)
        (U.repeated (slot_view filler.now.slot) (min need filler.now.room) filler.now.goal) []) }
    ensures left { IfOk result (λ n. n ≡ cond (seen known.now round filler.now.goal) (need - filler.now.room) need) }
{
    if !has(known, filler.goal, round) {
        return Ok(need);
    }
    found.push(Run {
        slot: filler.slot,
        goal: filler.goal,
        count: need.min(filler.room),
    })?;
    Ok(need.saturating_sub(filler.room))
}

/// So many of the fillers that the round has, in order, each up to its room.
fn add_fillers(
    found: &mut Vec<Run>,
    known: &[Answer],
    need: u32,
    fillers: &[NumberedFiller],
    round: u32,
) -> Result<(), Memory>
    ensures { OnOk result (spread found.new.items ≡ spread found.old.items
        ++ U.added_fillers (seen known.now round) need (map filler_view fillers.now)) }
{
    let mut left = need;
    for filler in fillers {
        left = add_filler(found, known, left, filler, round)?;
    }
    Ok(())
}

/// The members of an alternative, and the fillers that it needs of those that the round has.
pub(crate) fn runs(
    alloc: Global,
    known: &[Answer],
    alternative: &Numbered,
    round: u32,
) -> Result<Vec<Run>, Memory>
    ensures { IfOk result (λ v. spread v.items
        ≡ U.contents_of (seen known.now round) (numbered_view alternative.now)) }
{
    let mut found = Vec::new(alloc);
    for member in alternative.members.as_slice() {
        found.push(Run {
            slot: member.slot,
            goal: member.goal,
            count: 1,
        })?;
    }
    add_fillers(
        &mut found,
        known,
        alternative.need,
        alternative.fillers.as_slice(),
        round,
    )?;
    Ok(found)
}
