//! Elements of arrays, by the numbers of their parts.

ghost use Rattle.std.specs.Prelude.{◌≡◌, ◌++◌, map, IfOk, OnOk};
ghost use Rattle.search.specs.Uses.{repeated};
ghost use Rattle.js_doc.specs.PartMembers.{number_of};
ghost use Rattle.js_expansion.specs.View.{slot_view};
ghost use Rattle.js_rounds.specs.Spread.{spread};
ghost use Rattle.js_rounds.specs.Slots.{place_at};

use crate::runs::Run;
use js_doc::{Memory, PartId, PartIds};
use std::alloc::Global;

/// The number of a goal's part.
pub(crate) fn place_of(places: &[u32], goal: u32) -> u32
    ensures { result ≡ place_at places.now goal }
{
    match places.get(goal as usize) {
        Some(place) => *place,
        None => 0,
    }
}

/// The elements of a run.
fn add_elements(ids: &mut Vec<PartId>, run: &Run, places: &[u32]) -> Result<(), Memory>
    ensures { OnOk result (map number_of ids.new.items ≡ map number_of ids.old.items
        ++ map (λ p. place_at places.now p.goal) (repeated (slot_view run.now.slot) run.now.count run.now.goal)) }
{
    let id = PartId(place_of(places, run.goal));
    for turn in 0..run.count {
        let _ = turn;
        ids.push(id)?;
    }
    Ok(())
}

/// The elements of runs.
pub(crate) fn elements(alloc: Global, runs: &[Run], places: &[u32]) -> Result<PartIds, Memory>
    ensures { IfOk result (λ l. l ≡ map (λ p. place_at places.now p.goal) (spread runs.now)) }
{
    let mut ids = Vec::new(alloc);
    for run in runs {
        add_elements(&mut ids, run, places)?;
    }
    Ok(PartIds::from_vec(ids))
}
