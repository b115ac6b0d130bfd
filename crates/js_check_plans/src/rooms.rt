//! The rooms of cells that a line keeps, and whether a plan needs more.

ghost use Rattle.std.specs.Prelude.{◌≡◌, ◌≤◌, ◌<◌, ◌^◌, ◌*◌, map, IfOk, IfSome, length};
ghost use Rattle.frames.specs.Plan.{need};
ghost use Rattle.frames.specs.PlanLines as P;
ghost use Rattle.verdicts.specs.Duties as D;
ghost use Rattle.verdicts.specs.Duties.{ending};
ghost use Rattle.verdicts.specs.Verdict.{cites};
ghost use Rattle.js_lines.specs.View.{end_view, entry_view};
ghost use Rattle.js_plans.specs.Serving.{plan_after};
ghost use Rattle.js_check_plans.specs.Reach.{IsPath};
ghost use Rattle.js_check_plans.specs.Rooms.{refuted_room, entry_room, rooms_in};

use crate::check_frame::CheckFrame;
use crate::extent::need;
use crate::members::Members;
use crate::path::Path;
use crate::placed::is_place_refuted;
use js_algebra::Goal;
use js_doc::Memory;
use js_lines::{CertEnd, ShortEntry};
use js_plans::Place;
use std::alloc::Global;

/// The room that is left in a cell with so many members, if it is bounded.
fn room_of(cap: Option<u32>, count: usize) -> Option<u32>
    ensures { result ≡ P.room_of count cap }
{
    match cap {
        Some(cap) => Some((cap as usize).saturating_sub(count) as u32),
        None => None,
    }
}

/// No room, where what may be added in a cell is refuted by the end.
fn refuted_room<F: CheckFrame>(
    alloc: Global,
    frame: &F,
    goals: &[Goal],
    cell: u32,
    end: CertEnd,
) -> Result<Option<u32>, Memory>
    ensures { IfOk result (λ o. o ≡ refuted_room (F.table frame.now) (cites goals.now) (F.frame frame.now) cell
        (ending (end_view end))) }
{
    if is_place_refuted(alloc, frame, goals, Place::In(cell), &[], end)? {
        Ok(Some(0))
    } else {
        Ok(None)
    }
}

/// The room that an entry leaves in a cell; none where the entry is wrong or the room has no bound.
fn entry_room<F: CheckFrame>(
    alloc: Global,
    frame: &F,
    goals: &[Goal],
    members: &Members,
    cell: u32,
    entry: ShortEntry,
) -> Result<Option<u32>, Memory>
    ensures { IfOk result (λ o. o ≡ entry_room (F.table frame.now) (cites goals.now) (F.frame frame.now)
        members.now.cells.items cell (D.entry (entry_view entry))) }
{
    match entry {
        ShortEntry::Kept => Ok(room_of(frame.cap(cell), members.count(cell))),
        ShortEntry::Clash => refuted_room(alloc, frame, goals, cell, CertEnd::Clash),
        ShortEntry::Goal(number) => {
            refuted_room(alloc, frame, goals, cell, CertEnd::Goal(number))
        }
    }
}

/// The rooms that the entries leave, one for each cell; none where one of them leaves none.
fn rooms<F: CheckFrame>(
    alloc: Global,
    frame: &F,
    goals: &[Goal],
    members: &Members,
    entries: &[ShortEntry],
) -> Result<Option<u128>, Memory>
    ensures { IfOk result (λ o. o ≡ rooms_in (F.table frame.now) (cites goals.now) (F.frame frame.now)
        members.now.cells.items (F.frame frame.now).cells (map D.entry (map entry_view entries.now))) }
{
    let cells = frame.cells();
    if entries.len() != cells.len() {
        return Ok(None);
    }
    let mut total: u128 = 0;
    for (i, cell) in cells.iter().enumerate() {
        match entry_room(alloc, frame, goals, members, *cell, entries[i])? {
            Some(room) => total += u128::from(room),
            None => return Ok(None),
        }
    }
    Ok(Some(total))
}

fn is_short(missing: u128, rooms: Option<u128>) -> bool
    ensures { result ≡ P.is_short missing rooms }
{
    match rooms {
        Some(rooms) => rooms < missing,
        None => false,
    }
}

/// Whether the plan needs more than the entries leave room for.
pub(crate) fn falls_short<F: CheckFrame>(
    alloc: Global,
    frame: &F,
    path: &Path,
    goals: &[Goal],
    entries: &[ShortEntry],
) -> Result<bool, Memory>
    requires { IsPath (F.frame frame.now) path.now.servers.items }
    ensures { IfOk result (λ b. b ≡ P.is_short (need (F.frame frame.now) (plan_after (F.frame frame.now)
        path.now.servers.items)) (P.rooms (F.table frame.now) (cites goals.now) (F.frame frame.now) (plan_after (F.frame
        frame.now) path.now.servers.items).members (F.frame frame.now).cells (map D.entry (map entry_view
        entries.now)))) }
{
    let rooms = rooms(alloc, frame, goals, path.members(), entries)?;
    Ok(is_short(need(frame, path.extent()), rooms))
}
