//! What a plan places, by its number: the first that clashes, and the first that no document meets.

ghost use Rattle.std.specs.Prelude.{◌≡◌, ◌≤◌, ◌^◌, [], map, true, length, IfOk};
ghost use Rattle.std.specs.Option.{is_none};
ghost use Rattle.frames.specs.Plan.{goal_of, first_clash, placed};
ghost use Rattle.refutations.specs.PlanTreeLines.{number_of};
ghost use Rattle.js_algebra.specs.View.{signed_view, are_in_table};
ghost use Rattle.js_plans.specs.Serving.{place_view, plan_after};
ghost use Rattle.js_plan_lines.specs.Reach.{server_at, served_at, seen, IsPath, AreExtents};
ghost use Rattle.js_plan_lines.specs.Kept.{WasClear, AreBefore};
ghost use Rattle.js_plan_lines.specs.Cited.{cited_from};

use crate::before::{Before, is_kept, skip};
use crate::extent::{Placed, extent_of};
use crate::path::{self, place_of, start_of};
use js_algebra::{Goal, Signed, form};
use js_doc::Memory;
use js_expansion::Dead;
use js_plans::{Extent, Place, PlanFrame, Server};
use std::alloc::Global;

/// What is placed by that number, where so many first places are: one of them, or a member behind them.
fn server_at(heads: u64, number: u64) -> Server
    requires { heads ≤ 2 ^ 32 }
    ensures { result ≡ server_at heads number }
{
    if number < heads {
        Server::Head(number as u32)
    } else {
        Server::Member((number - heads) as usize)
    }
}

/// The goal of what is at a place and serves these demands, none where its list clashes.
pub(crate) fn goal_of<F: PlanFrame>(
    alloc: Global,
    frame: &F,
    place: Place,
    served: &[Signed],
) -> Result<Option<Goal>, Memory>
    requires { are_in_table (F.table frame.now) (map signed_view served.now) ≡ true }
    ensures { IfOk result (λ o. o ≡ goal_of (F.table frame.now) (F.frame frame.now)
        (place_view place, map signed_view served.now)) }
{
    let mut list = Vec::new(alloc);
    frame.add_each(place, &mut list)?;
    for demand in served {
        frame.add_serving(place, *demand, &mut list)?;
    }
    form(alloc, frame.core(), list.as_slice())
}

/// The demands of the path that `server` serves, the latest first.
fn served_by<F: PlanFrame>(
    alloc: Global,
    frame: &F,
    path: &[Server],
    extents: &[Extent],
    server: Server,
) -> Result<Vec<Signed>, Memory>
    requires path { IsPath (F.frame frame.now) path.now }
    requires extents { AreExtents [] path.now extents.now }
    ensures value { IfOk result (λ v. map signed_view v.items ≡ served_at (F.frame frame.now) path.now server) }
    ensures in_table { IfOk result (λ v. are_in_table (F.table frame.now) (map signed_view v.items) ≡ true) }
{
    let start = start_of(server).min(path.len());
    let members = extent_of(&path[..start], extents).members;
    let mut served = path::earlier(alloc, path, frame.demands(), start, members, server)?;
    served.reverse();
    Ok(served)
}

/// The goal of a server, with all demands that it serves.
fn goal_at<F: PlanFrame>(
    alloc: Global,
    frame: &F,
    path: &[Server],
    extents: &[Extent],
    server: Server,
) -> Result<Option<Goal>, Memory>
    requires path { IsPath (F.frame frame.now) path.now }
    requires extents { AreExtents [] path.now extents.now }
    ensures { IfOk result (λ o. o ≡ goal_of (F.table frame.now) (F.frame frame.now)
        (seen (F.frame frame.now) path.now server)) }
{
    let served = served_by(alloc, frame, path, extents, server)?;
    let place = place_of(path, extents, server);
    goal_of(alloc, frame, place, served.as_slice())
}

/// Whether the list of a server clashes: one that is kept doesn't.
fn is_clash<F: PlanFrame>(
    alloc: Global,
    frame: &F,
    path: &[Server],
    extents: &[Extent],
    before: Option<Before>,
    server: Server,
) -> Result<bool, Memory>
    requires path { IsPath (F.frame frame.now) path.now }
    requires extents { AreExtents [] path.now extents.now }
    requires before { AreBefore (F.table frame.now) (F.frame frame.now) path.now before }
    ensures { IfOk result (λ b. b ≡ is_none (goal_of (F.table frame.now) (F.frame frame.now)
        (seen (F.frame frame.now) path.now server))) }
{
    if is_kept(before, server) {
        return Ok(false);
    }
    let goal = goal_at(alloc, frame, path, extents, server)?;
    Ok(goal.is_none())
}

/// The number of the first that is placed and whose list clashes, where nothing clashed before the last server.
pub(crate) fn first_clash<F: PlanFrame>(
    alloc: Global,
    frame: &F,
    path: &[Server],
    extents: &[Extent],
) -> Result<Option<u64>, Memory>
    requires path { IsPath (F.frame frame.now) path.now }
    requires extents { AreExtents [] path.now extents.now }
    requires clear { WasClear (F.table frame.now) (F.frame frame.now) path.now }
    ensures { IfOk result (λ o. o ≡ first_clash (F.table frame.now) (F.frame frame.now)
        (plan_after (F.frame frame.now) path.now)) }
{
    let before = Before::of(frame, path, extents);
    let placed = Placed::of(frame, path, extents);
    let mut number = skip(before, placed.heads, 0);
    while number < placed.count {
        let server = server_at(placed.heads, number);
        if is_clash(alloc, frame, path, extents, before, server)? {
            return Ok(Some(number));
        }
        number = skip(before, placed.heads, number + 1);
    }
    Ok(None)
}

/// The number of the goal of a list, if the list forms one.
fn number_of<D: Dead>(dead: &D, goal: Option<Goal>) -> Option<u32>
    ensures { result ≡ number_of (D.number_of dead.now) goal }
{
    match goal {
        Some(goal) => dead.number(&goal),
        None => None,
    }
}

/// The number of the first that is placed and that no document meets, with the number of its goal.
pub(crate) fn first_cited<F: PlanFrame, D: Dead>(
    alloc: Global,
    frame: &F,
    dead: &D,
    path: &[Server],
    extents: &[Extent],
) -> Result<Option<(u64, u32)>, Memory>
    requires path { IsPath (F.frame frame.now) path.now }
    requires extents { AreExtents [] path.now extents.now }
    ensures { IfOk result (λ o. o ≡ cited_from (D.number_of dead.now) (F.table frame.now) (F.frame frame.now) 0
        (placed (F.frame frame.now) (plan_after (F.frame frame.now) path.now))) }
{
    let placed = Placed::of(frame, path, extents);
    for number in 0..placed.count {
        let server = server_at(placed.heads, number);
        let goal = goal_at(alloc, frame, path, extents, server)?;
        if let Some(cited) = number_of(dead, goal) {
            return Ok(Some((number, cited)));
        }
    }
    Ok(None)
}
