//! The goals of what is at the places of a plan.

ghost use Rattle.std.specs.Prelude.{◌≡◌, ◌<◌, ◌≤◌, ◌∷◌, map, length, get_or, IfOk, OnOk, Option, Some, None, true, false};
ghost use Rattle.goals.specs.Signed as G;
ghost use Rattle.frames.specs.Plan.{goal_of, empty_plan};
ghost use Rattle.js_algebra.specs.View.{signed_view, are_in_table};
ghost use Rattle.js_plans.specs.Serving.{place_view};
ghost use Rattle.js_plans.specs.Servers.{earlier, servers_of, cells_of};
ghost use Rattle.js_plans.specs.Goals.{place_after, goal_after, filler_goal, AreFirst, AreFillers, IsFirstClash};

use crate::path::{self, Served};
use crate::plan_frame::PlanFrame;
use crate::server::{Place, Server};
use js_algebra::{Goal, Signed, form};
use js_doc::Memory;
use std::alloc::Global;

/// The goal of what is at a place and serves these demands, none where its list clashes.
pub(crate) fn goal_at<F: PlanFrame>(
    alloc: Global,
    frame: &F,
    place: Place,
    served: &[Signed],
) -> Result<Option<Goal>, Memory>
    requires { are_in_table (F.table frame.now) (map signed_view served.now) ≡ true }
    ensures { IfOk result (λ o. o ≡ goal_of (F.table frame.now) (F.frame frame.now)
        (place_view place, map signed_view served.now)) }
{
    let mut list = Vec::new(alloc);
    frame.add_each(place, &mut list)?;
    for demand in served {
        frame.add_serving(place, *demand, &mut list)?;
    }
    form(alloc, frame.core(), list.as_slice())
}

/// The place of a server, after a path.
fn place_of(path: &[Served], server: Server) -> Place
    ensures { place_view result ≡ place_after (servers_of path.now) server }
{
    match server {
        Server::Head(k) => Place::Head(k),
        Server::Member(k) => Place::In(path::cell_of(path, k)),
        Server::New(cell) => Place::In(cell),
    }
}

/// The goal of what serves the next demand after a path, none where its list clashes.
pub(crate) fn goal_after<F: PlanFrame>(
    alloc: Global,
    frame: &F,
    path: &[Served],
    server: Server,
) -> Result<Option<Goal>, Memory>
    requires { length path.now < length (F.frame frame.now).demands }
    ensures { IfOk result (λ o. o ≡ goal_after (F.table frame.now) (F.frame frame.now) (servers_of path.now) server) }
{
    let demands = frame.demands();
    let mut served = path::earlier(alloc, path, demands, server)?;
    served.push(demands[path.len()])?;
    served.reverse();
    goal_at(alloc, frame, place_of(path, server), served.as_slice())
}

/// Forms goals of first places that serve nothing, until there are `count` of them. False says that the list of the
/// next one clashes.
pub(crate) fn form_first<F: PlanFrame>(
    alloc: Global,
    frame: &F,
    first: &mut Vec<Goal>,
    count: u32,
) -> Result<bool, Memory>
    requires first { AreFirst (F.table frame.now) (F.frame frame.now) 0 first.old.items }
    ensures first { OnOk result (AreFirst (F.table frame.now) (F.frame frame.now) 0 first.new.items) }
    ensures formed { IfOk result (λ b. b ≡ true → count ≤ length first.new.items) }
    ensures clash { IfOk result (λ b. b ≡ false → IsFirstClash (F.table frame.now) (F.frame frame.now) count) }
{
    for k in first.len() as u64..u64::from(count) {
        match goal_at(alloc, frame, Place::Head(k as u32), &[])? {
            Some(goal) => first.push(goal)?,
            None => return Ok(false),
        }
    }
    Ok(true)
}

/// Forms the goals of what serves nothing in each cell, none where its list clashes, unless they were formed.
pub(crate) fn form_fillers<F: PlanFrame>(
    alloc: Global,
    frame: &F,
    goals: &mut Vec<Option<Goal>>,
) -> Result<(), Memory>
    requires { AreFillers (F.table frame.now) (F.frame frame.now) goals.old.items }
    ensures { OnOk result (goals.new.items
        ≡ map (filler_goal (F.table frame.now) (F.frame frame.now)) (F.frame frame.now).cells) }
{
    let cells = frame.cells();
    for k in goals.len()..cells.len() {
        goals.push(goal_at(alloc, frame, Place::In(cells[k]), &[])?)?;
    }
    Ok(())
}
