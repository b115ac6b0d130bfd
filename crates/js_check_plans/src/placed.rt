//! What a plan places, by its number, and whether lines refute it.

ghost use Rattle.std.specs.Prelude.{◌≡◌, ◌<◌, ◌≤◌, ◌^◌, ◌+◌, map, true, length, slice_get, reverse, IfOk};
ghost use Rattle.goals.specs.Signed as G;
ghost use Rattle.frames.specs.Frame.{list_at};
ghost use Rattle.frames.specs.Plan.{placed};
ghost use Rattle.frames.specs.PlanLines as P;
ghost use Rattle.verdicts.specs.Duties.{ending};
ghost use Rattle.verdicts.specs.Verdict.{cites};
ghost use Rattle.js_algebra.specs.View.{signed_view, are_in_table};
ghost use Rattle.js_lines.specs.View.{end_view};
ghost use Rattle.js_plans.specs.Serving.{place_view, plan_after};
ghost use Rattle.js_plans.specs.Servers.{earlier};
ghost use Rattle.js_plans.specs.Goals.{place_after};
ghost use Rattle.js_check_plans.specs.Reach.{server_at, served_at, IsPath};

use crate::check_frame::CheckFrame;
use crate::extent::heads_placed;
use crate::path::{Path, earlier, place_of};
use crate::refuted::is_refuted;
use js_algebra::{Goal, Signed};
use js_doc::Memory;
use js_lines::CertEnd;
use js_plans::{Place, Server};
use std::alloc::Global;

/// What is placed by that number: one of the first places, or a member behind them.
fn server_at<F: CheckFrame>(frame: &F, path: &Path, number: u64) -> Option<Server>
    ensures { result ≡ server_at (F.frame frame.now) path.now.servers.items number }
{
    let extent = path.extent();
    let heads = heads_placed(frame, extent);
    if number < heads {
        return Some(Server::Head(number as u32));
    }
    let member = number - heads;
    if member < extent.members as u64 {
        return Some(Server::Member(member as usize));
    }
    None
}

/// What is required of what is at a place and serves these demands.
pub(crate) fn list_at<F: CheckFrame>(
    alloc: Global,
    frame: &F,
    place: Place,
    served: &[Signed],
) -> Result<Vec<Signed>, Memory>
    requires { are_in_table (F.table frame.now) (map signed_view served.now) ≡ true }
    ensures value { IfOk result (λ v. map signed_view v.items ≡ list_at (F.frame frame.now) (place_view place)
        (map signed_view served.now)) }
    ensures in_table { IfOk result (λ v. are_in_table (F.table frame.now) (map signed_view v.items) ≡ true) }
{
    let mut list = Vec::new(alloc);
    frame.add_each(place, &mut list)?;
    for demand in served {
        frame.add_serving(place, *demand, &mut list)?;
    }
    Ok(list)
}

/// The demands of the path that `server` serves, the latest first.
fn served_by<F: CheckFrame>(
    alloc: Global,
    frame: &F,
    path: &Path,
    server: Server,
) -> Result<Vec<Signed>, Memory>
    requires { length path.now.servers.items ≤ length (F.frame frame.now).demands }
    ensures value { IfOk result (λ v. map signed_view v.items ≡ served_at (F.frame frame.now) path.now.servers.items
        server) }
    ensures in_table { IfOk result (λ v. are_in_table (F.table frame.now) (map signed_view v.items) ≡ true) }
{
    let mut served = earlier(alloc, path.servers(), frame.demands(), server)?;
    served.reverse();
    Ok(served)
}

/// Whether what is at a place and serves these demands is refuted by the end.
pub(crate) fn is_place_refuted<F: CheckFrame>(
    alloc: Global,
    frame: &F,
    goals: &[Goal],
    place: Place,
    served: &[Signed],
    end: CertEnd,
) -> Result<bool, Memory>
    requires { are_in_table (F.table frame.now) (map signed_view served.now) ≡ true }
    ensures { IfOk result (λ b. b ≡ P.is_refuted (F.table frame.now) (cites goals.now)
        (list_at (F.frame frame.now) (place_view place) (map signed_view served.now)) (ending (end_view end))) }
{
    let list = list_at(alloc, frame, place, served)?;
    is_refuted(alloc, frame.core(), goals, list.as_slice(), end)
}

/// Whether something is placed by that number, and is refuted by the end.
pub(crate) fn is_refuted_at<F: CheckFrame>(
    alloc: Global,
    frame: &F,
    path: &Path,
    goals: &[Goal],
    number: u64,
    end: CertEnd,
) -> Result<bool, Memory>
    requires { IsPath (F.frame frame.now) path.now.servers.items }
    ensures { IfOk result (λ b. b ≡ P.is_refuted_at (F.table frame.now) (cites goals.now) (F.frame frame.now)
        (slice_get (placed (F.frame frame.now) (plan_after (F.frame frame.now) path.now.servers.items)) number)
        (ending (end_view end))) }
{
    match server_at(frame, path, number) {
        Some(server) => {
            let served = served_by(alloc, frame, path, server)?;
            let place = place_of(path, server);
            is_place_refuted(alloc, frame, goals, place, served.as_slice(), end)
        }
        None => Ok(false),
    }
}
