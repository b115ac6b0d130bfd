//! What serves the demands of a plan one after another.

ghost use Rattle.std.specs.Prelude.{◌≡◌, ◌≤◌, [], drop, map, length, get_or, IfOk};
ghost use Rattle.js_algebra.specs.View.{signed_view};
ghost use Rattle.js_plans.specs.Serving.{place_view};
ghost use Rattle.js_plans.specs.Servers.{cells_of, earlier};
ghost use Rattle.js_plans.specs.Goals.{place_after};
ghost use Rattle.js_plan_lines.specs.Kept.{member_or};
ghost use Rattle.js_plan_lines.specs.Reach.{AreExtents};

use crate::extent::extent_of;
use js_algebra::Signed;
use js_doc::Memory;
use js_plans::{Extent, Place, Server, members_after, serves_too};
use std::alloc::Global;

/// No demand before that of this number is served: each member before this one was new when it came.
pub(crate) fn start_of(server: Server) -> usize
    ensures { result ≡ member_or 0 server }
{
    match server {
        Server::Member(k) => k,
        _ => 0,
    }
}

/// The demands of the path from number `start` on that `server` serves, the earliest first. Before them so many members
/// came.
pub(crate) fn earlier(
    alloc: Global,
    path: &[Server],
    demands: &[Signed],
    start: usize,
    before: usize,
    server: Server,
) -> Result<Vec<Signed>, Memory>
    requires long { length path.now ≤ length demands.now }
    requires start { start ≤ length path.now }
    requires few { before ≤ start }
    ensures { IfOk result (λ v. map signed_view v.items
        ≡ earlier server (map signed_view (drop start demands.now)) before (drop start path.now)) }
{
    let mut found = Vec::new(alloc);
    let mut members = before;
    for i in start..path.len() {
        let other = path[i];
        if serves_too(server, members, other) {
            found.push(demands[i])?;
        }
        members = members_after(members, other);
    }
    Ok(found)
}

/// The cell of the member of that number.
fn cell_of(path: &[Server], member: usize) -> u32
    ensures { result ≡ get_or (cells_of path.now) member 0 }
{
    let mut left = member;
    for server in path {
        if let Server::New(cell) = *server {
            if left == 0 {
                return cell;
            }
            left -= 1;
        }
    }
    0
}

/// The cell of the member of that number, looked for from the server of that number on: each member before it was new
/// when it came.
fn cell_at(path: &[Server], extents: &[Extent], member: usize) -> u32
    requires { AreExtents [] path.now extents.now }
    ensures { result ≡ get_or (cells_of path.now) member 0 }
{
    let start = member.min(path.len());
    let before = extent_of(&path[..start], extents).members;
    cell_of(&path[start..], member - before)
}

/// The place of a server, after a path.
pub(crate) fn place_of(path: &[Server], extents: &[Extent], server: Server) -> Place
    requires { AreExtents [] path.now extents.now }
    ensures { place_view result ≡ place_after path.now server }
{
    match server {
        Server::Head(k) => Place::Head(k),
        Server::Member(k) => Place::In(cell_at(path, extents, k)),
        Server::New(cell) => Place::In(cell),
    }
}
