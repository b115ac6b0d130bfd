//! Demands that are served one after another, each with the goal of what serves it.
//!
//! The plan is not kept: each demand comes with how far the plan reaches once it is served, and what a first place or a
//! member serves is read off the path, in as many steps as it has demands. A new member serves no earlier one.

ghost use Rattle.std.specs.Prelude.{◌≡◌, ◌<◌, ◌≤◌, ◌^◌, [], map, length, get_or, IfOk};
ghost use Rattle.js_algebra.specs.View.{signed_view};
ghost use Rattle.js_plans.specs.Servers.{serves_too, members_after, used_after, most_used, cells_of, earlier, servers_of, AreExtents};

use crate::server::Server;
use js_algebra::{Goal, Signed};
use js_doc::Memory;
use std::alloc::Global;

/// How far a plan reaches.
#[derive(Clone, Copy)]
pub struct Extent {
    /// One more than the last first place that serves.
    pub used: u64,
    pub members: usize,
}

/// A demand that is served: what serves it, the goal of that, for this demand and the earlier ones that it serves, and
/// how far the plan reaches with it.
#[derive(Drop)]
pub struct Served {
    pub server: Server,
    pub goal: Goal,
    pub extent: Extent,
}

/// How many members there are when one more demand is served.
pub fn members_after(members: usize, server: Server) -> usize
    requires { members < 2 ^ 63 }
    ensures { result ≡ members_after members server }
{
    match server {
        Server::New(_) => members + 1,
        _ => members,
    }
}

/// One more than the last first place that serves, when one more demand is served.
fn used_after(used: u64, server: Server) -> u64
    requires { used ≤ 2 ^ 32 }
    ensures value { result ≡ used_after used server }
    ensures bound { result ≤ 2 ^ 32 }
{
    match server {
        Server::Head(k) => used.max(u64::from(k) + 1),
        _ => used,
    }
}

impl Extent {
    /// That of the last server; before the first one nothing is reached.
    pub(crate) fn of(path: &[Served]) -> Extent
        requires { AreExtents [] path.now }
        ensures used { result.used ≡ most_used 0 (servers_of path.now) }
        ensures members { result.members ≡ length (cells_of (servers_of path.now)) }
        ensures few { result.members ≤ length path.now }
        ensures bound { result.used ≤ 2 ^ 32 }
    {
        match path.split_last() {
            Some((last, _)) => last.extent,
            None => Extent {
                used: 0,
                members: 0,
            },
        }
    }

    /// The extent when one more demand is served.
    pub fn with(self, server: Server) -> Extent
        requires members { self.members < 2 ^ 63 }
        requires used { self.used ≤ 2 ^ 32 }
        ensures used { result.used ≡ used_after self.used server }
        ensures members { result.members ≡ members_after self.members server }
        ensures bound { result.used ≤ 2 ^ 32 }
    {
        Extent {
            used: used_after(self.used, server),
            members: members_after(self.members, server),
        }
    }
}

/// Whether what serves a demand also serves an earlier one, before which there were so many members.
pub fn serves_too(server: Server, members: usize, earlier: Server) -> bool
    ensures { result ≡ serves_too server members earlier }
{
    match (server, earlier) {
        (Server::Head(k), Server::Head(i)) => i == k,
        (Server::Member(k), Server::Member(i)) => i == k,
        (Server::Member(k), Server::New(_)) => members == k,
        _ => false,
    }
}

/// The demands of the path that `server` serves, the earliest first.
pub(crate) fn earlier(
    alloc: Global,
    path: &[Served],
    demands: &[Signed],
    server: Server,
) -> Result<Vec<Signed>, Memory>
    requires { length path.now ≤ length demands.now }
    ensures { IfOk result (λ v. map signed_view v.items
        ≡ earlier server (map signed_view demands.now) 0 (servers_of path.now)) }
{
    let mut found = Vec::new(alloc);
    if let Server::New(_) = server {
        return Ok(found);
    }
    let mut members = 0;
    for (i, served) in path.iter().enumerate() {
        if serves_too(server, members, served.server) {
            found.push(demands[i])?;
        }
        members = members_after(members, served.server);
    }
    Ok(found)
}

/// The cells of the members, in order.
pub(crate) fn cells(alloc: Global, path: &[Served]) -> Result<Vec<u32>, Memory>
    ensures { IfOk result (λ v. v.items ≡ cells_of (servers_of path.now)) }
{
    let mut cells = Vec::new(alloc);
    for served in path {
        if let Server::New(cell) = served.server {
            cells.push(cell)?;
        }
    }
    Ok(cells)
}

/// The cell of the member of that number.
pub(crate) fn cell_of(path: &[Served], member: usize) -> u32
    ensures { result ≡ get_or (cells_of (servers_of path.now)) member 0 }
{
    let mut left = member;
    for served in path {
        if let Server::New(cell) = served.server {
            if left == 0 {
                return cell;
            }
            left -= 1;
        }
    }
    0
}
