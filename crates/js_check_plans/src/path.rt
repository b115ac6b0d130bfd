//! What serves the demands of a plan one after another.
//!
//! What a line asks of a path (how far its plan reaches, the cells of its members) is kept beside it as it grows and is
//! cut, so that it isn't listed anew.

ghost use Rattle.std.specs.Prelude.{◌≡◌, ◌≤◌, ◌^◌, ◌++◌, ◌∷◌, [], take, map, length, get_or, IfOk};
ghost use Rattle.js_algebra.specs.View.{signed_view};
ghost use Rattle.js_plans.specs.Serving.{place_view};
ghost use Rattle.js_plans.specs.Servers.{with_cell, cells_of, most_used, used_after, earlier};
ghost use Rattle.js_plans.specs.Goals.{place_after};
ghost use Rattle.js_check_plans.specs.Reach.{useds, last_or};

use crate::extent::Extent;
use crate::members::Members;
use js_algebra::Signed;
use js_doc::Memory;
use js_plans::{Place, Server, members_after, serves_too};
use std::alloc::Global;

/// What serves each demand of a plan so far.
#[derive(Drop)]
pub(crate) struct Path {
    pub servers: Vec<Server>,
    /// With each server, one more than the last first place that serves.
    used: Vec<u64>,
    members: Members,
    ghost reach: { used.items ≡ useds 0 servers.items },
    ghost cells: { members.cells.items ≡ cells_of servers.items },
}

impl Path {
    pub(crate) fn new(alloc: Global) -> Path
        ensures { result.servers.items ≡ [] }
    {
        Path {
            servers: Vec::new(alloc),
            used: Vec::new(alloc),
            members: Members::new(alloc),
        }
    }

    pub(crate) fn len(&self) -> usize
        ensures { result ≡ length self.now.servers.items }
    {
        self.servers.len()
    }

    pub(crate) fn servers(&self) -> &[Server]
        ensures { result.now ≡ self.now.servers.items }
    {
        self.servers.as_slice()
    }

    pub(crate) fn members(&self) -> &Members
        ensures { result.now.cells.items ≡ cells_of self.now.servers.items }
    {
        &self.members
    }

    /// How far the plan reaches.
    pub(crate) fn extent(&self) -> Extent
        ensures used { result.used ≡ most_used 0 self.now.servers.items }
        ensures members { result.members ≡ length (cells_of self.now.servers.items) }
        ensures few { result.members ≤ 2 ^ 63 }
    {
        Extent {
            used: last_or(0, self.used.as_slice()),
            members: self.members.cells.len(),
        }
    }

    /// One more demand is served.
    pub(crate) fn with(self, server: Server) -> Result<Path, Memory>
        ensures { IfOk result (λ p. p.servers.items ≡ self.servers.items ++ server ∷ []) }
    {
        let Path {
            mut servers,
            mut used,
            members,
        } = self;
        let last = last_or(0, used.as_slice());
        used.push(used_after(last, server))?;
        servers.push(server)?;
        let members = with_server(members, server)?;
        Ok(Path {
            servers,
            used,
            members,
        })
    }

    /// So many of the demands are served, the first ones.
    pub(crate) fn cut(self, level: usize) -> Result<Path, Memory>
        requires { level ≤ length self.servers.items }
        ensures { IfOk result (λ p. p.servers.items ≡ take level self.servers.items) }
    {
        let Path {
            mut servers,
            mut used,
            members,
        } = self;
        let fewer = new_members(&servers[level..]);
        let count = members.cells.len() - fewer;
        let members = members.cut(count)?;
        servers.truncate(level);
        used.truncate(level);
        Ok(Path {
            servers,
            used,
            members,
        })
    }
}

/// One more member, where the server is a new one.
fn with_server(members: Members, server: Server) -> Result<Members, Memory>
    ensures { IfOk result (λ m. m.cells.items ≡ members.cells.items ++ with_cell server []) }
{
    match server {
        Server::New(cell) => members.with(cell),
        _ => Ok(members),
    }
}

/// The last number, or `none` where there is none.
fn last_or(none: u64, numbers: &[u64]) -> u64
    ensures { result ≡ last_or none numbers.now }
{
    match numbers.split_last() {
        Some((last, _)) => *last,
        None => none,
    }
}

/// One more than the last first place that serves, when one more demand is served.
fn used_after(used: u64, server: Server) -> u64
    ensures { result ≡ used_after used server }
{
    match server {
        Server::Head(k) => used.max(u64::from(k) + 1),
        _ => used,
    }
}

/// How many of them are new members.
fn new_members(servers: &[Server]) -> usize
    ensures { result ≡ length (cells_of servers.now) }
{
    let mut count = 0;
    for server in servers {
        count = members_after(count, *server);
    }
    count
}

/// The demands of the path that `server` serves, the earliest first.
pub(crate) fn earlier(
    alloc: Global,
    path: &[Server],
    demands: &[Signed],
    server: Server,
) -> Result<Vec<Signed>, Memory>
    requires { length path.now ≤ length demands.now }
    ensures { IfOk result (λ v. map signed_view v.items
        ≡ earlier server (map signed_view demands.now) 0 path.now) }
{
    let mut found = Vec::new(alloc);
    let mut members = 0;
    for (i, other) in path.iter().enumerate() {
        if serves_too(server, members, *other) {
            found.push(demands[i])?;
        }
        members = members_after(members, *other);
    }
    Ok(found)
}

/// The cell of that number.
fn cell_at(cells: &[u32], number: usize) -> u32
    ensures { result ≡ get_or cells.now number 0 }
{
    match cells.get(number) {
        Some(cell) => *cell,
        None => 0,
    }
}

/// The place of a server, after a path.
pub(crate) fn place_of(path: &Path, server: Server) -> Place
    ensures { place_view result ≡ place_after path.now.servers.items server }
{
    match server {
        Server::Head(k) => Place::Head(k),
        Server::Member(k) => Place::In(cell_at(path.members().cells.as_slice(), k)),
        Server::New(cell) => Place::In(cell),
    }
}
