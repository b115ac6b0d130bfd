//! What was placed before the last server of a path: where nothing clashed, it needs no second look, except what
//! serves the last demand.

ghost use Rattle.std.specs.Prelude.{◌≡◌, ◌≤◌, []};
ghost use Rattle.js_plan_lines.specs.Reach.{IsPath, AreExtents};
ghost use Rattle.js_plan_lines.specs.Kept.{WasClear, is_among, is_kept, AreBefore, head_or, member_or, end_before, skip_kept, skip};

use crate::extent::Placed;
use js_plans::{Extent, PlanFrame, Server, serves_too};

/// So many were placed before the last server of a path.
#[derive(Clone, Copy)]
pub(crate) struct Before {
    heads: u64,
    members: usize,
    last: Server,
}

impl Before {
    /// What was placed before the last server of a path; none where the path has no servers.
    pub(crate) fn of<F: PlanFrame>(frame: &F, path: &[Server], extents: &[Extent]) -> Option<Before>
        requires path { IsPath (F.frame frame.now) path.now }
        requires extents { AreExtents [] path.now extents.now }
        requires clear { WasClear (F.table frame.now) (F.frame frame.now) path.now }
        ensures { AreBefore (F.table frame.now) (F.frame frame.now) path.now result }
    {
        match path.split_last() {
            Some((last, before)) => {
                let placed = Placed::of(frame, before, extents);
                Some(Before {
                    heads: placed.heads,
                    members: placed.members,
                    last: *last,
                })
            }
            None => None,
        }
    }

    /// A number behind those that are kept from a number on, where so many first places are placed: the next one that
    /// isn't kept, or the end of the first places that are.
    fn skip(self, heads: u64, number: u64) -> u64
        ensures value { result ≡ skip_kept self heads number }
        ensures least { number ≤ result }
    {
        if number < heads {
            let last = head_or(self.heads, self.last);
            return number.max(end_before(number, self.heads.min(heads), last));
        }
        let members = self.members as u64;
        let end = end_before(number - heads, members, member_or(members, self.last));
        number.max(heads.saturating_add(end))
    }
}

/// The first place that a server serves, or `none`.
fn head_or(none: u64, server: Server) -> u64
    ensures { result ≡ head_or none server }
{
    match server {
        Server::Head(k) => u64::from(k),
        _ => none,
    }
}

/// The member that a server serves, or `none`.
fn member_or(none: u64, server: Server) -> u64
    ensures { result ≡ member_or none server }
{
    match server {
        Server::Member(k) => k as u64,
        _ => none,
    }
}

/// Where what is kept from a number on ends: at `end`, or at what the last server serves.
fn end_before(number: u64, end: u64, last: u64) -> u64
    ensures { result ≡ end_before number end last }
{
    if last < number { end } else { end.min(last) }
}

/// A number behind those that are kept from a number on.
pub(crate) fn skip(before: Option<Before>, heads: u64, number: u64) -> u64
    ensures value { result ≡ skip before heads number }
    ensures least { number ≤ result }
{
    match before {
        Some(before) => before.skip(heads, number),
        None => number,
    }
}

fn is_among(heads: u64, members: usize, server: Server) -> bool
    ensures { result ≡ is_among heads members server }
{
    match server {
        Server::Head(k) => u64::from(k) < heads,
        Server::Member(k) => k < members,
        Server::New(_) => false,
    }
}

/// Whether it was placed before the last server, which serves at another place.
pub(crate) fn is_kept(before: Option<Before>, server: Server) -> bool
    ensures { result ≡ is_kept before server }
{
    match before {
        Some(before) => {
            is_among(before.heads, before.members, server)
                && !serves_too(server, before.members, before.last)
        }
        None => false,
    }
}
