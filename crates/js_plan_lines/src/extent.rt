//! How far plans reach, and how many they have.

ghost use Rattle.std.specs.Prelude.{◌≡◌, ◌≤◌, ◌^◌, [], length};
ghost use Rattle.frames.specs.Frame.{is_at_end};
ghost use Rattle.frames.specs.Plan.{size, placed};
ghost use Rattle.verdicts.specs.Duties.{heads_placed};
ghost use Rattle.js_plans.specs.Servers.{most_used, cells_of};
ghost use Rattle.js_plans.specs.Serving.{plan_after};
ghost use Rattle.js_plan_lines.specs.Reach.{heads_of, IsPath, AreExtents};

use js_plans::{Extent, PlanFrame, Server, is_at_end, size};

/// How far the plan of a path reaches, by the last server, where these are the extents of all; before the first one
/// nothing is reached.
pub(crate) fn extent_of(path: &[Server], extents: &[Extent]) -> Extent
    requires { AreExtents [] path.now extents.now }
    ensures used { result.used ≡ most_used 0 path.now }
    ensures members { result.members ≡ length (cells_of path.now) }
    ensures few { result.members ≤ length path.now }
    ensures bound { result.used ≤ 2 ^ 32 }
{
    match path.split_last() {
        Some((_, before)) => extents[before.len()],
        None => Extent {
            used: 0,
            members: 0,
        },
    }
}

/// Whether the plan of the path has too many.
pub(crate) fn is_over<F: PlanFrame>(frame: &F, path: &[Server], extents: &[Extent]) -> bool
    requires path { IsPath (F.frame frame.now) path.now }
    requires extents { AreExtents [] path.now extents.now }
    ensures { result ≡ is_at_end (size (F.frame frame.now) (plan_after (F.frame frame.now) path.now))
        (F.frame frame.now).below }
{
    is_at_end(size(frame, extent_of(path, extents)), frame.below())
}

/// How many of the first places a plan of that extent places.
fn heads_placed<F: PlanFrame>(frame: &F, extent: Extent) -> u64
    requires { extent.members ≤ 2 ^ 63 }
    ensures value { result ≡ heads_of (F.frame frame.now) extent.used extent.members }
    ensures bound { result ≤ 2 ^ 32 }
{
    size(frame, extent).min(u64::from(frame.heads()))
}

/// How many a plan places: first places, and members behind them.
#[derive(Clone, Copy)]
pub(crate) struct Placed {
    pub heads: u64,
    pub members: usize,
    pub count: u64,
}

impl Placed {
    pub(crate) fn of<F: PlanFrame>(frame: &F, path: &[Server], extents: &[Extent]) -> Placed
        requires path { IsPath (F.frame frame.now) path.now }
        requires extents { AreExtents [] path.now extents.now }
        ensures heads { result.heads ≡ heads_placed (F.frame frame.now) (plan_after (F.frame frame.now) path.now) }
        ensures members { result.members ≡ length (cells_of path.now) }
        ensures count { result.count
            ≡ length (placed (F.frame frame.now) (plan_after (F.frame frame.now) path.now)) }
        ensures bound { result.heads ≤ 2 ^ 32 }
    {
        let extent = extent_of(path, extents);
        let heads = heads_placed(frame, extent);
        Placed {
            heads,
            members: extent.members,
            count: heads + extent.members as u64,
        }
    }
}
