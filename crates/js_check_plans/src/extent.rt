//! How far plans reach, and how many they have.

ghost use Rattle.std.specs.Prelude.{◌≡◌, ◌≤◌, ◌+◌, ◌-◌, ◌^◌, max, min};
ghost use Rattle.frames.specs.Frame.{is_at_end};
ghost use Rattle.js_plans.specs.Walks.{size_of};
ghost use Rattle.js_check_plans.specs.Reach.{heads_of};

use crate::check_frame::CheckFrame;

/// How far a plan reaches.
#[derive(Clone, Copy)]
pub(crate) struct Extent {
    /// One more than the last first place that serves.
    pub used: u64,
    pub members: usize,
}

pub(crate) fn is_at_end(count: u128, below: Option<u128>) -> bool
    ensures { result ≡ is_at_end count below }
{
    match below {
        Some(below) => below <= count,
        None => false,
    }
}

/// How many a plan of that extent has at least.
pub(crate) fn size<F: CheckFrame>(frame: &F, extent: Extent) -> u128
    requires { extent.members ≤ 2 ^ 63 }
    ensures { result ≡ size_of (F.frame frame.now) extent.used extent.members }
{
    let members = match extent.members {
        0 => 0,
        members => u128::from(frame.heads()) + members as u128,
    };
    frame.floor().max(u128::from(extent.used).max(members))
}

/// How many of the first places a plan of that extent places.
pub(crate) fn heads_placed<F: CheckFrame>(frame: &F, extent: Extent) -> u64
    requires { extent.members ≤ 2 ^ 63 }
    ensures value { result ≡ heads_of (F.frame frame.now) extent.used extent.members }
    ensures bound { result ≤ 2 ^ 32 }
{
    size(frame, extent).min(u128::from(frame.heads())) as u64
}

/// How many a plan of that extent doesn't place.
pub(crate) fn need<F: CheckFrame>(frame: &F, extent: Extent) -> u128
    requires { extent.members ≤ 2 ^ 63 }
    ensures { result ≡ max (F.frame frame.now).lower (size_of (F.frame frame.now) extent.used extent.members)
        - ((F.frame frame.now).heads + extent.members) }
{
    let total = size(frame, extent).max(frame.lower());
    total.saturating_sub(u128::from(frame.heads()) + extent.members as u128)
}
