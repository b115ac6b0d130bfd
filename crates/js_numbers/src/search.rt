//! The first candidate that nothing rules out.
//!
//! At most [`MOST_STRUCK`] candidates are struck. They are marked first, so a step is a look at a mark. The marks take
//! 64 KiB of the stack, and as much again while divisors are gone through.

ghost use Rattle.std.specs.Prelude.{◌≡◌, ◌<◌, ◌^◌, true, length};
ghost use Rattle.number_groups.specs.Group.{is_ready};
ghost use Rattle.js_numbers.specs.View.{group_of, cases_view};
ghost use Rattle.number_groups.specs.Outcome.{answer_among};
ghost use Rattle.js_numbers.specs.Marking.{AreStruckMarked};

use crate::candidates::{MOST_STRUCK, reach};
use crate::group::{Cases, NumGroup};
use crate::marks::mark_sets;
use crate::sieve::mark_divisors;

/// The answer among the multiples of `m`.
pub(crate) fn search(group: &NumGroup, m: u128) -> Cases
    requires ready { is_ready (group_of group.now) ≡ true }
    requires step { (0 < m) × (m < 2 ^ 127) }
    ensures { cases_view result ≡ answer_among MOST_STRUCK m (group_of group.now) }
{
    let mut struck = [false; MOST_STRUCK];
    mark_sets(group, m, &mut struck);
    mark_divisors(group, m, &mut struck);
    search_unmarked(group, m, &struck)
}

/// The answer among the multiples of `m`, where the candidates are marked that are struck.
fn search_unmarked(group: &NumGroup, m: u128, struck: &[bool]) -> Cases
    requires ready { is_ready (group_of group.now) ≡ true }
    requires step { (0 < m) × (m < 2 ^ 127) }
    requires size { length struck.now ≡ MOST_STRUCK }
    requires marks { AreStruckMarked MOST_STRUCK m (group_of group.now) struck.now }
    ensures { cases_view result ≡ answer_among MOST_STRUCK m (group_of group.now) }
{
    for k in 0..MOST_STRUCK {
        let x = match reach(group, m, k) {
            Ok(x) => x,
            Err(why) => return why,
        };
        if !struck[k] {
            return Cases::Found(x);
        }
    }
    match reach(group, m, MOST_STRUCK) {
        Ok(_) => Cases::LimitCandidates,
        Err(why) => why,
    }
}
