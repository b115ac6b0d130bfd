//! The answer for a group.

ghost use Rattle.std.specs.Prelude.{◌≡◌, ◌%◌, ◌==◌, true};
ghost use Rattle.std.specs.List.{list_any};
ghost use Rattle.number_groups.specs.Multiples.{lcm_of};
ghost use Rattle.number_groups.specs.Group.{is_ready};
ghost use Rattle.js_numbers.specs.View.{group_of, cases_view};
ghost use Rattle.number_groups.specs.Correct.{IsRight};
ghost use Rattle.number_groups.specs.Outcome.{answer_of_multiples, outcome};

use crate::candidates::MOST_STRUCK;
use crate::factors::lcm_of;
use crate::group::{Cases, NumGroup};
use crate::listed::search_values;
use crate::search::search;

/// The first number that meets the group, or that there is none, or which limit was passed on the way.
///
/// Bounds are at most 2^64 in size, divisors above 0. With required sets, the values of the first are tried;
/// without, at most 65,537 candidates.
pub fn decide(group: &NumGroup) -> Cases
    requires { is_ready (group_of group.now) ≡ true }
    ensures answer { cases_view result ≡ outcome MOST_STRUCK (group_of group.now) }
    ensures right { IsRight MOST_STRUCK (group_of group.now) (cases_view result) }
{
    if group.is_crossed() {
        return Cases::Empty;
    }
    match group.sets {
        [first, ..] => search_values(group, first),
        [] => decide_multiples(group),
    }
}

/// The answer where no set is required.
fn decide_multiples(group: &NumGroup) -> Cases
    requires { is_ready (group_of group.now) ≡ true }
    ensures { cases_view result
        ≡ answer_of_multiples MOST_STRUCK (lcm_of group.now.multiples.now) (group_of group.now) }
{
    match lcm_of(group.multiples) {
        Some(m) if is_all_struck(group, m) => Cases::Empty,
        Some(m) => search(group, m),
        None => Cases::LimitMultiples,
    }
}

/// Whether a divisor that is ruled out divides `m`, and so each of its multiples.
fn is_all_struck(group: &NumGroup, m: u128) -> bool
    ensures { result ≡ list_any (λ b. m % b == 0) group.now.not_multiples.now }
{
    group
        .not_multiples
        .iter()
        .any(|b| m.is_multiple_of(u128::from(*b)))
}
