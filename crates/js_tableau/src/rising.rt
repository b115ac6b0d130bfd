//! A rising list of signed positions as a set: a member is found by halving the list.

ghost use Rattle.std.specs.Prelude.{◌≡◌, map, true, nat_lt};
ghost use Rattle.goals.specs.Signed.{has, is_rising};
ghost use Rattle.js_algebra.specs.View.{signed_view};
ghost use Rattle.js_algebra.specs.Order.{order_of};

use crate::members::Members;
use js_algebra::Signed;

/// A list that is strictly rising by position with plus before minus.
#[derive(Clone, Copy)]
pub struct Rising<'a> {
    pub items: &'a [Signed],
}

impl Members for Rising<'_> {
    ghost use Rattle.std.specs.Prelude.{map};
    ghost use Rattle.goals.specs.Signed.{is_rising};
    ghost use Rattle.js_algebra.specs.View.{signed_view};

    ghost is_ready = { λ s. is_rising (map signed_view s.items.now) };

    ghost members = { λ s. map signed_view s.items.now };

    fn has(&self, x: Signed) -> bool {
        has_member(self.items, x)
    }
}

fn has_member(items: &[Signed], x: Signed) -> bool
    requires { is_rising (map signed_view items.now) ≡ true }
    ensures { result ≡ has (signed_view x) (map signed_view items.now) }
{
    let place = items.partition_point(
        |y: &Signed| -> bool
            ensures { result ≡ nat_lt (order_of (signed_view y.now)) (order_of (signed_view x)) }
        { y.order() < x.order() },
    );
    place < items.len() && items[place] == x
}
