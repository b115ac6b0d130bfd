//! Signed positions: conditions that are to hold, or not to hold.

ghost use Rattle.std.specs.Prelude.{◌≡◌, ◌<◌, ◌^◌};

use crate::node::Pos;

/// A position that is to hold (`plus`), or not to hold.
#[derive(Clone, Copy, PartialEq, Eq, Hash, Debug)]
pub struct Signed {
    pub pos: Pos,
    pub plus: bool,
}

impl Signed {
    ghost use Rattle.goals.specs.Signed as S;
    ghost use Rattle.js_algebra.specs.View.{signed_view};
    ghost use Rattle.js_algebra.specs.Ends.{signed_by};
    ghost use Rattle.js_algebra.specs.Order.{order_of};
    ghost use Rattle.js_algebra.specs.Numbers.{signed_at};

    /// The signed position that says that `pos` holds.
    pub fn plus(pos: Pos) -> Signed
        ensures { signed_view result ≡ S.Plus pos.0 }
    {
        Signed { pos, plus: true }
    }

    /// That the position does not hold.
    pub fn minus(pos: Pos) -> Signed
        ensures { signed_view result ≡ S.Minus pos.0 }
    {
        Signed { pos, plus: false }
    }

    /// The position with the other sign: each document meets exactly one of the two.
    pub fn opposite(self) -> Signed
        ensures { signed_view result ≡ S.opposite (signed_view self) }
    {
        Signed {
            pos: self.pos,
            plus: !self.plus,
        }
    }

    /// Itself with plus, and its opposite with minus.
    pub(crate) fn signed_by(self, plus: bool) -> Signed
        ensures { signed_view result ≡ signed_by plus (signed_view self) }
    {
        Signed {
            pos: self.pos,
            plus: self.plus == plus,
        }
    }

    /// Its number where all signed positions are counted in their order, plus before minus: `+0`, `-0`, `+1`, ...
    pub fn order(self) -> u64
        ensures value { result ≡ order_of (signed_view self) }
        ensures bound { result < 2 ^ 33 }
    {
        2 * u64::from(self.pos.0) + u64::from(!self.plus)
    }

    /// The signed position of that number.
    pub fn from_order(number: u64) -> Signed
        requires { number < 2 ^ 33 }
        ensures { signed_view result ≡ signed_at number }
    {
        Signed {
            pos: Pos((number / 2) as u32),
            plus: number % 2 == 0,
        }
    }
}
