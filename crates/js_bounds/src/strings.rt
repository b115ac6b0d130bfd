//! How many characters a literal requires.

ghost use Rattle.std.specs.Prelude.{◌≡◌, ◌≤◌, ◌^◌, true};
ghost use Rattle.finders.specs.Strings as S;
ghost use Rattle.js_algebra.specs.View.{signed_view, is_in_table};

use js_algebra::{Core, Node, Signed};

/// At least so many.
pub(crate) fn lower_at(core: &Core, x: Signed) -> u128
    requires { is_in_table core.now.positions (signed_view x) ≡ true }
    ensures value { result ≡ S.lower_at core.now.positions (signed_view x) }
    ensures few { result ≤ 2 ^ 64 }
{
    match (core.node(x.pos), x.plus) {
        (Node::LengthMin(n), true) => u128::from(*n),
        (Node::LengthMax(n), false) => u128::from(*n) + 1,
        _ => 0,
    }
}

/// Fewer than so many, where there is such a bound.
pub(crate) fn below_at(core: &Core, x: Signed) -> Option<u128>
    requires { is_in_table core.now.positions (signed_view x) ≡ true }
    ensures { result ≡ S.below_at core.now.positions (signed_view x) }
{
    match (core.node(x.pos), x.plus) {
        (Node::LengthMax(n), true) => Some(u128::from(*n) + 1),
        (Node::LengthMin(n), false) => Some(u128::from(*n)),
        _ => None,
    }
}
