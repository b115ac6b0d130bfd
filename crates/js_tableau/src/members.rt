//! Whether a choice of a signed position is in a set, by looking up signed positions in the set.

ghost use Rattle.std.specs.Prelude.{◌≡◌, [], ◌∷◌, List, Bool, map, true};
ghost use Rattle.documents.specs.Tests.{every, some};
ghost use Rattle.goals.specs.Signed as G;
ghost use Rattle.goals.specs.Signed.{has};
ghost use Rattle.goals.specs.Choices.{choices, one_plus, two_plus};
ghost use Rattle.goals.specs.Tree.{has_choice};
ghost use Rattle.js_algebra.specs.View.{signed_view, kind_view, with_sign, places, is_in_table};

use js_algebra::{Core, JsonKind, Pos, Rule, Signed, SignedSet};

/// A set of signed positions.
pub trait Members {
    // Whether `has` may be called yet.
    ghost is_ready: { Self → Bool };

    // The signed positions of the set.
    ghost members: { Self → List G.Signed };

    fn has(&self, x: Signed) -> bool
        requires { is_ready self.now ≡ true }
        ensures { result ≡ has (signed_view x) (members self.now) };
}

impl Members for SignedSet {
    ghost use Rattle.std.specs.Prelude.{true};

    ghost is_ready = { λ s. true };

    ghost members = { λ s. s };

    fn has(&self, x: Signed) -> bool {
        self.has(x)
    }
}

/// Whether a choice of `x` is in the set, or it has none to take.
pub fn has_choice<S: Members>(set: &S, core: &Core, kind: JsonKind, x: Signed) -> bool
    requires in_table { is_in_table core.now.positions (signed_view x) ≡ true }
    requires ready { S.is_ready set.now ≡ true }
    ensures { result ≡ has_choice (S.members set.now)
        (choices core.now.positions (kind_view kind) (signed_view x)) }
{
    match core.rule(x, kind) {
        Rule::Literal => true,
        Rule::Together(positions, plus) => has_all(set, positions, plus),
        Rule::Apart(positions, plus) => has_any(set, positions, plus),
        Rule::ExactlyOne(positions) => has_one(set, positions),
        Rule::NotExactlyOne(positions) => {
            has_all(set, positions, false) || has_two(set, positions)
        }
        Rule::Both(a, b) => set.has(a) && set.has(b),
        Rule::Either(a, b) => set.has(a) || set.has(b),
    }
}

fn has_all<S: Members>(set: &S, positions: &[Pos], plus: bool) -> bool
    requires { S.is_ready set.now ≡ true }
    ensures { result ≡ every (λ x. has x (S.members set.now)) (map (with_sign plus) (places positions.now)) }
{
    positions.iter().all(|p| set.has(Signed { pos: *p, plus }))
}

fn has_any<S: Members>(set: &S, positions: &[Pos], plus: bool) -> bool
    requires { S.is_ready set.now ≡ true }
    ensures { result ≡ some (λ C. every (λ x. has x (S.members set.now)) C)
        (map (λ q. with_sign plus q ∷ []) (places positions.now)) }
{
    positions.iter().any(|p| set.has(Signed { pos: *p, plus }))
}

/// Whether one of the positions is in the set with plus and each other one with minus.
fn has_one<S: Members>(set: &S, positions: &[Pos]) -> bool
    requires { S.is_ready set.now ≡ true }
    ensures { result ≡ some (λ C. every (λ x. has x (S.members set.now)) C) (one_plus (places positions.now)) }
{
    let mut none_yet = true;
    let mut one = false;
    for p in positions {
        let is_in = set.has(Signed::plus(*p));
        let is_out = set.has(Signed::minus(*p));
        one = (one & is_out) | (none_yet & is_in);
        none_yet &= is_out;
    }
    one
}

/// Whether two of the positions are in the set with plus.
fn has_two<S: Members>(set: &S, positions: &[Pos]) -> bool
    requires { S.is_ready set.now ≡ true }
    ensures { result ≡ some (λ C. every (λ x. has x (S.members set.now)) C) (two_plus (places positions.now)) }
{
    let mut one = false;
    let mut two = false;
    for p in positions {
        let is_in = set.has(Signed::plus(*p));
        two |= one & is_in;
        one |= is_in;
    }
    two
}
