//! Greatest common divisors and least common multiples, up to 2^127-1.
//!
//! Euclid's remainders; the number of steps grows with the digits of the smaller number.

ghost use Rattle.std.specs.Prelude.{◌≡◌, ◌<◌, ◌+◌, ◌^◌, [], ◌∷◌, nat_lt, true, SomeIff, IfSome};
ghost use Rattle.std.specs.Int.{IsGcd};
ghost use Rattle.std.specs.List.{list_all};
ghost use Rattle.number_groups.specs.Multiples.{IsLcm, lcm_of};

/// The greatest common divisor of two numbers that aren't both 0.
pub fn gcd(a: u128, b: u128) -> u128
    requires { 0 < a + b }
    ensures { IsGcd a b result }
{
    let mut x = a;
    let mut y = b;
    while y != 0 {
        let rest = x % y;
        x = y;
        y = rest;
    }
    x
}

/// The least common multiple; `None` exactly where it is over 2^127-1.
pub fn lcm(a: u128, b: u128) -> Option<u128>
    requires first { (0 < a) × (a < 2 ^ 127) }
    requires second { (0 < b) × (b < 2 ^ 127) }

    ensures value { SomeIff result (lcm_of (a ∷ b ∷ []) < 2 ^ 127) (lcm_of (a ∷ b ∷ [])) }
    ensures least { IfSome result (IsLcm a b) }
{
    let common = (a / gcd(a, b)).checked_mul(b)?;
    if common < 1 << 127 {
        Some(common)
    } else {
        None
    }
}

/// The least common multiple of a list, 1 without any; `None` exactly where it is over 2^127-1.
pub(crate) fn lcm_of(multiples: &[u64]) -> Option<u128>
    requires { list_all (λ m. nat_lt 0 m) multiples.now ≡ true }
    ensures { SomeIff result (lcm_of multiples.now < 2 ^ 127) (lcm_of multiples.now) }
{
    let mut common = 1;
    for m in multiples {
        common = lcm(common, u128::from(*m))?;
    }
    Some(common)
}
