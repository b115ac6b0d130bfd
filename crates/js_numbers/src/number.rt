//! Tests of one whole number, each equal to its definition.

ghost use Rattle.std.specs.Prelude.{◌≡◌};
ghost use Rattle.number_groups.specs.Multiples.{is_multiple};
ghost use Rattle.js_doc.specs.Numbers.{has};
ghost use Rattle.number_groups.specs.Group.{is_above, is_below};
ghost use Rattle.js_numbers.specs.View.{lists_of};
ghost use Rattle.std.specs.List.{list_all, list_any};

use js_doc::NumList;

fn is_multiple(x: i128, m: u64) -> bool
    ensures { result ≡ is_multiple m x }
{
    x.unsigned_abs().is_multiple_of(u128::from(m))
}

/// Whether `x` is the bound or above it. Every number is above a bound that isn't there.
pub fn is_above(low: Option<i128>, x: i128) -> bool
    ensures { result ≡ is_above low x }
{
    match low {
        Some(low) => low <= x,
        None => true,
    }
}

/// Whether `x` is the bound or below it. Every number is below a bound that isn't there.
pub fn is_below(high: Option<i128>, x: i128) -> bool
    ensures { result ≡ is_below high x }
{
    match high {
        Some(high) => x <= high,
        None => true,
    }
}

/// Whether each of the divisors divides `x`.
pub fn divides_all(divisors: &[u64], x: i128) -> bool
    ensures { result ≡ list_all (λ m. is_multiple m x) divisors.now }
{
    divisors.iter().all(|m| is_multiple(x, *m))
}

/// Whether one of the divisors divides `x`; a size that fits 64 bits is divided as such, which is several times faster.
pub fn divides_any(divisors: &[u64], x: i128) -> bool
    ensures { result ≡ list_any (λ m. is_multiple m x) divisors.now }
{
    match u64::try_from(x.unsigned_abs()) {
        Ok(size) => divisors.iter().any(|m| size.is_multiple_of(*m)),
        Err(_) => divisors.iter().any(|m| is_multiple(x, *m)),
    }
}

/// Whether each of the sets has `x`.
pub fn all_have(sets: &[&NumList], x: i128) -> bool
    ensures { result ≡ list_all (λ s. has s x) (lists_of sets.now) }
{
    sets.iter().all(|set| set.has(x))
}

/// Whether one of the sets has `x`.
pub fn any_has(sets: &[&NumList], x: i128) -> bool
    ensures { result ≡ list_any (λ s. has s x) (lists_of sets.now) }
{
    sets.iter().any(|set| set.has(x))
}
