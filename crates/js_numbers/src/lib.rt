//! Number groups decided exactly: the first whole number that meets bounds, divisors and sets, or that there is
//! none.
//!
//! [`decide`] answers by the definition `outcome` of `number_groups`. A number that it finds meets the group, and
//! it says `Empty` only where no whole number of any size does. No call takes memory, and no step overflows.
//!
//! Without required sets, the cost is a pass over the sets that are ruled out, a greatest common divisor for
//! each divisor that is ruled out, and a sieve of 65,536 candidates. With such sets it is binary searches, in
//! proportion to the values, but for three products: values that pass everything else times divisors that are ruled
//! out; all values times blocks, the values of the first set by 65,536 being a block; and how often a value is in
//! the first set times the required sets that have it.
#![tactic(auto)]

mod candidates;
mod decision;
mod factors;
mod group;
mod listed;
mod marks;
mod number;
mod search;
mod sieve;

pub use candidates::MOST_STRUCK;
pub use decision::decide;
pub use factors::{gcd, lcm};
pub use group::{Cases, NumGroup};
