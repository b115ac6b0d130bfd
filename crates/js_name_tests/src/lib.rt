//! What the literals of a set that speak of names require of members.
//!
//! Of the names of a cell the literals say the same, so what they require of members is kept as tests by the literals'
//! numbers: which names may not be there, which may serve what some member has to, and what holds of the values of
//! which names.
#![tactic(auto)]

mod literals;

pub use literals::{Demands, NameTest, ValueTest, asked_of_server, bars_of, demands_of, values_of};
