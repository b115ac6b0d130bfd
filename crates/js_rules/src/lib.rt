//! The rules that a line of a certificate can break.
//!
//! What judges lines answers a rule where one is broken; the number of a rule is what is printed.
#![tactic(auto)]

mod fault;
mod rule;

pub use fault::RuleFault;
pub use rule::Rule;
