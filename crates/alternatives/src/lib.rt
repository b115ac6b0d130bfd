//! Alternatives of a goal, and expansions with the limits that cut them: plain data, and what is counted of it.
//! Definitions alone.
#![tactic(auto)]
