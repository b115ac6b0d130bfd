//! Explored goals, rounds of satisfied goals, and the document of a goal. Definitions alone.
#![tactic(auto)]
