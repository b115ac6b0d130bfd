//! The alternatives of a goal, with its limits, and the documents that they come to. Definitions alone.
#![tactic(auto)]
