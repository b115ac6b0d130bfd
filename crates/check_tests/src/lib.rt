//! Tests of the checker's public calls, and of the threads that it requests.
//!
//! They are kept beside the crates that they test, as only what is public is tested: so it isn't proved once more for
//! its tests.
#![tactic(auto)]

#[cfg(test)]
mod entries;
