//! Tests of the top call over files and sinks in memory: which report is written, and which status comes with it.
//!
//! Nothing here is called by other crates. The wanted texts are worked cases of the formats in `docs/formats.md`.
#![tactic(auto)]

#[cfg(test)]
mod answers;
#[cfg(test)]
mod checking;
#[cfg(test)]
mod faults;
#[cfg(test)]
mod generating;
#[cfg(test)]
mod judging;
#[cfg(test)]
mod large;
#[cfg(test)]
mod limits;
#[cfg(test)]
mod listing;
#[cfg(test)]
mod objects;
#[cfg(test)]
mod satisfying;
#[cfg(test)]
mod setting;
#[cfg(test)]
mod workers;
