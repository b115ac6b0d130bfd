//! The certificate of explored goals that no round has, as bytes.
//!
//! Goals are listed in order of first citation, the root first. What the lines of a listed goal cite is listed while
//! they are written, each by its place in the list; so the lines of one goal are held at a time, and the text of all.
#![tactic(auto)]

mod entries;
mod lines;
mod listing;
mod refutation;
mod unmet;

pub use refutation::{no_goal, refute};
