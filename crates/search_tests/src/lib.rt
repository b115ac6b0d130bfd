//! Tests of the leaves of the search, of expansions, rounds and decisions, with small expanders of their own.
//!
//! They are kept beside the crates that they test, as only what is public is tested: so no crate is proved once more
//! for its tests.
#![tactic(auto)]

#[cfg(test)]
mod arrays;
#[cfg(test)]
mod decide;
#[cfg(test)]
mod expander;
#[cfg(test)]
mod expansion;
#[cfg(test)]
mod name_cells;
#[cfg(test)]
mod objects;
#[cfg(test)]
mod refutation;
#[cfg(test)]
mod rounds;
#[cfg(test)]
mod scalars;
#[cfg(test)]
mod strings;
