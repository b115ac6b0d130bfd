//! Tests of the calls of the low crates, and of what the search and the checker share: values from outside, one call of
//! each at least, and requests for memory that are refused.
//!
//! They are kept beside the crates that they test, as only what is public is tested: so no crate is proved once more
//! for its tests.
#![tactic(auto)]

#[cfg(test)]
mod algebra;
#[cfg(test)]
mod check_rows;
#[cfg(test)]
mod doc;
#[cfg(test)]
mod generated;
#[cfg(test)]
mod json_values;
#[cfg(test)]
mod keywords;
#[cfg(test)]
mod lines;
#[cfg(test)]
mod nfa;
#[cfg(test)]
mod outside;
#[cfg(test)]
mod pointers;
#[cfg(test)]
mod report;
#[cfg(test)]
mod row_words;
#[cfg(test)]
mod row_words_first;
#[cfg(test)]
mod tableau;
#[cfg(test)]
mod text;
#[cfg(test)]
mod words;
