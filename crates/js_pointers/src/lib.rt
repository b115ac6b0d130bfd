//! Pointers of places, by number: a table where each pointer is an earlier one with one more token.
//!
//! A pointer takes two numbers, however long it is: that of the pointer from which it goes on, and that of its last
//! token. `Tokens` numbers the tokens, and `Steps` the pairs, in the order in which they were added. The tokens of a
//! list's elements are their indices, which are mostly added one after another, so for each pointer a block says where
//! they stand: they are found and added by looks at lists alone. Other steps, and names, stand in maps by order, in
//! which no file can make a look-up slow. The walk of a schema, `js_walk`, stands on this crate, and so do a schema's
//! table, `js_schema`, and its reader, `js_reader`.
#![tactic(auto)]

mod blocks;
mod places;
mod pointers;
mod steps;
mod tokens;

pub use pointers::Pointers;
pub use steps::Steps;
pub use tokens::{Token, Tokens};
