//! The positions of a pattern: how many there are, sets of them, and the walks over the pattern's tree that say where a
//! match can end and which positions read the next character.
//!
//! The positions are those of the position automaton (V. M. Glushkov, 1961): one for each set of characters in the
//! tree, as often as it is copied. A walk goes through the tree in their order, and stores nothing but the set that it
//! fills.
#![tactic(auto)]

mod choices;
mod count;
mod done;
mod ends;
mod options;
mod position_set;
mod reads_next;
mod runs;

pub use count::{MOST, count_positions};
pub use done::{done_from, read_all};
pub use ends::{Edges, Passed, ends_here, tree_ends};
pub use position_set::PositionSet;
pub use reads_next::{Next, advance, advance_tree};
