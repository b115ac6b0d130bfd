//! The state of a word, which is a key of a table: it is compared and hashed by what is kept, and not by how it is
//! stored.

use js_nfa::PatternState;

/// What is kept of a word for a list of atoms: whether it is empty, its state for each pattern, its node among the
/// beginnings of listed words where it has one, and its length, as far as an atom requires it.
#[derive(PartialEq, Eq, Hash, Drop)]
pub struct TupleState {
    pub(crate) is_empty: bool,
    pub(crate) patterns: Vec<PatternState>,
    pub(crate) node: Option<usize>,
    pub(crate) length: u128,
}
