//! Atoms, as states go on by them.

use crate::word_list::WordList;

/// An atom. A pattern is kept apart, at that place.
#[derive(Drop)]
pub(crate) enum Part {
    Match(usize),
    Words(WordList),
    Length(u128),
}
