//! Atoms: conditions on a word that it decides by itself.

use js_doc::StrList;
use js_pattern::Re;

/// A question that a word answers by itself. Contracts see it by `atom_view`.
#[derive(Drop)]
pub enum Atom {
    /// The pattern matches somewhere in the word.
    Match(Re),
    /// The word is one of these.
    Words(StrList),
    /// The word has so many characters at least.
    LengthMin(u128),
}
