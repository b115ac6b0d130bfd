//! The names with which files were begun, for proofs alone.
//!
//! A record of them takes no memory, and its calls do nothing at run time. What is generic over shelves can't set one:
//! to it the names change in a call of `begin` alone.

ghost use Rattle.std.specs.Prelude.{◌≡◌, ℕ, List, [], ◌∷◌, ◌++◌};
ghost use Rattle.std.specs.Borrow.{ftrue};

use std::marker::Model;

/// The name of a file.
#[derive(Clone, Copy, Drop)]
pub(crate) struct Name<'a> {
    text: &'a str,
}

/// Names in their order, which only proofs read. A shelf of one's own keeps one.
#[derive(Drop)]
pub struct BegunNames {
    pub ghost names: { List (List ℕ) },
}

impl Model for BegunNames {
    ghost also_owns = { λ _. ftrue };
}

impl BegunNames {
    /// No names, as a shelf has them before its first call of `begin`.
    pub fn new() -> BegunNames
        ensures { result.names ≡ [] }
    {
        BegunNames {}
    }

    /// These names and one more.
    pub fn and(&self, name: &str) -> BegunNames
        ensures { result.names ≡ self.now.names ++ name.now ∷ [] }
    {
        self.and_name(&Name { text: name })
    }

    fn and_name(&self, _name: &Name<'_>) -> BegunNames
        ensures { result.names ≡ self.now.names ++ _name.now.text.now ∷ [] }
    {
        BegunNames {}
    }
}
