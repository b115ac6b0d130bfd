//! A pattern with its text.

ghost use Rattle.std.specs.Prelude.{◌≡◌, true};
ghost use Rattle.js_pattern.specs.View.{view};
ghost use Rattle.js_schema.specs.TreeTests.{is_tree_of};

use js_doc::Str;
use js_pattern::Re;

/// A pattern: its text, and the tree that the text has.
#[derive(Drop)]
pub struct PatternText {
    source: Str,
    re: Re,
    ghost read: { is_tree_of source (view re) ≡ true },
}

#[tactic(auto, using(crate::proofs::TreeTestsLemmas::tree_tests))]
impl PatternText {
    ghost use Rattle.js_pattern.specs.Correct.{HasTree};
    ghost use Rattle.js_schema.specs.Patterns.{source_of};

    /// Takes both over. The text isn't parsed again: the caller promises that `re` is its tree.
    pub fn new(source: Str, re: Re) -> PatternText
        requires { HasTree source (view re) }
        ensures { source_of result ≡ source }
    {
        PatternText { source, re }
    }

    /// The text as it is in the schema, a regular expression without slashes around it.
    pub fn source(&self) -> &Str
        ensures { result.now ≡ source_of self.now }
    {
        &self.source
    }

    /// The tree by which the pattern matches.
    pub fn re(&self) -> &Re
        ensures { HasTree (source_of self.now) (view result.now) }
    {
        &self.re
    }
}
