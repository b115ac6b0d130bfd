//! The tree of a pattern, as contracts see it by `view`: a `Tree` of `patterns`.
//!
//! It takes memory in the length of the pattern. Dropping it recurs as deep as its nodes nest.

ghost use Rattle.std.specs.Prelude.{◌≡◌, map};

use crate::char_set::CharSet;

/// What a pattern requires of a word. Groups leave no node, and lists have at least two elements.
#[cycle(re)]
#[derive(Drop)]
pub enum Re {
    /// the empty word
    Empty,
    /// one character of a set
    Set(CharSet),
    /// the start of the word
    Start,
    /// the end of the word
    End,
    /// the trees of a list, one after another
    Seq(ReList),
    /// one of the trees of a list
    Alt(ReList),
    /// so often at least, and so often at most, if there is a second number
    Repeat(Box<Re>, u32, Option<u32>),
}

/// The trees of a sequence, or the alternatives.
#[cycle(re)]
#[derive(Drop)]
pub struct ReList {
    items: Vec<Re>,
}

impl ReList {
    ghost use Rattle.patterns.specs.Tree.{trees_of};
    ghost use Rattle.js_pattern.specs.declared.re.ReList.{out-ReList};
    ghost use Rattle.js_pattern.specs.View.{view, list_view};

    pub(crate) fn from_vec(items: Vec<Re>) -> Self
        ensures { list_view result ≡ trees_of (map view items.items) }
    {
        ReList { items }
    }

    /// The trees in order. `held` lets a recursion over them be seen to end.
    pub fn as_slice(&self) -> &[Re]
        ensures view { trees_of (map view result.now) ≡ list_view self.now }
        ensures held { result.now ≡ (out-ReList self.now).items.items }
    {
        &self.items
    }
}
