//! What is required of each element of a list in a keyword's value.

ghost use Rattle.std.specs.Prelude.{◌≡◌};
ghost use Rattle.js_doc.specs.JsonView.{view, list_view};

use crate::type_name::TypeName;
use js_doc::{Json, JsonList};

/// A test of an element: whether it is a text, or one that names a type.
#[derive(Clone, Copy)]
pub(crate) enum ElementTest {
    Text,
    TypeWord,
}

impl ElementTest {
    ghost use Rattle.js_keywords.specs.Failing.{failing, passes};

    #[tactic(auto, using(crate::proofs::WordsLemmas::type_tests))]
    pub(crate) fn passes(self, value: &Json) -> bool
        ensures { result ≡ passes self (view value.now) }
    {
        match (self, value) {
            (ElementTest::Text, Json::Text(_)) => true,
            (ElementTest::TypeWord, Json::Text(word)) => TypeName::of(word.as_text()).is_some(),
            _ => false,
        }
    }

    /// The number of the first element that doesn't pass.
    pub(crate) fn first_failing(self, items: &JsonList) -> Option<usize>
        ensures { result ≡ failing (passes self) 0 (list_view items.now) }
    {
        items.as_slice().iter().position(|item| !self.passes(item))
    }
}
