//! A file that is read as a schema: its whole value, and the identifier that it gives itself.
//!
//! References are resolved in it, in time in proportion to their text and a look-up for each token.

ghost use Rattle.std.specs.Prelude.{◌≡◌, Some, chars, option_map, IfOk};
ghost use Rattle.documents.specs.Place.{value_at};
ghost use Rattle.schemas.specs.Walk as W;
ghost use Rattle.schemas.specs.Walk.{root_id};
ghost use Rattle.js_doc.specs.JsonView.{view};
ghost use Rattle.js_json.specs.Reference as refers;
ghost use Rattle.js_json.specs.ReferentView.{place_told};

use crate::members::value_of;
use js_doc::{Json, Str};
use js_json::{RefFault, Referent, target};
use js_keywords::Keyword;
use std::alloc::Global;

/// A JSON value, with its `$id` where it has one that is a string.
#[derive(Drop)]
pub struct File<'a> {
    root: &'a Json,
    id: Option<&'a str>,
    ghost own: { option_map (λ w. chars w.now) id ≡ root_id (view root.now) },
}

impl<'a> File<'a> {
    ghost use Rattle.js_walk.specs.FileView.{root_of};

    /// Borrows the value and looks up its `$id`, once for all references that are resolved in it.
    pub fn new(root: &'a Json) -> File<'a>
        ensures { root_of result ≡ view root.now }
    {
        File {
            root,
            id: identifier(root),
        }
    }

    pub(crate) fn root(&self) -> &'a Json
        ensures { view result.now ≡ root_of self.now }
    {
        self.root
    }

    /// Where a reference leads.
    pub fn target(&self, alloc: Global, text: &Str) -> Result<Referent<'a>, RefFault>
        ensures place { refers.Answers
            (refers.target_of (root_of self.now) text.now (root_id (root_of self.now))) (place_told result) }
        ensures value { IfOk result (λ t. value_at t.place (root_of self.now) ≡ Some (view t.value.now)) }
    {
        target(alloc, self.root, text.as_text(), self.id)
    }
}

/// The root's `$id`, where it is a string.
fn identifier<'a>(root: &'a Json) -> Option<&'a str>
    ensures { option_map (λ w. chars w.now) result ≡ root_id (view root.now) }
{
    match root {
        Json::Members(members) => word_of(value_of(members, Keyword::Id)),
        _ => None,
    }
}

fn word_of<'a>(value: Option<&'a Json>) -> Option<&'a str>
    ensures { option_map (λ w. chars w.now) result ≡ W.word_of (option_map (λ j. view j.now) value.entry) }
{
    match value {
        Some(Json::Text(word)) => Some(word.as_text()),
        _ => None,
    }
}
