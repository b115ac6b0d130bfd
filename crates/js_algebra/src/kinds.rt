//! The kinds of document in order, and their words.

ghost use Rattle.std.specs.Prelude.{◌≡◌};
ghost use Rattle.documents.specs.KindWords.{kind_word};
ghost use Rattle.js_algebra.specs.View.{kind_view};

use crate::node::JsonKind;

impl JsonKind {
    /// The six kinds, in the order in which they are always taken.
    pub const ALL: [JsonKind; 6] = [
        JsonKind::Null,
        JsonKind::Boolean,
        JsonKind::Number,
        JsonKind::Text,
        JsonKind::Array,
        JsonKind::Object,
    ];

    /// The word that the keyword `type` has for it.
    pub fn as_word(self) -> &'static str
        ensures { result.now ≡ kind_word (kind_view self) }
    {
        match self {
            JsonKind::Null => "null",
            JsonKind::Boolean => "boolean",
            JsonKind::Number => "number",
            JsonKind::Text => "string",
            JsonKind::Array => "array",
            JsonKind::Object => "object",
        }
    }
}
