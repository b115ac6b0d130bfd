//! The names of types, which the values of `type` have.

ghost use Rattle.std.specs.Prelude.{◌≡◌, chars, option_map};
ghost use Rattle.documents.specs.Tests.{same_word};
ghost use Rattle.schemas.specs.Entries.{type_named};
ghost use Rattle.js_keywords.specs.TypeView.{type_view};
ghost use Rattle.js_keywords.specs.Words.{type_word, type_from};

/// A name of `type`. Numbers are whole, so `integer` and `number` name one kind.
#[derive(Clone, Copy, PartialEq, Eq, Debug)]
pub enum TypeName {
    Null,
    Boolean,
    Object,
    Array,
    Number,
    Text,
    Integer,
}

const TYPES: [TypeName; 7] = [
    TypeName::Null,
    TypeName::Boolean,
    TypeName::Object,
    TypeName::Array,
    TypeName::Number,
    TypeName::Text,
    TypeName::Integer,
];

impl TypeName {
    /// The type that the word names, where it names one.
    #[tactic(auto, using(crate::proofs::WordsLemmas::type_lemmas))]
    pub fn of(word: &str) -> Option<TypeName>
        ensures { option_map type_view result ≡ type_named (chars word.now) }
    {
        first_type(&TYPES, word)
    }

    /// The word that schemas have.
    pub fn word(self) -> &'static str
        ensures { result.now ≡ type_word self }
    {
        match self {
            TypeName::Null => "null",
            TypeName::Boolean => "boolean",
            TypeName::Object => "object",
            TypeName::Array => "array",
            TypeName::Number => "number",
            TypeName::Text => "string",
            TypeName::Integer => "integer",
        }
    }
}

fn is_type(text: &str, name: TypeName) -> bool
    ensures { result ≡ same_word (chars text.now) (type_word name) }
{
    name.word() == text
}

fn first_type(types: &[TypeName], word: &str) -> Option<TypeName>
    ensures { result ≡ type_from types.now (chars word.now) }
{
    types.iter().copied().find(|name| is_type(word, *name))
}
