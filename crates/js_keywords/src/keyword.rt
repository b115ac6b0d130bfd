//! The keywords of draft-06, with the two names that lead beyond a schema, `$id` and `$ref`.

ghost use Rattle.std.specs.Prelude.{◌≡◌, chars};
ghost use Rattle.documents.specs.Tests.{same_word};
ghost use Rattle.js_keywords.specs.Names.{keyword_name};
ghost use Rattle.js_keywords.specs.Words.{keyword_in, keyword_of};

/// A keyword, which faults name.
#[derive(Clone, Copy, Debug, PartialEq, Eq)]
pub enum Keyword {
    Id,
    Ref,
    AdditionalItems,
    AdditionalProperties,
    AllOf,
    AnyOf,
    Const,
    Contains,
    Dependencies,
    Enum,
    ExclusiveMaximum,
    ExclusiveMinimum,
    Items,
    MaxItems,
    MaxLength,
    MaxProperties,
    Maximum,
    MinItems,
    MinLength,
    MinProperties,
    Minimum,
    MultipleOf,
    Not,
    OneOf,
    Pattern,
    PatternProperties,
    Properties,
    PropertyNames,
    Required,
    Type,
    UniqueItems,
}

/// All keywords, in the order of the enum.
const KEYWORDS: [Keyword; 31] = [
    Keyword::Id,
    Keyword::Ref,
    Keyword::AdditionalItems,
    Keyword::AdditionalProperties,
    Keyword::AllOf,
    Keyword::AnyOf,
    Keyword::Const,
    Keyword::Contains,
    Keyword::Dependencies,
    Keyword::Enum,
    Keyword::ExclusiveMaximum,
    Keyword::ExclusiveMinimum,
    Keyword::Items,
    Keyword::MaxItems,
    Keyword::MaxLength,
    Keyword::MaxProperties,
    Keyword::Maximum,
    Keyword::MinItems,
    Keyword::MinLength,
    Keyword::MinProperties,
    Keyword::Minimum,
    Keyword::MultipleOf,
    Keyword::Not,
    Keyword::OneOf,
    Keyword::Pattern,
    Keyword::PatternProperties,
    Keyword::Properties,
    Keyword::PropertyNames,
    Keyword::Required,
    Keyword::Type,
    Keyword::UniqueItems,
];

impl Keyword {
    /// The keyword of that name, where there is one. It looks at one keyword after another.
    #[tactic(auto, unfolding(crate::specs::Words::keyword_of))]
    pub fn of(name: &str) -> Option<Keyword>
        ensures { result ≡ keyword_of (chars name.now) }
    {
        first_named(&KEYWORDS, name)
    }

    /// The name that schemas and reports have.
    pub fn name(self) -> &'static str
        ensures { result.now ≡ keyword_name self }
    {
        match self {
            Keyword::Id => "$id",
            Keyword::Ref => "$ref",
            Keyword::AdditionalItems => "additionalItems",
            Keyword::AdditionalProperties => "additionalProperties",
            Keyword::AllOf => "allOf",
            Keyword::AnyOf => "anyOf",
            Keyword::Const => "const",
            Keyword::Contains => "contains",
            Keyword::Dependencies => "dependencies",
            Keyword::Enum => "enum",
            Keyword::ExclusiveMaximum => "exclusiveMaximum",
            Keyword::ExclusiveMinimum => "exclusiveMinimum",
            Keyword::Items => "items",
            Keyword::MaxItems => "maxItems",
            Keyword::MaxLength => "maxLength",
            Keyword::MaxProperties => "maxProperties",
            Keyword::Maximum => "maximum",
            Keyword::MinItems => "minItems",
            Keyword::MinLength => "minLength",
            Keyword::MinProperties => "minProperties",
            Keyword::Minimum => "minimum",
            Keyword::MultipleOf => "multipleOf",
            Keyword::Not => "not",
            Keyword::OneOf => "oneOf",
            Keyword::Pattern => "pattern",
            Keyword::PatternProperties => "patternProperties",
            Keyword::Properties => "properties",
            Keyword::PropertyNames => "propertyNames",
            Keyword::Required => "required",
            Keyword::Type => "type",
            Keyword::UniqueItems => "uniqueItems",
        }
    }
}

fn is_name(text: &str, keyword: Keyword) -> bool
    ensures { result ≡ same_word (chars text.now) (keyword_name keyword) }
{
    keyword.name() == text
}

fn first_named(keywords: &[Keyword], name: &str) -> Option<Keyword>
    ensures { result ≡ keyword_in keywords.now (chars name.now) }
{
    keywords
        .iter()
        .copied()
        .find(|keyword| is_name(name, *keyword))
}
