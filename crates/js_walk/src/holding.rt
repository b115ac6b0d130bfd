//! Where schemas lie in the value of a keyword.
//!
//! The walk and the weights stand on it, each by one look at each member of an object.

ghost use Rattle.std.specs.Prelude.{◌≡◌, Some, option_map};
ghost use Rattle.js_keywords.specs.Member.{shape_given};
ghost use Rattle.js_walk.specs.Holding.{holding_of, read_holding};

use js_doc::Str;
use js_keywords::Keyword;

/// What the value of a keyword holds: no schema, itself as one, or schemas within.
#[derive(Clone, Copy)]
pub(crate) enum Holding {
    Nothing,
    One,
    OneOrList,
    List,
    Map,
    Needs,
}

/// What the value of a keyword holds, where the keyword is one that is read here: `$id` and `$ref` aren't, and
/// `additionalItems` is only beside `items` that is a list.
fn keyword_holding(listed: bool, keyword: Keyword) -> Option<Holding>
    ensures { result ≡ option_map holding_of (shape_given listed (Some keyword)) }
{
    match keyword {
        Keyword::Id | Keyword::Ref => None,
        Keyword::AdditionalItems if !listed => None,
        Keyword::AdditionalItems
        | Keyword::AdditionalProperties
        | Keyword::Contains
        | Keyword::Not
        | Keyword::PropertyNames => Some(Holding::One),
        Keyword::Items => Some(Holding::OneOrList),
        Keyword::AllOf | Keyword::AnyOf | Keyword::OneOf => Some(Holding::List),
        Keyword::PatternProperties | Keyword::Properties => Some(Holding::Map),
        Keyword::Dependencies => Some(Holding::Needs),
        _ => Some(Holding::Nothing),
    }
}

/// What the value of the member of that name holds, in an object whose `items` is a list or isn't.
pub(crate) fn member_holding(listed: bool, name: &Str) -> Option<Holding>
    ensures { result ≡ read_holding listed name.now }
{
    match Keyword::of(name.as_text()) {
        None => None,
        Some(keyword) => keyword_holding(listed, keyword),
    }
}
