//! The values of an object's keywords.
//!
//! A look-up is a binary search among the names.

ghost use Rattle.std.specs.Prelude.{◌≡◌, Some, codes, option_map};
ghost use Rattle.documents.specs.Json.{lookup};
ghost use Rattle.schemas.specs.Keyword as K;
ghost use Rattle.js_doc.specs.JsonView.{view, map_view};
ghost use Rattle.js_keywords.specs.Names.{keyword_name};

use js_doc::{Json, JsonMap};
use js_keywords::Keyword;

/// The value of the keyword, where the object has it.
#[tactic(auto, using(crate::proofs::MembersLemmas::keyword_names))]
pub fn value_of<'a>(members: &'a JsonMap, keyword: Keyword) -> Option<&'a Json>
    ensures { option_map (λ j. view j.now) result ≡ lookup (keyword_name keyword) (map_view members.now) }
{
    members.get(keyword.name())
}

fn is_list(value: &Json) -> bool
    ensures { result ≡ K.is_list (Some (view value.now)) }
{
    match value {
        Json::List(_) => true,
        _ => false,
    }
}

/// Whether `items` is a list.
pub(crate) fn has_list(members: &JsonMap) -> bool
    ensures { result ≡ K.is_list (lookup (codes "items") (map_view members.now)) }
{
    match value_of(members, Keyword::Items) {
        Some(value) => is_list(value),
        None => false,
    }
}
