//! Looking up a member by its name.
//!
//! The answer is the definition's `lookup`. It takes no memory, and a binary search.

ghost use Rattle.std.specs.Prelude.{◌≡◌, option_map, chars};
ghost use Rattle.documents.specs.Json.{lookup};
ghost use Rattle.js_doc.specs.JsonView.{view, map_view};

use js_doc::{Json, JsonMap};

/// The value of the member of that name, where there is one. Logarithmic in the number of members.
pub fn member<'a>(map: &'a JsonMap, name: &str) -> Option<&'a Json>
    ensures { option_map (λ j. view j.now) result ≡ lookup (chars name.now) (map_view map.now) }
{
    map.get(name)
}
