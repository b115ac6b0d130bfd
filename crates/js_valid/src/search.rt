//! Look-ups of names: binary searches, since the members of objects and of `properties` are in the order of their
//! names.

ghost use Rattle.std.specs.Prelude.{◌≡◌, true, map, chars};
ghost use Rattle.documents.specs.Tests.{same_word};
ghost use Rattle.documents.specs.Document.{entries};
ghost use Rattle.documents.specs.Measures.{has_name};
ghost use Rattle.js_doc.specs.View.{map_view};
ghost use Rattle.schemas.specs.Schema.{lists, one, are_keys};
ghost use Rattle.js_schema.specs.View.{property_view};
ghost use Rattle.js_valid.specs.Parts.{of_named};

use js_doc::{DocMap, Str};
use js_schema::PropertyList;
use std::cmp::Ordering;

/// The entry of the property with that name. Time in the logarithm of the number of properties.
pub(crate) fn property_entry(list: &PropertyList, name: &str) -> Option<u32>
    requires { are_keys (map property_view list.now) ≡ true }
    ensures { lists one result ≡ of_named (λ n. same_word n (chars name.now)) (map property_view list.now) }
{
    let properties = list.as_slice();
    let mut low = 0;
    let mut high = properties.len();
    while low < high {
        let middle = low + (high - low) / 2;
        let property = &properties[middle];
        match property.name.as_text().cmp(name) {
            Ordering::Equal => return Some(property.entry),
            Ordering::Less => low = middle + 1,
            Ordering::Greater => high = middle,
        }
    }
    None
}

/// Whether there is a member of that name.
pub(crate) fn has_member(members: &DocMap, name: &Str) -> bool
    ensures { result ≡ has_name name.now (entries (map_view members.now)) }
{
    members.get(name.as_text()).is_some()
}
