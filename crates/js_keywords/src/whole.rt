//! The first number in a value that isn't whole, in the order of elements and of names.
//!
//! One look at each value. A token of the pointer is made on the way down to each value, and taken away after it.

ghost use Rattle.std.specs.Prelude.{◌≡◌, ◌++◌, ◌∷◌, [], OnOk};
ghost use Rattle.schemas.specs.Places.{index_token};
ghost use Rattle.schemas.specs.Fault as F;
ghost use Rattle.js_doc.specs.JsonView.{view, list_view, map_view};
ghost use Rattle.js_keywords.specs.FaultView.{Finds};

use js_doc::{Json, JsonList, JsonMap, Memory};
use js_json::Pointer;

/// Whether a number in the value at `place` isn't whole. Then `place` leads to the first such number, and else it is as
/// it was.
#[cycle(find)]
pub(crate) fn find_not_whole(place: &mut Pointer, value: &Json) -> Result<bool, Memory>
    ensures { Finds (F.first_not_whole place.old (view value.now)) place.old place.new result }
{
    match value {
        Json::NotWhole => Ok(true),
        Json::List(items) => find_among(place, items),
        Json::Members(members) => find_in(place, members),
        _ => Ok(false),
    }
}

#[cycle(find)]
fn find_among(place: &mut Pointer, items: &JsonList) -> Result<bool, Memory>
    ensures { Finds (F.not_whole_among place.old 0 (list_view items.now)) place.old place.new result }
{
    let items = items.as_slice();
    for (i, item) in items.iter().enumerate() {
        enter(place, i)?;
        if find_not_whole(place, item)? {
            return Ok(true);
        }
        place.pop();
    }
    Ok(false)
}

#[cycle(find)]
fn find_in(place: &mut Pointer, members: &JsonMap) -> Result<bool, Memory>
    ensures { Finds (F.not_whole_in place.old (map_view members.now)) place.old place.new result }
{
    let members = members.as_slice();
    for member in members {
        place.push_name(member.name().as_text())?;
        if find_not_whole(place, member.value())? {
            return Ok(true);
        }
        place.pop();
    }
    Ok(false)
}

/// Goes down to the element at `index`.
#[tactic(auto, using(crate::proofs::WordsLemmas::index_tokens))]
fn enter(place: &mut Pointer, index: usize) -> Result<(), Memory>
    ensures { OnOk result (place.new ≡ place.old ++ index_token index ∷ []) }
{
    place.push_index(index)
}
