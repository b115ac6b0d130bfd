//! JSON values made into documents.
//!
//! A document is the value itself, where each number in it is whole; else the first number that isn't is reported. It
//! takes memory and time in proportion to the value, and nests as deep. What reads documents stands on it.

ghost use Rattle.std.specs.Prelude.{◌≡◌, ◌≢◌, ◌∷◌, ◌++◌, [], ℕ, List, IfOk, OnOk, Err, Some, map, decimal, slice_get};
ghost use Rattle.js_doc.specs.View as doc;
ghost use Rattle.js_doc.specs.JsonView.{view, list_view, map_view};
ghost use Rattle.js_json.specs.Documents.{json_of_document, unwhole_places};
ghost use Rattle.js_json.specs.Making.{TellsFirst, MakesOrTells, MakesItemsOrTells, MakesMembersOrTells};

use crate::fault::JsonFault;
use crate::pointer::Pointer;
use js_doc::{Doc, DocList, DocMap, Json, JsonList, JsonMap, Member, Str};
use std::alloc::Global;

/// The document that `json` is. A number that isn't whole is in none, and the first one is reported.
pub fn to_doc(alloc: Global, json: &Json) -> Result<Doc, JsonFault>
    ensures document { IfOk result (λ d. json_of_document (doc.view d) ≡ view json.now) }
    ensures whole { OnOk result (unwhole_places (view json.now) ≡ []) }
    ensures not_whole { (place : List (List ℕ)) → result ≡ Err (JsonFault.NotWhole place)
        → slice_get (unwhole_places (view json.now)) 0 ≡ Some place }
    ensures json { result ≢ Err JsonFault.NotJson }
{
    match make(alloc, json) {
        Err(JsonFault::NotWhole(place)) => Err(JsonFault::NotWhole(place.reversed())),
        made => made,
    }
}

/// A fault gives its place from the inside out: each level adds its token on the way up.
#[cycle(make)]
fn make(alloc: Global, json: &Json) -> Result<Doc, JsonFault>
    ensures { MakesOrTells (view json.now) result }
{
    match json {
        Json::Null => Ok(Doc::Null),
        Json::Bool(b) => Ok(Doc::Bool(*b)),
        Json::Num(n) => Ok(Doc::Num(*n)),
        Json::NotWhole => Err(JsonFault::NotWhole(Pointer::root(alloc))),
        Json::Text(text) => Ok(Doc::Text(text.copy(alloc)?)),
        Json::List(list) => Ok(Doc::List(make_items(alloc, list)?)),
        Json::Members(members) => Ok(Doc::Members(make_members(alloc, members)?)),
    }
}

#[cycle(make)]
fn make_items(alloc: Global, list: &JsonList) -> Result<DocList, JsonFault>
    ensures { MakesItemsOrTells (list_view list.now) result }
{
    let items = list.as_slice();
    let mut made = Vec::with_capacity(alloc, items.len())?;
    for (i, item) in items.iter().enumerate() {
        match make(alloc, item) {
            Ok(doc) => made.push(doc)?,
            Err(fault) => return Err(in_element(i, fault)),
        }
    }
    Ok(DocList::from_vec(made))
}

#[cycle(make)]
fn make_members(alloc: Global, map: &JsonMap) -> Result<DocMap, JsonFault>
    ensures { MakesMembersOrTells (map_view map.now) result }
{
    let members = map.as_slice();
    let mut made = Vec::with_capacity(alloc, members.len())?;
    for member in members {
        let name = member.name();
        match make(alloc, member.value()) {
            Ok(doc) => made.push(Member::new(name.copy(alloc)?, doc))?,
            Err(fault) => return Err(in_member(name, fault)),
        }
    }
    Ok(DocMap::from_vec(made))
}

/// The fault of an element, with the element's index added.
fn in_element(index: usize, fault: JsonFault) -> JsonFault
    ensures { (places later : List (List (List ℕ))) → TellsFirst places fault
        → TellsFirst (map (λ place. decimal index ∷ place) places ++ later) result }
{
    match fault {
        JsonFault::NotWhole(mut place) => match place.push_index(index) {
            Ok(()) => JsonFault::NotWhole(place),
            Err(_) => JsonFault::Memory,
        },
        fault => fault,
    }
}

/// The fault of a member, with the member's name added.
fn in_member(name: &Str, fault: JsonFault) -> JsonFault
    ensures { (places later : List (List (List ℕ))) → TellsFirst places fault
        → TellsFirst (map (λ place. name.now ∷ place) places ++ later) result }
{
    match fault {
        JsonFault::NotWhole(mut place) => match place.push_name(name.as_text()) {
            Ok(()) => JsonFault::NotWhole(place),
            Err(_) => JsonFault::Memory,
        },
        fault => fault,
    }
}
