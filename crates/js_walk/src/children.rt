//! The schemas in the keywords of an object, with their places, in the order in which they are walked.
//!
//! A place takes time and memory in proportion to the last token of its pointer.

ghost use Rattle.std.specs.Prelude.{◌≡◌, ◌<◌, ◌++◌, ◌∷◌, [], ℕ, List, length, get_or, IfOk, OnOk};
ghost use Rattle.schemas.specs.Places.{Pointer as P, index_token, elements_under};
ghost use Rattle.schemas.specs.SubSchemas.{members_under, needs_under, unless_list};
ghost use Rattle.js_doc.specs.JsonView.{view, list_view, map_view, member_view};
ghost use Rattle.js_pointers.specs.PointersView.{pointers_of};
ghost use Rattle.js_walk.specs.Holding.{read_holding, held, member_held, members_held};
ghost use Rattle.js_walk.specs.Visiting.{AreWithin, Adds};

use crate::holding::{Holding, member_holding};
use crate::place::Place;
use js_doc::{Json, JsonList, JsonMap, JsonMember, Memory};
use js_pointers::Pointers;
use std::alloc::Global;

/// The schemas in the keywords of the object at `place`, whose `items` is a list or isn't.
pub(crate) fn children<'a>(
    alloc: Global,
    pointers: &mut Pointers,
    place: u32,
    listed: bool,
    members: &'a JsonMap,
) -> Result<Vec<Place<'a>>, Memory>
    requires { place < length (pointers_of pointers.old) }
    ensures { IfOk result (λ found. Adds (pointers_of pointers.old) (pointers_of pointers.new) [] found.items
        (members_held listed (get_or (pointers_of pointers.old) place []) (map_view members.now))) }
{
    let mut found = Vec::new(alloc);
    for member in members.as_slice() {
        add_member(pointers, &mut found, place, listed, member)?;
    }
    Ok(found)
}

/// Adds the schemas in a member of the object at `place`.
fn add_member<'a>(
    pointers: &mut Pointers,
    found: &mut Vec<Place<'a>>,
    place: u32,
    listed: bool,
    member: &'a JsonMember,
) -> Result<(), Memory>
    requires place { place < length (pointers_of pointers.old) }
    requires found { AreWithin (pointers_of pointers.old) found.old.items }
    ensures { OnOk result (Adds (pointers_of pointers.old) (pointers_of pointers.new) found.old.items found.new.items
        (member_held (read_holding listed (member_view member.now).0)
        (get_or (pointers_of pointers.old) place [] ++ (member_view member.now).0 ∷ []) (member_view member.now).1)) }
{
    match member_holding(listed, member.name()) {
        None | Some(Holding::Nothing) => Ok(()),
        Some(holding) => {
            let at = pointers.add(place, member.name().as_text())?;
            add_held(pointers, found, at, holding, member.value())
        }
    }
}

/// Adds the schemas in the value at `at`, which holds schemas so.
fn add_held<'a>(
    pointers: &mut Pointers,
    found: &mut Vec<Place<'a>>,
    at: u32,
    holding: Holding,
    value: &'a Json,
) -> Result<(), Memory>
    requires at { at < length (pointers_of pointers.old) }
    requires found { AreWithin (pointers_of pointers.old) found.old.items }
    ensures { OnOk result (Adds (pointers_of pointers.old) (pointers_of pointers.new) found.old.items found.new.items
        (held holding (get_or (pointers_of pointers.old) at []) (view value.now))) }
{
    match (holding, value) {
        (Holding::One, _) => add_itself(found, at, value),
        (Holding::OneOrList | Holding::List, Json::List(items)) => {
            add_elements(pointers, found, at, items)
        }
        (Holding::OneOrList, _) => add_itself(found, at, value),
        (Holding::Map, Json::Members(members)) => add_members(pointers, found, at, members),
        (Holding::Needs, Json::Members(members)) => add_needs(pointers, found, at, members),
        _ => Ok(()),
    }
}

fn add_itself<'a>(found: &mut Vec<Place<'a>>, at: u32, value: &'a Json) -> Result<(), Memory>
    ensures { OnOk result ((ps : List P) → at < length ps → AreWithin ps found.old.items
        → Adds ps ps found.old.items found.new.items ((get_or ps at [], view value.now) ∷ [])) }
{
    found.push(Place { pointer: at, value })?;
    Ok(())
}

fn add_elements<'a>(
    pointers: &mut Pointers,
    found: &mut Vec<Place<'a>>,
    at: u32,
    items: &'a JsonList,
) -> Result<(), Memory>
    requires at { at < length (pointers_of pointers.old) }
    requires found { AreWithin (pointers_of pointers.old) found.old.items }
    ensures { OnOk result (Adds (pointers_of pointers.old) (pointers_of pointers.new) found.old.items found.new.items
        (elements_under (get_or (pointers_of pointers.old) at []) 0 (list_view items.now))) }
{
    let items = items.as_slice();
    for (i, value) in items.iter().enumerate() {
        add_element(pointers, found, at, i, value)?;
    }
    Ok(())
}

fn add_element<'a>(
    pointers: &mut Pointers,
    found: &mut Vec<Place<'a>>,
    at: u32,
    index: usize,
    value: &'a Json,
) -> Result<(), Memory>
    requires at { at < length (pointers_of pointers.old) }
    requires found { AreWithin (pointers_of pointers.old) found.old.items }
    ensures { OnOk result (Adds (pointers_of pointers.old) (pointers_of pointers.new) found.old.items found.new.items
        ((get_or (pointers_of pointers.old) at [] ++ index_token index ∷ [], view value.now) ∷ [])) }
{
    let pointer = pointers.add_index(at, index)?;
    add_itself(found, pointer, value)
}

fn add_members<'a>(
    pointers: &mut Pointers,
    found: &mut Vec<Place<'a>>,
    at: u32,
    members: &'a JsonMap,
) -> Result<(), Memory>
    requires at { at < length (pointers_of pointers.old) }
    requires found { AreWithin (pointers_of pointers.old) found.old.items }
    ensures { OnOk result (Adds (pointers_of pointers.old) (pointers_of pointers.new) found.old.items found.new.items
        (members_under (get_or (pointers_of pointers.old) at []) (map_view members.now))) }
{
    for member in members.as_slice() {
        add_value(pointers, found, at, member)?;
    }
    Ok(())
}

/// Adds the value of a member.
fn add_value<'a>(
    pointers: &mut Pointers,
    found: &mut Vec<Place<'a>>,
    at: u32,
    member: &'a JsonMember,
) -> Result<(), Memory>
    requires at { at < length (pointers_of pointers.old) }
    requires found { AreWithin (pointers_of pointers.old) found.old.items }
    ensures { OnOk result (Adds (pointers_of pointers.old) (pointers_of pointers.new) found.old.items found.new.items
        ((
          get_or (pointers_of pointers.old) at [] ++ (member_view member.now).0 ∷ [],
          (member_view member.now).1,
        ) ∷ [])) }
{
    let pointer = pointers.add(at, member.name().as_text())?;
    add_itself(found, pointer, member.value())
}

/// Adds the values of members that aren't lists.
fn add_needs<'a>(
    pointers: &mut Pointers,
    found: &mut Vec<Place<'a>>,
    at: u32,
    members: &'a JsonMap,
) -> Result<(), Memory>
    requires at { at < length (pointers_of pointers.old) }
    requires found { AreWithin (pointers_of pointers.old) found.old.items }
    ensures { OnOk result (Adds (pointers_of pointers.old) (pointers_of pointers.new) found.old.items found.new.items
        (needs_under (get_or (pointers_of pointers.old) at []) (map_view members.now))) }
{
    for member in members.as_slice() {
        add_unless_list(pointers, found, at, member)?;
    }
    Ok(())
}

fn add_unless_list<'a>(
    pointers: &mut Pointers,
    found: &mut Vec<Place<'a>>,
    at: u32,
    member: &'a JsonMember,
) -> Result<(), Memory>
    requires at { at < length (pointers_of pointers.old) }
    requires found { AreWithin (pointers_of pointers.old) found.old.items }
    ensures { OnOk result (Adds (pointers_of pointers.old) (pointers_of pointers.new) found.old.items found.new.items
        (unless_list (get_or (pointers_of pointers.old) at [] ++ (member_view member.now).0 ∷ [])
        (member_view member.now).1 [])) }
{
    match member.value() {
        Json::List(_) => Ok(()),
        _ => add_value(pointers, found, at, member),
    }
}
