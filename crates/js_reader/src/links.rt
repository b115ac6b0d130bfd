//! The schemas in the values of keywords, by the numbers of their entries.
//!
//! `place` is that of the value.

ghost use Rattle.std.specs.Prelude.{◌≡◌, ◌++◌, ◌∷◌, [], true, map, IfOk};
ghost use Rattle.documents.specs.Tests.{every};
ghost use Rattle.documents.specs.Json as J;
ghost use Rattle.schemas.specs.Places.{elements_under};
ghost use Rattle.schemas.specs.Entries.{number_of};
ghost use Rattle.js_doc.specs.JsonView.{view, list_view, map_view, member_view};
ghost use Rattle.js_reader.specs.Faultless.{is_pattern, names_are_patterns, are_patterns};
ghost use Rattle.js_reader.specs.KeywordPlaceView.{places_about, at};
ghost use Rattle.js_reader.specs.Links.{element_numbers, list_at, items_at, names_at, map_at, need_at, needs_at, all_needs_at};
ghost use Rattle.js_schema.specs.View.{items_view, property_view, pattern_property_view, pattern_properties_view, needs_view, dependency_view};

use crate::keyword_place::KeywordPlace;
use crate::values::{pattern_text, word_list};
use js_doc::{Json, JsonList, JsonMap, JsonMember, Memory};
use js_schema::{
    Dependency, DependencyList, EntryList, ItemsPart, Needs, PatternProperty, PatternPropertyList,
    Property, PropertyList,
};
use std::alloc::Global;

/// The elements of a list.
pub(crate) fn elements(
    alloc: Global,
    place: &KeywordPlace,
    items: &JsonList,
) -> Result<EntryList, Memory>
    ensures { IfOk result
        (λ es. es ≡ element_numbers (places_about place.now) (at place.now) 0 (list_view items.now)) }
{
    let items = items.as_slice();
    let mut made = Vec::with_capacity(alloc, items.len())?;
    for (i, _item) in items.iter().enumerate() {
        made.push(place.element(i)?)?;
    }
    Ok(EntryList::from_vec(made))
}

/// The elements of the value, where it is a list.
pub(crate) fn list(alloc: Global, place: &KeywordPlace, value: &Json) -> Result<EntryList, Memory>
    ensures { IfOk result (λ es. es ≡ list_at (places_about place.now) (at place.now) (view value.now)) }
{
    match value {
        Json::List(items) => elements(alloc, place, items),
        _ => Ok(EntryList::from_vec(Vec::new(alloc))),
    }
}

/// One schema, or the elements of a list.
pub(crate) fn items(alloc: Global, place: &KeywordPlace, value: &Json) -> Result<ItemsPart, Memory>
    ensures { IfOk result
        (λ part. items_view part ≡ items_at (places_about place.now) (at place.now) (view value.now)) }
{
    match value {
        Json::List(items) => Ok(ItemsPart::Listed(elements(alloc, place, items)?)),
        _ => Ok(ItemsPart::Each(place.itself())),
    }
}

/// The members of an object of schemas.
pub(crate) fn properties(
    alloc: Global,
    place: &KeywordPlace,
    value: &Json,
) -> Result<PropertyList, Memory>
    ensures { IfOk result
        (λ ps. map property_view ps ≡ map_at (places_about place.now) (at place.now) (view value.now)) }
{
    match value {
        Json::Members(members) => property_list(alloc, place, members),
        _ => Ok(PropertyList::from_vec(Vec::new(alloc))),
    }
}

fn property_list(
    alloc: Global,
    place: &KeywordPlace,
    members: &JsonMap,
) -> Result<PropertyList, Memory>
    ensures { IfOk result
        (λ ps. map property_view ps ≡ names_at (places_about place.now) (at place.now) (map_view members.now)) }
{
    let mut made = Vec::with_capacity(alloc, members.len())?;
    for member in members.as_slice() {
        made.push(property(alloc, place, member)?)?;
    }
    Ok(PropertyList::from_vec(made))
}

fn property(alloc: Global, place: &KeywordPlace, member: &JsonMember) -> Result<Property, Memory>
    ensures property { IfOk result (λ p. property_view p ≡ (
      (member_view member.now).0,
      number_of (places_about place.now) (at place.now ++ (member_view member.now).0 ∷ []),
    )) }
{
    let name = member.name().copy(alloc)?;
    let entry = place.member(member.name().as_text());
    Ok(Property { name, entry })
}

/// The members of an object of schemas whose names are patterns.
pub(crate) fn pattern_properties(
    alloc: Global,
    place: &KeywordPlace,
    value: &Json,
) -> Result<PatternPropertyList, Memory>
    requires { are_patterns (view value.now) ≡ true }
    ensures { IfOk result (λ ps. pattern_properties_view ps
        ≡ map_at (places_about place.now) (at place.now) (view value.now)) }
{
    match value {
        Json::Members(members) => pattern_property_list(alloc, place, members),
        _ => Ok(PatternPropertyList::from_vec(Vec::new(alloc))),
    }
}

fn pattern_property_list(
    alloc: Global,
    place: &KeywordPlace,
    members: &JsonMap,
) -> Result<PatternPropertyList, Memory>
    requires { names_are_patterns (map_view members.now) ≡ true }
    ensures { IfOk result (λ ps. pattern_properties_view ps
        ≡ names_at (places_about place.now) (at place.now) (map_view members.now)) }
{
    let mut made = Vec::with_capacity(alloc, members.len())?;
    for member in members.as_slice() {
        made.push(pattern_property(alloc, place, member)?)?;
    }
    Ok(PatternPropertyList::from_vec(made))
}

fn pattern_property(
    alloc: Global,
    place: &KeywordPlace,
    member: &JsonMember,
) -> Result<PatternProperty, Memory>
    requires { is_pattern (member_view member.now).0 ≡ true }
    ensures property { IfOk result (λ p. pattern_property_view p ≡ (
      (member_view member.now).0,
      number_of (places_about place.now) (at place.now ++ (member_view member.now).0 ∷ []),
    )) }
{
    let pattern = pattern_text(alloc, member.name())?;
    let entry = place.member(member.name().as_text());
    Ok(PatternProperty { pattern, entry })
}

/// What the names of an object need.
pub(crate) fn dependencies(
    alloc: Global,
    place: &KeywordPlace,
    value: &Json,
) -> Result<DependencyList, Memory>
    ensures { IfOk result (λ ds. map dependency_view ds
        ≡ all_needs_at (places_about place.now) (at place.now) (view value.now)) }
{
    match value {
        Json::Members(members) => dependency_list(alloc, place, members),
        _ => Ok(DependencyList::from_vec(Vec::new(alloc))),
    }
}

fn dependency_list(
    alloc: Global,
    place: &KeywordPlace,
    members: &JsonMap,
) -> Result<DependencyList, Memory>
    ensures { IfOk result (λ ds. map dependency_view ds
        ≡ needs_at (places_about place.now) (at place.now) (map_view members.now)) }
{
    let mut made = Vec::with_capacity(alloc, members.len())?;
    for member in members.as_slice() {
        made.push(dependency(alloc, place, member)?)?;
    }
    Ok(DependencyList::from_vec(made))
}

fn dependency(
    alloc: Global,
    place: &KeywordPlace,
    member: &JsonMember,
) -> Result<Dependency, Memory>
    ensures dependency { IfOk result (λ d. dependency_view d ≡ (
      (member_view member.now).0,
      need_at (places_about place.now) (at place.now) (member_view member.now).0 (member_view member.now).1,
    )) }
{
    let key = member.name().copy(alloc)?;
    let needs = need(alloc, place, member)?;
    Ok(Dependency { key, needs })
}

fn need(alloc: Global, place: &KeywordPlace, member: &JsonMember) -> Result<Needs, Memory>
    ensures need { IfOk result (λ n. needs_view n ≡ need_at (places_about place.now) (at place.now)
        (member_view member.now).0 (member_view member.now).1) }
{
    match member.value() {
        Json::List(words) => Ok(Needs::Names(word_list(alloc, words)?)),
        _ => Ok(Needs::Whole(place.member(member.name().as_text()))),
    }
}
