//! What a place of a schema weighs: 1, and 8 for each value of its keywords.
//!
//! Weights past the last number of `u64` are given as that. A weight takes time in proportion to the object, and to the
//! values in those of its keywords that hold no schemas.

ghost use Rattle.std.specs.Prelude.{◌≡◌, []};
ghost use Rattle.documents.specs.Json as D;
ghost use Rattle.schemas.specs.Weight as W;
ghost use Rattle.js_doc.specs.JsonView.{view, list_view, map_view};
ghost use Rattle.js_walk.specs.Holding.{held_values, members_values, values_by, capped};

use crate::holding::{Holding, member_holding};
use crate::members::{has_list, value_of};
use js_doc::{Json, JsonList, JsonMap};
use js_keywords::Keyword;

/// What the place of that value weighs.
pub(crate) fn weight(value: &Json) -> u64
    ensures { result ≡ capped (W.weight ([], view value.now)) }
{
    match value {
        Json::Members(members) => object_weight(members),
        _ => 1,
    }
}

fn object_weight(members: &JsonMap) -> u64
    ensures { result ≡ capped (W.weight ([], D.object (map_view members.now))) }
{
    match value_of(members, Keyword::Ref) {
        Some(_) => 1,
        None => members_values(has_list(members), members)
            .saturating_mul(8)
            .saturating_add(1),
    }
}

fn members_values(listed: bool, members: &JsonMap) -> u64
    ensures { result ≡ capped (members_values listed (map_view members.now)) }
{
    let mut total: u64 = 0;
    for member in members.as_slice() {
        let holding = member_holding(listed, member.name());
        total = total.saturating_add(values_by(holding, member.value()));
    }
    total
}

fn values_by(holding: Option<Holding>, value: &Json) -> u64
    ensures { result ≡ capped (values_by holding (view value.now)) }
{
    match holding {
        None => 0,
        Some(Holding::Nothing) => count(value),
        Some(Holding::One) => 1,
        Some(Holding::OneOrList | Holding::List) => list_values(value),
        Some(Holding::Map) => map_values(value),
        Some(Holding::Needs) => need_map_values(value),
    }
}

fn list_values(value: &Json) -> u64
    ensures { result ≡ capped (W.list_values (view value.now)) }
{
    match value {
        Json::List(items) => (items.len() as u64).saturating_add(1),
        _ => 1,
    }
}

fn map_values(value: &Json) -> u64
    ensures { result ≡ capped (W.map_values (view value.now)) }
{
    match value {
        Json::Members(members) => (members.len() as u64).saturating_add(1),
        _ => 1,
    }
}

fn need_map_values(value: &Json) -> u64
    ensures { result ≡ capped (W.need_map_values (view value.now)) }
{
    match value {
        Json::Members(members) => need_values(members).saturating_add(1),
        _ => 1,
    }
}

fn need_values(members: &JsonMap) -> u64
    ensures { result ≡ capped (W.need_values (map_view members.now)) }
{
    let mut total: u64 = 0;
    for member in members.as_slice() {
        total = total.saturating_add(list_values(member.value()));
    }
    total
}

/// The number of values in the value, itself included. Numbers past the last of `u64` are given as that.
#[cycle(count)]
fn count(value: &Json) -> u64
    ensures { result ≡ capped (D.count (view value.now)) }
{
    match value {
        Json::List(items) => count_items(items).saturating_add(1),
        Json::Members(members) => count_members(members).saturating_add(1),
        _ => 1,
    }
}

#[cycle(count)]
fn count_items(items: &JsonList) -> u64
    ensures { result ≡ capped (D.items_count (list_view items.now)) }
{
    let mut total: u64 = 0;
    for item in items.as_slice() {
        total = total.saturating_add(count(item));
    }
    total
}

#[cycle(count)]
fn count_members(members: &JsonMap) -> u64
    ensures { result ≡ capped (D.members_count (map_view members.now)) }
{
    let mut total: u64 = 0;
    for member in members.as_slice() {
        total = total.saturating_add(count(member.value()));
    }
    total
}
