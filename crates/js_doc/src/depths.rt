//! How deep a document nests.

ghost use Rattle.std.specs.Prelude.{◌≡◌};
ghost use Rattle.documents.specs.Document as D;
ghost use Rattle.js_doc.specs.View.{view, list_view, map_view, capped};

use crate::document::{Doc, DocList, DocMap};

/// How many arrays and objects are nested: 0 for null, a truth value, a number or a string. An array or object is one
/// deeper than the deepest of what it holds, so an empty one has depth 1. Depths past u32's last value are given as
/// that value. One call a level, and no memory but for those.
#[cycle(depth)]
pub fn depth(doc: &Doc) -> u32
    ensures { result ≡ capped (D.depth (view doc.now)) }
{
    match doc {
        Doc::Null | Doc::Bool(_) | Doc::Num(_) | Doc::Text(_) => 0,
        Doc::List(list) => list_depth(list).saturating_add(1),
        Doc::Members(members) => members_depth(members).saturating_add(1),
    }
}

#[cycle(depth)]
fn list_depth(list: &DocList) -> u32
    ensures { result ≡ capped (D.items_depth (list_view list.now)) }
{
    let mut deepest = 0;
    for doc in list.as_slice() {
        deepest = depth(doc).max(deepest);
    }
    deepest
}

#[cycle(depth)]
fn members_depth(members: &DocMap) -> u32
    ensures { result ≡ capped (D.members_depth (map_view members.now)) }
{
    let mut deepest = 0;
    for member in members.as_slice() {
        deepest = depth(member.value()).max(deepest);
    }
    deepest
}
