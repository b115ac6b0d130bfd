//! JSON equality of documents.

ghost use Rattle.std.specs.Prelude.{◌≡◌, ◌↔◌, IsTrue};
ghost use Rattle.js_doc.specs.View.{view, list_view, map_view, member_view};

use crate::document::{Doc, DocList, DocMap, Member};

/// Whether two documents are equal: lists in order, maps by name, numbers by value. Members are in the order of
/// their names, so equal maps are equal member by member.
#[cycle(equal)]
pub fn equal(a: &Doc, b: &Doc) -> bool
    ensures { IsTrue result ↔ (view a.now ≡ view b.now) }
{
    match (a, b) {
        (Doc::Null, Doc::Null) => true,
        (Doc::Bool(x), Doc::Bool(y)) => *x == *y,
        (Doc::Num(x), Doc::Num(y)) => *x == *y,
        (Doc::Text(x), Doc::Text(y)) => x.as_text() == y.as_text(),
        (Doc::List(x), Doc::List(y)) => equal_lists(x, y),
        (Doc::Members(x), Doc::Members(y)) => equal_maps(x, y),
        _ => false,
    }
}

#[cycle(equal)]
fn equal_lists(a: &DocList, b: &DocList) -> bool
    ensures { IsTrue result ↔ (list_view a.now ≡ list_view b.now) }
{
    let xs = a.as_slice();
    let ys = b.as_slice();
    if xs.len() != ys.len() {
        return false;
    }
    for (i, x) in xs.iter().enumerate() {
        if !equal(x, &ys[i]) {
            return false;
        }
    }
    true
}

#[cycle(equal)]
fn equal_maps(a: &DocMap, b: &DocMap) -> bool
    ensures { IsTrue result ↔ (map_view a.now ≡ map_view b.now) }
{
    let xs = a.as_slice();
    let ys = b.as_slice();
    if xs.len() != ys.len() {
        return false;
    }
    for (i, x) in xs.iter().enumerate() {
        if !equal_members(x, &ys[i]) {
            return false;
        }
    }
    true
}

#[cycle(equal)]
fn equal_members(a: &Member, b: &Member) -> bool
    ensures { IsTrue result ↔ (member_view a.now ≡ member_view b.now) }
{
    a.name().as_text() == b.name().as_text() && equal(a.value(), b.value())
}
