//! A total order of documents, by which the values of an `enum` are sorted and looked up. It is equal exactly where
//! documents are, and else it is no order of JSON.

ghost use Rattle.std.specs.Prelude.{◌≡◌, chars};
ghost use Rattle.std.specs.Cmp.Lexicographic.{slice_cmp};
ghost use Rattle.std.specs.Ordering.{nat_cmp};
ghost use Rattle.js_doc.specs.View.{view, list_view, map_view, member_view};
ghost use Rattle.js_valid.specs.DocumentOrder.{rank, document_cmp, items_cmp, members_cmp, named_cmp};

use js_doc::{Doc, DocList, DocMap, Member, Str};
use std::cmp::Ordering;

/// Time in proportion to the shorter document, up to the first difference.
#[cycle(compare)]
pub(crate) fn compare(a: &Doc, b: &Doc) -> Ordering
    ensures { result ≡ document_cmp (view a.now) (view b.now) }
{
    match (a, b) {
        (Doc::Bool(x), Doc::Bool(y)) => x.cmp(y),
        (Doc::Num(x), Doc::Num(y)) => x.cmp(y),
        (Doc::Text(x), Doc::Text(y)) => compare_words(x.as_str(), y.as_str()),
        (Doc::List(x), Doc::List(y)) => compare_lists(x, y),
        (Doc::Members(x), Doc::Members(y)) => compare_maps(x, y),
        _ => rank(a).cmp(&rank(b)),
    }
}

/// The place of the document's kind among the kinds.
pub(crate) fn rank(doc: &Doc) -> u8
    ensures { result ≡ rank (view doc.now) }
{
    match doc {
        Doc::Null => 0,
        Doc::Bool(_) => 1,
        Doc::Num(_) => 2,
        Doc::Text(_) => 3,
        Doc::List(_) => 4,
        Doc::Members(_) => 5,
    }
}

/// Texts by their scalar values, a prefix first, which is the order of their bytes.
pub(crate) fn compare_words(a: &Str, b: &Str) -> Ordering
    ensures { result ≡ slice_cmp nat_cmp a.now b.now }
{
    compare_texts(a.as_text(), b.as_text())
}

fn compare_texts(a: &str, b: &str) -> Ordering
    ensures { result ≡ slice_cmp nat_cmp (chars a.now) (chars b.now) }
{
    a.cmp(b)
}

#[cycle(compare)]
fn compare_lists(a: &DocList, b: &DocList) -> Ordering
    ensures { result ≡ items_cmp (list_view a.now) (list_view b.now) }
{
    let xs = a.as_slice();
    let ys = b.as_slice();
    for (i, x) in xs.iter().enumerate() {
        if i >= ys.len() {
            return Ordering::Greater;
        }
        match compare(x, &ys[i]) {
            Ordering::Equal => {}
            order => return order,
        }
    }
    if xs.len() < ys.len() {
        return Ordering::Less;
    }
    Ordering::Equal
}

#[cycle(compare)]
fn compare_maps(a: &DocMap, b: &DocMap) -> Ordering
    ensures { result ≡ members_cmp (map_view a.now) (map_view b.now) }
{
    let xs = a.as_slice();
    let ys = b.as_slice();
    for (i, x) in xs.iter().enumerate() {
        if i >= ys.len() {
            return Ordering::Greater;
        }
        match compare_members(x, &ys[i]) {
            Ordering::Equal => {}
            order => return order,
        }
    }
    if xs.len() < ys.len() {
        return Ordering::Less;
    }
    Ordering::Equal
}

#[cycle(compare)]
fn compare_members(a: &Member, b: &Member) -> Ordering
    ensures { result ≡ named_cmp (member_view a.now) (member_view b.now) }
{
    match compare_words(a.name(), b.name()) {
        Ordering::Equal => compare(a.value(), b.value()),
        order => order,
    }
}
