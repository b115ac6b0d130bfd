//! The order of documents, of one beside the document that a part of a table stands for. It goes down the document, and
//! no part is unshared.

ghost use Rattle.std.specs.Prelude.{◌≡◌, ◌<◌, true, map, length, nat_lt};
ghost use Rattle.documents.specs.Tests.{every};
ghost use Rattle.documents.specs.Document.{items_of, members_of};
ghost use Rattle.shared_documents.specs.Part.{names_below};
ghost use Rattle.shared_documents.specs.Unshared.{built, unshared};
ghost use Rattle.js_doc.specs.PartView.{part_view};
ghost use Rattle.js_doc.specs.View.{view, list_view, map_view, member_view};
ghost use Rattle.js_valid.specs.DocumentOrder.{document_cmp, items_cmp, members_cmp, named_cmp};
ghost use Rattle.js_valid.specs.PartOrder.{part_rank, scalar_cmp};

use crate::comparison::{compare_words, rank};
use js_doc::{Doc, DocList, DocMap, Member, Part, PartId, PartIds, PartMap, PartMember, Parts};
use std::cmp::Ordering;

/// Time in proportion to the document, up to the first difference.
#[cycle(compare_part)]
pub(crate) fn compare_part(doc: &Doc, parts: &Parts, id: PartId) -> Ordering
    requires { id.0 < length parts.now }
    ensures { result ≡ document_cmp (view doc.now) (unshared parts.now id.0) }
{
    compare_built(doc, parts, parts.get(id))
}

#[cycle(compare_part)]
fn compare_built(doc: &Doc, parts: &Parts, part: &Part) -> Ordering
    requires { names_below (length parts.now) (part_view part.now) ≡ true }
    ensures { result ≡ document_cmp (view doc.now) (built (unshared parts.now) (part_view part.now)) }
{
    match (doc, part) {
        (Doc::List(list), Part::List(ids)) => compare_elements(list, parts, ids),
        (Doc::Members(members), Part::Members(named)) => compare_named(members, parts, named),
        _ => compare_scalar(doc, part),
    }
}

fn compare_scalar(doc: &Doc, part: &Part) -> Ordering
    ensures { result ≡ scalar_cmp (view doc.now) (part_view part.now) }
{
    match (doc, part) {
        (Doc::Bool(x), Part::Bool(y)) => x.cmp(y),
        (Doc::Num(x), Part::Num(y)) => x.cmp(y),
        (Doc::Text(x), Part::Text(y)) => compare_words(x.as_str(), y),
        _ => rank(doc).cmp(&part_rank(part)),
    }
}

/// The place of the part's kind among the kinds.
fn part_rank(part: &Part) -> u8
    ensures { result ≡ part_rank (part_view part.now) }
{
    match part {
        Part::Null => 0,
        Part::Bool(_) => 1,
        Part::Num(_) => 2,
        Part::Text(_) => 3,
        Part::List(_) => 4,
        Part::Members(_) => 5,
    }
}

#[cycle(compare_part)]
fn compare_elements(list: &DocList, parts: &Parts, ids: &PartIds) -> Ordering
    requires { every (λ i. nat_lt i (length parts.now)) ids.now ≡ true }
    ensures { result ≡ items_cmp (list_view list.now) (items_of (map (unshared parts.now) ids.now)) }
{
    let docs = list.as_slice();
    let numbers = ids.as_slice();
    for (i, doc) in docs.iter().enumerate() {
        if i >= numbers.len() {
            return Ordering::Greater;
        }
        match compare_part(doc, parts, numbers[i]) {
            Ordering::Equal => {}
            order => return order,
        }
    }
    if docs.len() < numbers.len() {
        return Ordering::Less;
    }
    Ordering::Equal
}

#[cycle(compare_part)]
fn compare_named(members: &DocMap, parts: &Parts, named: &PartMap) -> Ordering
    requires { every (λ i. nat_lt i (length parts.now)) (map (λ m. m.1) named.now) ≡ true }
    ensures { result ≡ members_cmp (map_view members.now)
        (members_of (map (λ m. (m.0, unshared parts.now m.1)) named.now)) }
{
    let docs = members.as_slice();
    let others = named.as_slice();
    for (i, member) in docs.iter().enumerate() {
        if i >= others.len() {
            return Ordering::Greater;
        }
        match compare_member(member, parts, &others[i]) {
            Ordering::Equal => {}
            order => return order,
        }
    }
    if docs.len() < others.len() {
        return Ordering::Less;
    }
    Ordering::Equal
}

#[cycle(compare_part)]
fn compare_member(member: &Member, parts: &Parts, other: &PartMember) -> Ordering
    requires { other.now.part.0 < length parts.now }
    ensures { result ≡ named_cmp (member_view member.now) (other.now.name, unshared parts.now other.now.part.0) }
{
    match compare_words(member.name(), &other.name) {
        Ordering::Equal => compare_part(member.value(), parts, other.part),
        order => order,
    }
}
