//! Whether a document is the one that a part of a table stands for. It goes down the document, and no part is unshared.

ghost use Rattle.std.specs.Prelude.{◌≡◌, ◌<◌, ◌&&◌, true, map, length, nat_lt};
ghost use Rattle.documents.specs.Tests.{every, same_word};
ghost use Rattle.documents.specs.Document.{items_of, members_of};
ghost use Rattle.documents.specs.Measures.{same_document, same_items, same_members};
ghost use Rattle.shared_documents.specs.Part.{names_below};
ghost use Rattle.shared_documents.specs.Unshared.{built, unshared};
ghost use Rattle.js_doc.specs.PartView.{part_view};
ghost use Rattle.js_valid.specs.SamePart.{same_scalar};
ghost use Rattle.js_doc.specs.View.{view, list_view, map_view, member_view};

use js_doc::{
    Doc, DocList, DocMap, Member, Part, PartId, PartIds, PartMap, PartMember, Parts, Str,
};

/// Time in proportion to the document.
#[cycle(same)]
pub(crate) fn is_part(doc: &Doc, parts: &Parts, id: PartId) -> bool
    requires { id.0 < length parts.now }
    ensures { result ≡ same_document (view doc.now) (unshared parts.now id.0) }
{
    is_built(doc, parts, parts.get(id))
}

#[cycle(same)]
fn is_built(doc: &Doc, parts: &Parts, part: &Part) -> bool
    requires { names_below (length parts.now) (part_view part.now) ≡ true }
    ensures { result ≡ same_document (view doc.now) (built (unshared parts.now) (part_view part.now)) }
{
    match (doc, part) {
        (Doc::List(list), Part::List(ids)) => are_parts(list, parts, ids),
        (Doc::Members(members), Part::Members(named)) => are_members(members, parts, named),
        _ => is_same_scalar(doc, part),
    }
}

fn is_same_scalar(doc: &Doc, part: &Part) -> bool
    ensures { result ≡ same_scalar (view doc.now) (part_view part.now) }
{
    match (doc, part) {
        (Doc::Null, Part::Null) => true,
        (Doc::Bool(x), Part::Bool(y)) => *x == *y,
        (Doc::Num(x), Part::Num(y)) => *x == *y,
        (Doc::Text(x), Part::Text(y)) => is_word(x.as_str(), y),
        _ => false,
    }
}

fn is_word(word: &Str, other: &Str) -> bool
    ensures { result ≡ same_word word.now other.now }
{
    *word == *other
}

#[cycle(same)]
fn are_parts(list: &DocList, parts: &Parts, ids: &PartIds) -> bool
    requires { every (λ i. nat_lt i (length parts.now)) ids.now ≡ true }
    ensures { result ≡ same_items (list_view list.now) (items_of (map (unshared parts.now) ids.now)) }
{
    let docs = list.as_slice();
    let numbers = ids.as_slice();
    if docs.len() != numbers.len() {
        return false;
    }
    for (i, doc) in docs.iter().enumerate() {
        if !is_part(doc, parts, numbers[i]) {
            return false;
        }
    }
    true
}

#[cycle(same)]
fn are_members(members: &DocMap, parts: &Parts, named: &PartMap) -> bool
    requires { every (λ i. nat_lt i (length parts.now)) (map (λ m. m.1) named.now) ≡ true }
    ensures { result ≡ same_members (map_view members.now)
        (members_of (map (λ m. (m.0, unshared parts.now m.1)) named.now)) }
{
    let docs = members.as_slice();
    let others = named.as_slice();
    if docs.len() != others.len() {
        return false;
    }
    for (i, member) in docs.iter().enumerate() {
        if !is_member(member, parts, &others[i]) {
            return false;
        }
    }
    true
}

#[cycle(same)]
fn is_member(member: &Member, parts: &Parts, other: &PartMember) -> bool
    requires { other.now.part.0 < length parts.now }
    ensures { result ≡ (same_word (member_view member.now).0 other.now.name
        && same_document (member_view member.now).1 (unshared parts.now other.now.part.0)) }
{
    is_word(member.name(), &other.name) && is_part(member.value(), parts, other.part)
}
