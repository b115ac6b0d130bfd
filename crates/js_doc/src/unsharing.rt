//! The document that a part of a table stands for.

ghost use Rattle.std.specs.Prelude.{◌≡◌, ◌<◌, true, map, length, nat_lt, IfOk};
ghost use Rattle.documents.specs.Tests.{every};
ghost use Rattle.documents.specs.Document.{items_of, members_of, names_rise};
ghost use Rattle.shared_documents.specs.Part.{members_rise};
ghost use Rattle.shared_documents.specs.Unshared.{unshared};
ghost use Rattle.js_doc.specs.View.{view, list_view, map_view, member_view};

use crate::document::{Doc, DocList, DocMap, Member};
use crate::parts::{Part, PartId, PartIds, PartMap, Parts};
use crate::text::Memory;
use crate::word::Word;
use std::alloc::Global;

/// The document that the part stands for, with copies of all that it shares. It takes time and memory in proportion to
/// that document, which may be exponential in the number of parts, and one call a level.
#[cycle(unshare)]
pub fn unshare(alloc: Global, parts: &Parts, id: PartId) -> Result<Doc, Memory>
    requires { id.0 < length parts.now }
    ensures { IfOk result (λ d. view d ≡ unshared parts.now id.0) }
{
    match parts.get(id) {
        Part::Null => Ok(Doc::Null),
        Part::Bool(b) => Ok(Doc::Bool(*b)),
        Part::Num(n) => Ok(Doc::Num(*n)),
        Part::Text(text) => Ok(Doc::Text(Word::new(text.copy(alloc)?))),
        Part::List(ids) => Ok(Doc::List(unshare_list(alloc, parts, ids)?)),
        Part::Members(members) => Ok(Doc::Members(unshare_members(alloc, parts, members)?)),
    }
}

#[cycle(unshare)]
fn unshare_list(alloc: Global, parts: &Parts, ids: &PartIds) -> Result<DocList, Memory>
    requires { every (λ i. nat_lt i (length parts.now)) ids.now ≡ true }
    ensures { IfOk result (λ l. list_view l ≡ items_of (map (unshared parts.now) ids.now)) }
{
    let numbers = ids.as_slice();
    let mut items = Vec::with_capacity(alloc, numbers.len())?;
    for id in numbers {
        items.push(unshare(alloc, parts, *id)?)?;
    }
    Ok(DocList::from_vec(items))
}

#[cycle(unshare)]
fn unshare_members(alloc: Global, parts: &Parts, members: &PartMap) -> Result<DocMap, Memory>
    requires { every (λ i. nat_lt i (length parts.now)) (map (λ m. m.1) members.now) ≡ true }
    ensures { IfOk result (λ l. map_view l ≡ members_of (map (λ m. (m.0, unshared parts.now m.1)) members.now)) }
{
    let named = members.as_slice();
    let mut made = Vec::with_capacity(alloc, named.len())?;
    for member in named {
        let name = member.name.copy(alloc)?;
        made.push(Member::new(name, unshare(alloc, parts, member.part)?))?;
    }
    Ok(rising_map(made))
}

fn rising_map(members: Vec<Member>) -> DocMap
    requires { names_rise (members_of (map member_view members.items)) ≡ true }
    ensures { map_view result ≡ members_of (map member_view members.items) }
{
    DocMap::from_vec(members)
}
