//! The frame of a part: the part as a document in which `null` stands for each element and each member's value.

ghost use Rattle.std.specs.Prelude.{◌≡◌, true, map, IfOk};
ghost use Rattle.documents.specs.Document.{items_of, members_of, names_rise, null};
ghost use Rattle.shared_documents.specs.Unshared.{built};
ghost use Rattle.js_doc.specs.PartView.{part_view};
ghost use Rattle.js_doc.specs.View.{view, list_view, map_view, member_view};

use js_doc::{Doc, DocList, DocMap, Member, Memory, Part, PartId, PartIds, PartMap, Parts, Word};
use std::alloc::Global;

/// A part of a table, and its frame.
#[derive(Clone, Copy)]
pub(crate) struct FramedPart<'a> {
    pub(crate) parts: &'a Parts,
    pub(crate) id: PartId,
    pub(crate) frame: &'a Doc,
}

/// Time and memory in proportion to the part.
pub(crate) fn frame_of(alloc: Global, part: &Part) -> Result<Doc, Memory>
    ensures { IfOk result (λ d. view d ≡ built (λ i. null) (part_view part.now)) }
{
    match part {
        Part::Null => Ok(Doc::Null),
        Part::Bool(b) => Ok(Doc::Bool(*b)),
        Part::Num(n) => Ok(Doc::Num(*n)),
        Part::Text(text) => Ok(Doc::Text(Word::new(text.copy(alloc)?))),
        Part::List(ids) => Ok(Doc::List(list_frame(alloc, ids)?)),
        Part::Members(named) => Ok(Doc::Members(members_frame(alloc, named)?)),
    }
}

fn list_frame(alloc: Global, ids: &PartIds) -> Result<DocList, Memory>
    ensures { IfOk result (λ l. list_view l ≡ items_of (map (λ i. null) ids.now)) }
{
    let numbers = ids.as_slice();
    let mut items = Vec::with_capacity(alloc, numbers.len())?;
    for _ in numbers {
        items.push(Doc::Null)?;
    }
    Ok(DocList::from_vec(items))
}

fn members_frame(alloc: Global, named: &PartMap) -> Result<DocMap, Memory>
    ensures { IfOk result (λ l. map_view l ≡ members_of (map (λ m. (m.0, null)) named.now)) }
{
    let parts = named.as_slice();
    let mut made = Vec::with_capacity(alloc, parts.len())?;
    for member in parts {
        made.push(Member::new(member.name.copy(alloc)?, Doc::Null))?;
    }
    Ok(rising_map(made))
}

fn rising_map(members: Vec<Member>) -> DocMap
    requires { names_rise (members_of (map member_view members.items)) ≡ true }
    ensures { map_view result ≡ members_of (map member_view members.items) }
{
    DocMap::from_vec(members)
}
