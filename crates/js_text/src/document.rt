//! The text of a document.

ghost use Rattle.std.specs.Prelude.{◌≡◌, ◌++◌, ◌∷◌, [], IfOk, OnOk, string_bytes};
ghost use Rattle.document_texts.specs.Scalars.{string_text, enclosed};
ghost use Rattle.document_texts.specs.DocumentText.{document_text, item_texts, member_texts};
ghost use Rattle.js_doc.specs.View.{view, list_view, map_view, member_view};

use crate::scalars::{push_comma, push_integer, push_string, push_truth, push_word};
use js_doc::{Doc, DocList, DocMap, Member, Memory};
use std::alloc::Global;

/// The text of a document as compact JSON. One call a level.
pub fn doc_text(alloc: Global, doc: &Doc) -> Result<Vec<u8>, Memory>
    ensures { IfOk result (λ v. v.items ≡ document_text (view doc.now)) }
{
    let mut out = String::new(alloc);
    push_doc(alloc, &mut out, doc)?;
    Ok(out.into_bytes())
}

#[cycle(push_doc)]
pub(crate) fn push_doc(alloc: Global, out: &mut String, doc: &Doc) -> Result<(), Memory>
    ensures { OnOk result (string_bytes out.new ≡ string_bytes out.old ++ document_text (view doc.now)) }
{
    match doc {
        Doc::Null => push_word(out, "null"),
        Doc::Bool(truth) => push_truth(out, *truth),
        Doc::Num(number) => push_integer(out, *number),
        Doc::Text(word) => push_string(alloc, out, word.as_str()),
        Doc::List(list) => push_items(alloc, out, list),
        Doc::Members(members) => push_members(alloc, out, members),
    }
}

#[cycle(push_doc)]
fn push_items(alloc: Global, out: &mut String, list: &DocList) -> Result<(), Memory>
    ensures { OnOk result (string_bytes out.new
        ≡ string_bytes out.old ++ enclosed 91 (item_texts (list_view list.now)) 93) }
{
    push_word(out, "[")?;
    let mut first = true;
    for doc in list.as_slice() {
        push_comma(out, first)?;
        push_doc(alloc, out, doc)?;
        first = false;
    }
    out.push_str("]")?;
    Ok(())
}

#[cycle(push_doc)]
fn push_members(alloc: Global, out: &mut String, members: &DocMap) -> Result<(), Memory>
    ensures { OnOk result (string_bytes out.new
        ≡ string_bytes out.old ++ enclosed 123 (member_texts (map_view members.now)) 125) }
{
    push_word(out, "{")?;
    let mut first = true;
    for member in members.as_slice() {
        push_comma(out, first)?;
        push_name(alloc, out, member)?;
        push_doc(alloc, out, member.value())?;
        first = false;
    }
    out.push_str("}")?;
    Ok(())
}

/// The name of a member, with its colon.
fn push_name(alloc: Global, out: &mut String, member: &Member) -> Result<(), Memory>
    ensures { OnOk result (string_bytes out.new
        ≡ string_bytes out.old ++ string_text (member_view member.now).0 ++ 58 ∷ []) }
{
    push_string(alloc, out, member.name())?;
    push_word(out, ":")
}
