//! The text of a table of parts.

ghost use Rattle.std.specs.Prelude.{◌≡◌, ◌++◌, ◌∷◌, ◌+◌, map, length, IfOk, OnOk, string_bytes};
ghost use Rattle.document_texts.specs.Scalars.{enclosed};
ghost use Rattle.document_texts.specs.PartsText as T;
ghost use Rattle.js_doc.specs.PartMembers.{member_view};
ghost use Rattle.js_doc.specs.PartView.{part_view};

use crate::scalars::{push_comma, push_integer, push_string, push_truth, push_word};
use js_doc::{Memory, Part, PartId, PartIds, PartMap, PartMember, Parts};
use std::alloc::Global;

/// The text of a table, of which `root` has to be the last part.
pub fn parts_text(alloc: Global, parts: &Parts, root: PartId) -> Result<Vec<u8>, Memory>
    requires { root.0 + 1 ≡ length parts.now }
    ensures { IfOk result (λ v. v.items ≡ T.parts_text parts.now) }
{
    let mut out = String::new(alloc);
    let count = root.index() + 1;
    write!(out, "parts {count}\n")?;
    for number in 0..parts.len() {
        push_line(alloc, &mut out, number, parts.get(PartId(number)))?;
    }
    Ok(out.into_bytes())
}

fn push_line(alloc: Global, out: &mut String, number: u32, part: &Part) -> Result<(), Memory>
    ensures { OnOk result (string_bytes out.new ≡ string_bytes out.old ++ T.line_text number (part_view part.now)) }
{
    write!(out, "{number} ")?;
    push_part(alloc, out, part)?;
    push_word(out, "\n")
}

pub(crate) fn push_part(alloc: Global, out: &mut String, part: &Part) -> Result<(), Memory>
    ensures { OnOk result (string_bytes out.new ≡ string_bytes out.old ++ T.part_text (part_view part.now)) }
{
    match part {
        Part::Null => push_word(out, "null"),
        Part::Bool(truth) => push_truth(out, *truth),
        Part::Num(number) => push_integer(out, *number),
        Part::Text(text) => push_string(alloc, out, text),
        Part::List(ids) => push_ids(out, ids),
        Part::Members(members) => push_named(alloc, out, members),
    }
}

fn push_id(out: &mut String, id: PartId) -> Result<(), Memory>
    ensures { OnOk result (string_bytes out.new ≡ string_bytes out.old ++ T.reference_text id.0) }
{
    let number = id.0;
    write!(out, "#{number}")?;
    Ok(())
}

fn push_ids(out: &mut String, ids: &PartIds) -> Result<(), Memory>
    ensures { OnOk result (string_bytes out.new
        ≡ string_bytes out.old ++ enclosed 91 (map T.reference_text ids.now) 93) }
{
    push_word(out, "[")?;
    let mut first = true;
    for id in ids.as_slice() {
        push_comma(out, first)?;
        push_id(out, *id)?;
        first = false;
    }
    out.push_str("]")?;
    Ok(())
}

fn push_named(alloc: Global, out: &mut String, members: &PartMap) -> Result<(), Memory>
    ensures { OnOk result (string_bytes out.new
        ≡ string_bytes out.old ++ enclosed 123 (map T.named_text members.now) 125) }
{
    push_word(out, "{")?;
    let mut first = true;
    for member in members.as_slice() {
        push_comma(out, first)?;
        push_member(alloc, out, member)?;
        first = false;
    }
    out.push_str("}")?;
    Ok(())
}

fn push_member(alloc: Global, out: &mut String, member: &PartMember) -> Result<(), Memory>
    ensures { OnOk result (string_bytes out.new
        ≡ string_bytes out.old ++ T.named_text (member_view member.now)) }
{
    push_string(alloc, out, &member.name)?;
    push_word(out, ":")?;
    push_id(out, member.part)
}
