//! That the text of a program's table is read back: its strings and names are scalar values, and its numbers have 128
//! bits.
//!
//! Nothing is made here. The types of the values say it, and each part is looked at once so that it is known of all.

ghost use Rattle.std.specs.Prelude.{◌≡◌, ◌<◌, true, length};
ghost use Rattle.documents.specs.Tests.{every, is_scalar};
ghost use Rattle.shared_documents.specs.Part as P;
ghost use Rattle.document_texts.specs.PartsRead.{IsRead};
ghost use Rattle.document_texts.specs.PartsText.{parts_text};
ghost use Rattle.js_doc.specs.PartMembers.{member_view};
ghost use Rattle.js_doc.specs.PartView.{part_view};
ghost use Rattle.js_text.specs.Scalars.{has_scalar_name, has_scalars};

use js_doc::{Part, PartId, PartMap, PartMember, Parts, Str};

/// The text of a table with some part is read back as the table.
pub(crate) fn is_told(parts: &Parts)
    requires { 0 < length parts.now }
    ensures { IsRead parts.now (parts_text parts.now) }
{
    for number in 0..parts.len() {
        part_is_told(parts.get(PartId(number)));
    }
}

fn part_is_told(part: &Part)
    ensures { has_scalars (part_view part.now) ≡ true }
{
    match part {
        Part::Num(number) => number_is_told(*number),
        Part::Text(text) => text_is_told(text),
        Part::Members(members) => names_are_told(members),
        Part::Null | Part::Bool(_) | Part::List(_) => (),
    }
}

fn number_is_told(number: i128)
    ensures { has_scalars (P.number number) ≡ true }
{
    let _ = number;
}

fn text_is_told(text: &Str)
    ensures { every is_scalar text.now ≡ true }
{
    let _ = text.as_text();
}

fn names_are_told(members: &PartMap)
    ensures { every has_scalar_name members.now ≡ true }
{
    for member in members.as_slice() {
        name_is_told(member);
    }
}

fn name_is_told(member: &PartMember)
    ensures { has_scalar_name (member_view member.now) ≡ true }
{
    text_is_told(&member.name);
}
