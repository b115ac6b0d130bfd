//! What a form asks of the values of a part's members, where the verdicts of all entries on these are known.

ghost use Rattle.std.specs.Prelude.{◌≡◌, ◌<◌, List, true, nat_lt, map, length, IfOk};
ghost use Rattle.documents.specs.Tests.{every};
ghost use Rattle.schemas.specs.Entry.{Entry};
ghost use Rattle.schemas.specs.Schema.{form_in_range};
ghost use Rattle.shared_documents.specs.Part.{Part};
ghost use Rattle.shared_documents.specs.Unshared.{unshared};
ghost use Rattle.js_schema.specs.View.{form_view};
ghost use Rattle.js_match.specs.Matching.{matches};
ghost use Rattle.js_valid.specs.PartTables.{KnowsTables};
ghost use Rattle.js_valid.specs.Parts.{of_member};
ghost use Rattle.js_valid.specs.Plan.{valid_at};

use crate::ask::{member_entries, only_entry};
use crate::part_elements::{holds_at, is_element_met};
use crate::verdicts::Verdicts;
use js_doc::{Memory, PartId, PartMap, PartMember};
use js_schema::Form;
use std::alloc::Global;

/// Whether all values are as the form asks. Names are judged apart.
pub(crate) fn are_members_met(
    alloc: Global,
    form: &Form,
    named: &PartMap,
    tables: &[Verdicts],
) -> Result<bool, Memory>
    requires range { form_in_range (form_view form.now) ≡ true }
    requires below { every (λ i. nat_lt i (length tables.now)) (map (λ m. m.1) named.now) ≡ true }
    ensures { IfOk result (λ b. (es : List Entry) (ps : List Part) → KnowsTables es ps tables.now
        → b ≡ every (λ m. every (λ q. valid_at es q (unshared ps m.1)) (of_member matches (form_view form.now) m.0))
        named.now) }
{
    let members = named.as_slice();
    for member in members {
        if !is_member_met(alloc, form, member, tables)? {
            return Ok(false);
        }
    }
    Ok(true)
}

fn is_member_met(
    alloc: Global,
    form: &Form,
    member: &PartMember,
    tables: &[Verdicts],
) -> Result<bool, Memory>
    requires range { form_in_range (form_view form.now) ≡ true }
    requires below { member.now.part.0 < length tables.now }
    ensures { IfOk result (λ b. (es : List Entry) (ps : List Part) → KnowsTables es ps tables.now
        → b ≡ every (λ q. valid_at es q (unshared ps member.now.part.0))
        (of_member matches (form_view form.now) member.now.name)) }
{
    if let Form::Keywords(keywords) = form
        && keywords.objects.pattern_properties.is_none()
    {
        let entry = only_entry(keywords, &member.name);
        return Ok(is_element_met(entry, tables, member.part));
    }
    let entries = member_entries(alloc, form, &member.name)?;
    Ok(are_all_met(&entries, tables, member.part))
}

fn are_all_met(entries: &[u32], tables: &[Verdicts], id: PartId) -> bool
    requires { id.0 < length tables.now }
    ensures { (es : List Entry) (ps : List Part) → KnowsTables es ps tables.now
        → result ≡ every (λ q. valid_at es q (unshared ps id.0)) entries.now }
{
    entries.iter().all(|entry| holds_at(tables, id, *entry))
}
