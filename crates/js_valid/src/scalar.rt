//! Verdicts of plain entries on a document without parts. Each depends on what its form says of the document itself, so
//! no table of verdicts is made for them.

ghost use Rattle.std.specs.Prelude.{◌≡◌, IfOk, [], map};
ghost use Rattle.documents.specs.Tests.{every};
ghost use Rattle.draft06.specs.EntryValidity.{form_at};
ghost use Rattle.js_doc.specs.View.{view};
ghost use Rattle.js_schema.specs.SchemaView.{schema_view};
ghost use Rattle.js_match.specs.Matching.{matches};
ghost use Rattle.js_valid.specs.Parts.{flag, own};
ghost use Rattle.js_valid.specs.Plain.{is_plain, is_scalar};
ghost use Rattle.js_valid.specs.Plan.{HasPlan, table_of};

use crate::own::meets_own;
use crate::plain::is_plain;
use crate::validator::Validator;
use js_doc::{Doc, Memory};
use js_schema::Schema;

/// Whether the document has no parts.
pub(crate) fn is_scalar(doc: &Doc) -> bool
    ensures { result ≡ is_scalar (view doc.now) }
{
    match doc {
        Doc::List(_) | Doc::Members(_) => false,
        _ => true,
    }
}

/// Whether each of the entries is plain.
pub(crate) fn are_plain(schema: &Schema, entries: &[u32]) -> bool
    ensures { result ≡ every (λ q. is_plain (form_at (schema_view schema.now) q)) entries.now }
{
    entries.iter().all(|entry| is_entry_plain(schema, *entry))
}

fn is_entry_plain(schema: &Schema, entry: u32) -> bool
    ensures { result ≡ is_plain (form_at (schema_view schema.now) entry) }
{
    if entry >= schema.len() {
        return true;
    }
    is_plain(schema.form(entry))
}

/// What each of the entries says of the document itself. Time for what it says, each time that it stands in the list.
pub(crate) fn own_verdicts(
    validator: &Validator<'_>,
    doc: &Doc,
    entries: &[u32],
) -> Result<Vec<bool>, Memory>
    requires { HasPlan validator.now }
    ensures { IfOk result (λ vs. vs.items
        ≡ map (λ q. own matches (flag []) (form_at (table_of validator.now) q) (view doc.now)) entries.now) }
{
    let mut verdicts = Vec::with_capacity(validator.alloc, entries.len())?;
    for entry in entries {
        verdicts.push(is_own_met(validator, *entry, doc)?)?;
    }
    Ok(verdicts)
}

fn is_own_met(validator: &Validator<'_>, entry: u32, doc: &Doc) -> Result<bool, Memory>
    requires { HasPlan validator.now }
    ensures { IfOk result (λ b. b ≡ own matches (flag []) (form_at (table_of validator.now) entry) (view doc.now)) }
{
    let schema = validator.schema;
    if entry >= schema.len() {
        return Ok(false);
    }
    let choices = validator.choices(entry);
    meets_own(validator.alloc, schema.form(entry), choices, &[], doc)
}
