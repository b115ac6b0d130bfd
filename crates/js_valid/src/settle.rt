//! Verdicts of the entries that are applied to a document, one after another, each after those that it names in place.

ghost use Rattle.std.specs.Prelude.{◌≡◌, ℕ, ◌<◌, ◌&&◌, ◌||◌, true, false, IsOk, length};
ghost use Rattle.draft06.specs.EntryValidity.{form_at};
ghost use Rattle.js_doc.specs.View.{view};
ghost use Rattle.js_schema.specs.SchemaView.{schema_view};
ghost use Rattle.js_match.specs.Matching.{matches};
ghost use Rattle.js_match.specs.Places.{is_at};
ghost use Rattle.js_valid.specs.AskedEntries.{IsAsked};
ghost use Rattle.js_valid.specs.Parts.{flag, parts};
ghost use Rattle.js_valid.specs.Plan.{valid_at};
ghost use Rattle.js_valid.specs.Requests.{FinePart};
ghost use Rattle.js_valid.specs.Standing.{place_asks};

use crate::asked::Asked;
use crate::stand::meets_in_place;
use crate::tables::{test_at, write};
use js_doc::{Doc, Memory};
use js_schema::Schema;

/// Writes the verdicts into the table, from what is known of the document's parts. What the table has of other entries
/// isn't looked at.
pub(crate) fn settle(
    schema: &Schema,
    doc: &Doc,
    asked: &Asked,
    fine: &[bool],
    held: &mut Vec<bool>,
) -> Result<(), Memory>
    requires asked { IsAsked (schema_view schema.now) (view doc.now) asked.now }
    requires parts { FinePart (schema_view schema.now) asked.now.owners.items fine.now
        (λ e. parts matches (valid_at (schema_view schema.now)) (form_at (schema_view schema.now) e) (view doc.now)) }
    ensures { IsOk result → (q : ℕ) → (is_at q asked.now.owners.items || is_at q asked.now.fallen.items) ≡ true
        → flag held.new.items q ≡ valid_at (schema_view schema.now) q (view doc.now) }
{
    refuse_each(held, &asked.fallen)?;
    let mut left = asked.owners.len();
    while left > 0 {
        left -= 1;
        let entry = asked.owners[left];
        let verdict = verdict_of(schema, entry, held, doc, test_at(fine, left));
        write(held, entry, verdict)?;
    }
    Ok(())
}

fn refuse_each(held: &mut Vec<bool>, entries: &[u32]) -> Result<(), Memory>
    ensures { IsOk result → (q : ℕ) → is_at q entries.now ≡ true → flag held.new.items q ≡ false }
{
    for entry in entries {
        write(held, *entry, false)?;
    }
    Ok(())
}

fn verdict_of(schema: &Schema, entry: u32, held: &[bool], doc: &Doc, fine: bool) -> bool
    requires { entry < length (schema_view schema.now) }
    ensures { result ≡ (fine && place_asks (flag held.now) (form_at (schema_view schema.now) entry) (view doc.now)) }
{
    fine && own_in_place(schema, entry, held, doc)
}

fn own_in_place(schema: &Schema, entry: u32, held: &[bool], doc: &Doc) -> bool
    requires { entry < length (schema_view schema.now) }
    ensures { result ≡ place_asks (flag held.now) (form_at (schema_view schema.now) entry) (view doc.now) }
{
    meets_in_place(schema.form(entry), held, doc)
}
