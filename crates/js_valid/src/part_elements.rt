//! What a form asks of the elements of a part, where the verdicts of all entries on these are known.

ghost use Rattle.std.specs.Prelude.{◌≡◌, ◌<◌, List, true, not, nat_lt, map, length};
ghost use Rattle.documents.specs.Tests.{every};
ghost use Rattle.schemas.specs.Entry.{Entry};
ghost use Rattle.schemas.specs.Schema.{lists, meets, one};
ghost use Rattle.shared_documents.specs.Part.{Part};
ghost use Rattle.shared_documents.specs.Unshared.{unshared};
ghost use Rattle.js_schema.specs.View.{form_view};
ghost use Rattle.js_valid.specs.PartTables.{KnowsTables, table_at};
ghost use Rattle.js_valid.specs.Parts.{flag, of_element};
ghost use Rattle.js_valid.specs.Plan.{valid_at};
ghost use Rattle.js_valid.specs.Requests.{contained, each_at, parts_list};

use crate::ask::{contained_entry, element_entry};
use crate::verdicts::Verdicts;
use js_doc::{PartId, PartIds};
use js_schema::Form;

/// The verdict of an entry on a part.
pub(crate) fn holds_at(tables: &[Verdicts], id: PartId, entry: u32) -> bool
    requires { id.0 < length tables.now }
    ensures { result ≡ flag (table_at tables.now id.0) entry }
{
    tables[id.index()].holds(entry)
}

/// Whether all elements are as the form asks.
pub(crate) fn are_elements_fine(form: &Form, ids: &PartIds, tables: &[Verdicts]) -> bool
    requires { every (λ i. nat_lt i (length tables.now)) ids.now ≡ true }
    ensures { (es : List Entry) (ps : List Part) → KnowsTables es ps tables.now
        → result ≡ parts_list (valid_at es) (form_view form.now) (map (unshared ps) ids.now) }
{
    are_elements_met(form, ids, tables) && is_contained(form, ids, tables)
}

fn are_elements_met(form: &Form, ids: &PartIds, tables: &[Verdicts]) -> bool
    requires { every (λ i. nat_lt i (length tables.now)) ids.now ≡ true }
    ensures { (es : List Entry) (ps : List Part) → KnowsTables es ps tables.now
        → result ≡ each_at (λ i d. every (λ q. valid_at es q d) (of_element (form_view form.now) i)) 0
        (map (unshared ps) ids.now) }
{
    let numbers = ids.as_slice();
    for (place, id) in numbers.iter().enumerate() {
        if !is_element_met(element_entry(form, place), tables, *id) {
            return false;
        }
    }
    true
}

pub(crate) fn is_element_met(entry: Option<u32>, tables: &[Verdicts], id: PartId) -> bool
    requires { id.0 < length tables.now }
    ensures { (es : List Entry) (ps : List Part) → KnowsTables es ps tables.now
        → result ≡ every (λ q. valid_at es q (unshared ps id.0)) (lists one entry) }
{
    match entry {
        None => true,
        Some(entry) => holds_at(tables, id, entry),
    }
}

fn is_contained(form: &Form, ids: &PartIds, tables: &[Verdicts]) -> bool
    requires { every (λ i. nat_lt i (length tables.now)) ids.now ≡ true }
    ensures { (es : List Entry) (ps : List Part) → KnowsTables es ps tables.now
        → result ≡ meets (λ q. not (every (λ d. not (valid_at es q d)) (map (unshared ps) ids.now)))
        (contained (form_view form.now)) }
{
    match contained_entry(form) {
        None => true,
        Some(entry) => !none_meets(entry, ids, tables),
    }
}

fn none_meets(entry: u32, ids: &PartIds, tables: &[Verdicts]) -> bool
    requires { every (λ i. nat_lt i (length tables.now)) ids.now ≡ true }
    ensures { (es : List Entry) (ps : List Part) → KnowsTables es ps tables.now
        → result ≡ every (λ d. not (valid_at es entry d)) (map (unshared ps) ids.now) }
{
    for id in ids.as_slice() {
        if holds_at(tables, *id, entry) {
            return false;
        }
    }
    true
}
