//! The entries at which references end: found once for a schema, so that no chain of references is followed for a part
//! of a document.

ghost use Rattle.std.specs.Prelude.{◌≡◌, ℕ, ◌<◌, IfOk, length, get_or, nat_eq, if◌then◌else◌};
ghost use Rattle.draft06.specs.EntryValidity.{form_at};
ghost use Rattle.js_schema.specs.View.{form_view};
ghost use Rattle.js_schema.specs.SchemaView.{schema_view};
ghost use Rattle.js_valid.specs.Plain.{reference};
ghost use Rattle.js_valid.specs.Plan.{HasTargets, IsPlan, target_at};

use crate::tables::all_entries;
use js_doc::Memory;
use js_schema::{Form, Schema};
use std::alloc::Global;

/// The target of each entry: where it refers to another one, that one's target, and else itself. The order has that one
/// before it, so its target is known. Time and memory in the number of entries.
pub(crate) fn targets_of(alloc: Global, schema: &Schema, order: &[u32]) -> Result<Vec<u32>, Memory>
    requires { IsPlan (schema_view schema.now) order.now }
    ensures { IfOk result (λ targets. HasTargets (schema_view schema.now) targets.items) }
{
    let mut targets = all_entries(alloc, schema.len())?;
    for entry in order {
        if let Some(next) = reference_at(schema, *entry) {
            let target = target_at(&targets, next);
            put(&mut targets, *entry, target);
        }
    }
    Ok(targets)
}

/// The entry's target; past the last one it is the entry itself.
pub(crate) fn target_at(targets: &[u32], entry: u32) -> u32
    ensures { result ≡ target_at targets.now entry }
{
    let number = entry as usize;
    if number < targets.len() {
        return targets[number];
    }
    entry
}

fn put(targets: &mut Vec<u32>, entry: u32, target: u32)
    requires { entry < length targets.old.items }
    ensures len { length targets.new.items ≡ length targets.old.items }
    ensures value { (j : ℕ) → target_at targets.new.items j
        ≡ (if nat_eq entry j then target else target_at targets.old.items j) }
{
    targets[entry as usize] = target;
}

fn reference_at(schema: &Schema, entry: u32) -> Option<u32>
    ensures { result ≡ reference (form_at (schema_view schema.now) entry) }
{
    if entry >= schema.len() {
        return None;
    }
    reference_of(schema.form(entry))
}

fn reference_of(form: &Form) -> Option<u32>
    ensures { result ≡ reference (form_view form.now) }
{
    match form {
        Form::Ref(target) => Some(*target),
        _ => None,
    }
}
