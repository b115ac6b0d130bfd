//! The words of a cycle of entries that apply to the same document.

ghost use Rattle.std.specs.Prelude.{◌≡◌, ℕ, ◌<◌, length, get_or, IfOk, string_bytes};
ghost use Rattle.js_schema.specs.SchemaView.{schema_view};
ghost use Rattle.js_report.specs.RefusalWords as R;

use crate::place::push_place;
use js_doc::Memory;
use js_schema::{EntryList, Schema};
use std::alloc::Global;

/// The word `cycle` and the places of its entries, in their order.
pub fn cycle_words(alloc: Global, schema: &Schema, cycle: &EntryList) -> Result<String, Memory>
    requires { (i : ℕ) → i < length cycle.now → get_or cycle.now i 0 < length (schema_view schema.now) }
    ensures { IfOk result (λ s. string_bytes s ≡ R.cycle_words (schema_view schema.now) cycle.now) }
{
    let mut words = String::from_str(alloc, "cycle")?;
    let entries = cycle.as_slice();
    for entry in entries {
        let place = schema.pointer(alloc, *entry)?;
        push_place(&mut words, &place, alloc)?;
    }
    Ok(words)
}
