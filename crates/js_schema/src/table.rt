//! A schema: the entries of its places, in the order of the walk, with the pointers by which they are numbered.
//!
//! A pointer is made on request, since all of them together can be much longer than the file.

ghost use Rattle.std.specs.Prelude.{◌≡◌, true, map};
ghost use Rattle.schemas.specs.Schema.{is_table};
ghost use Rattle.js_pointers.specs.PointersView.{pointers_of};
ghost use Rattle.js_schema.specs.View.{are_placed, entry_view};

use crate::entry::{Entry, Form};
use js_doc::Memory;
use js_json::Pointer;
use js_pointers::Pointers;
use std::alloc::Global;

/// A table of entries. Entry 0 is the root, each entry that is named is there, and each number has its range.
#[derive(Drop)]
pub struct Schema {
    pointers: Pointers,
    entries: Vec<Entry>,
    ghost placed: { are_placed (pointers_of pointers) entries.items ≡ true },
    ghost table: { is_table (map (entry_view (pointers_of pointers)) entries.items) ≡ true },
}

impl Schema {
    ghost use Rattle.std.specs.Prelude.{◌≡◌, ◌<◌, length, map, get_or, true, IfOk};
    ghost use Rattle.schemas.specs.Schema.{is_table};
    ghost use Rattle.js_pointers.specs.PointersView.{pointers_of};
    ghost use Rattle.js_schema.specs.View.{are_placed, entry_view, form_view};
    ghost use Rattle.js_schema.specs.SchemaView.{schema_view};

    /// Takes both over, without a copy.
    pub fn new(pointers: Pointers, entries: Vec<Entry>) -> Schema
        requires placed { are_placed (pointers_of pointers) entries.items ≡ true }
        requires table { is_table (map (entry_view (pointers_of pointers)) entries.items) ≡ true }
        ensures { schema_view result ≡ map (entry_view (pointers_of pointers)) entries.items }
    {
        Schema { pointers, entries }
    }

    /// The number of entries, at least one.
    pub fn len(&self) -> u32
        ensures value { result ≡ length (schema_view self.now) }
        ensures table { is_table (schema_view self.now) ≡ true }
    {
        self.entries.len() as u32
    }

    /// What the entry of that number accepts, lent in constant time.
    pub fn form(&self, entry: u32) -> &Form
        requires { entry < length (schema_view self.now) }
        ensures { form_view result.now ≡ get_or (map (λ e. e.form) (schema_view self.now)) entry
            (form_view result.now) }
    {
        &self.entries[entry as usize].form
    }

    /// The pointer of the entry's place. It takes time and memory in proportion to the pointer.
    pub fn pointer(&self, alloc: Global, entry: u32) -> Result<Pointer, Memory>
        requires { entry < length (schema_view self.now) }
        ensures { IfOk result (λ p. p ≡ get_or (map (λ e. e.pointer) (schema_view self.now)) entry p) }
    {
        self.pointers
            .pointer(alloc, self.entries[entry as usize].pointer)
    }
}
