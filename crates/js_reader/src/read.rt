//! Reading a JSON value as a schema.
//!
//! A first pass walks from schema to schema and checks each place; a second makes an entry of each place. Places are
//! found by the numbers of their pointers, and a pointer's number from that of the one above it and its last token. So
//! time and memory are in proportion to the values that the schema reaches, whatever the lengths of the names above
//! them. The program's stack is used for the values of `enum` and `const` alone, as deep as they nest.

ghost use Rattle.std.specs.Prelude.{◌≡◌, ◌<◌, true, None, Ok, map, length, get_or, IfOk};
ghost use Rattle.schemas.specs.Walk.{places};
ghost use Rattle.schemas.specs.Reading.{first_fault};
ghost use Rattle.schemas.specs.Entries as E;
ghost use Rattle.js_doc.specs.JsonView.{view};
ghost use Rattle.js_keywords.specs.Reading.{rules};
ghost use Rattle.js_walk.specs.FileView.{root_of};
ghost use Rattle.js_walk.specs.PlacesView.{AreTargets};
ghost use Rattle.js_schema.specs.NoKeywords.{HasNone};
ghost use Rattle.js_reader.specs.NumbersView.{numbered, pointers_in, targets_in};
ghost use Rattle.js_schema.specs.View.{are_placed, entry_view};
ghost use Rattle.js_reader.specs.Answering.{Answers};

use crate::forms::FormReader;
use crate::keywords::no_keywords;
use crate::numbers::Numbers;
use js_doc::{Json, Memory};
use js_keywords::SchemaFault;
use js_schema::{Entry, Schema};
use js_walk::{File, walk};
use std::alloc::Global;

/// The schema that `json` is, or what is wrong in it first, in the order of the walk.
pub fn read_schema(alloc: Global, json: &Json) -> Result<Schema, SchemaFault>
    ensures { Answers (E.read rules (view json.now)) result }
{
    let file = File::new(json);
    let places = walk(alloc, &file)?;
    let numbers = Numbers::new(places);
    let entries = read_entries(alloc, &file, &numbers)?;
    Ok(Schema::new(numbers.into_pointers(), entries))
}

/// The entries of all places, in their order.
#[tactic(auto, using(js_schema::proofs::EntriesLemmas::placed))]
fn read_entries<'a>(
    alloc: Global,
    file: &File<'a>,
    numbers: &Numbers<'a>,
) -> Result<Vec<Entry>, Memory>
    requires places { places rules (root_of file.now) ≡ numbered numbers.now }
    requires faultless { first_fault rules (root_of file.now) ≡ None }
    requires targets { AreTargets (root_of file.now) (pointers_in numbers.now) (numbered numbers.now)
        (targets_in numbers.now) }
    ensures placed { IfOk result (λ entries. are_placed (pointers_in numbers.now) entries.items ≡ true) }
    ensures entries { IfOk result (λ entries. map (entry_view (pointers_in numbers.now)) entries.items
        ≡ E.entries_at rules (root_of file.now) (numbered numbers.now)) }
{
    let none = no_keywords(alloc)?;
    let reader = FormReader {
        file,
        numbers,
        none: &none,
    };
    let mut entries = Vec::with_capacity(alloc, numbers.len())?;
    for i in 0..numbers.len() {
        entries.push(entry(alloc, &reader, i)?)?;
    }
    Ok(entries)
}

fn entry(alloc: Global, reader: &FormReader, number: usize) -> Result<Entry, Memory>
    requires none { HasNone reader.now.none.now.value }
    requires places { places rules (root_of reader.now.file.now) ≡ numbered reader.now.numbers.now }
    requires faultless { first_fault rules (root_of reader.now.file.now) ≡ None }
    requires targets { AreTargets (root_of reader.now.file.now) (pointers_in reader.now.numbers.now)
        (numbered reader.now.numbers.now) (targets_in reader.now.numbers.now) }
    requires number { number < length (numbered reader.now.numbers.now) }
    ensures placed { IfOk result (λ e. e.pointer < length (pointers_in reader.now.numbers.now)) }
    ensures entry { IfOk result (λ e. entry_view (pointers_in reader.now.numbers.now) e ≡ get_or
        (E.entries_at rules (root_of reader.now.file.now) (numbered reader.now.numbers.now)) number
        (entry_view (pointers_in reader.now.numbers.now) e)) }
{
    let (pointer, value) = reader.numbers.place(number);
    let target = reader.numbers.target(number);
    let form = reader.form(alloc, pointer, target, value)?;
    Ok(Entry { pointer, form })
}
