//! `gen`: the two schemas of a family are made, and then compared. No file is read.

ghost use Rattle.std.specs.Prelude.{◌≤◌, IfOk};
ghost use Rattle.families.specs.Families.{greatest};
ghost use Rattle.js_doc.specs.JsonView.{view};
ghost use Rattle.js_gen.specs.KindView.{kind_view};
ghost use Rattle.js_commands.specs.GenSaying.{FamilyInclusionSays, ValuesSay};

use js_decide::Decided;
use js_doc::{Json, Memory};
use js_gen::{GenKind, generate};
use js_inclusion::compare;
use js_input::{SchemaInput, read_schema_value};
use js_par::{Gate, Workers};
use std::alloc::Global;
use std::thread::Threads;

/// What the schemas of a family come to.
#[derive(Drop)]
pub enum FamilyInclusion {
    /// A document that is valid for the first schema and not for the second, the certificate that there is none, or a
    /// limit; with what was looked at for it.
    Decided(Decided),

    /// The words of the first schema's refusal after its role.
    FirstRefused(String),

    /// The words of the second schema's refusal after its role.
    SecondRefused(String),
}

/// Compares the two schemas that the family has at `number`, as those of two files.
pub fn compare_family<R: Threads + Sync, G: Gate + Sync>(
    workers: &Workers<'_, R, G>,
    alloc: Global,
    kind: GenKind,
    number: u32,
) -> Result<FamilyInclusion, Memory>
    requires least { 1 ≤ number }
    requires most { number ≤ greatest (kind_view kind) }
    ensures { IfOk result (FamilyInclusionSays (kind_view kind) number) }
{
    let (first, second) = generate(alloc, kind, number)?;
    compare_values(workers, alloc, &first, &second)
}

fn compare_values<R: Threads + Sync, G: Gate + Sync>(
    workers: &Workers<'_, R, G>,
    alloc: Global,
    first: &Json,
    second: &Json,
) -> Result<FamilyInclusion, Memory>
    ensures { IfOk result (ValuesSay (view first.now) (view second.now)) }
{
    let a = match read_schema_value(alloc, first)? {
        SchemaInput::Read(schema) => schema,
        SchemaInput::Refused(words) => return Ok(FamilyInclusion::FirstRefused(words)),
    };
    match read_schema_value(alloc, second)? {
        SchemaInput::Read(b) => {
            let decided = compare(workers, alloc, &a, &b)?;
            Ok(FamilyInclusion::Decided(decided))
        }
        SchemaInput::Refused(words) => Ok(FamilyInclusion::SecondRefused(words)),
    }
}
