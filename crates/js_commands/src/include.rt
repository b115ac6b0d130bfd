//! `include` and `sat`: the first file is read, then the second where there is one, and then the schemas are compared.
//!
//! A schema has a document exactly where it isn't included in `false`, for which no document is valid; so `sat` compares
//! with that value.

ghost use Rattle.std.specs.Prelude.{◌≡◌, [], ◌∷◌, ◌++◌, Some, None, IfOk, OnErr, option_map, encode_utf8_all};
ghost use Rattle.js_guard.specs.RankedView.{entries_of};
ghost use Rattle.js_input.specs.OrderOfFiles.{BeginsInOrder};
ghost use Rattle.js_inclusion.specs.Nothing.{nothing};
ghost use Rattle.js_commands.specs.IncludeOutcome.{second_file};
ghost use Rattle.js_commands.specs.IncludeSaying.{InclusionSays, SchemasSay};

use js_decide::Verdict;
use js_doc::{Memory, Str};
use js_guard::RankedSchema;
use js_inclusion::{compare, false_schema};
use js_input::{SchemaInput, load_schema};
use js_outside::Shelf;
use js_par::{Gate, Workers};
use std::alloc::Global;
use std::thread::Threads;

/// What two schemas come to.
#[derive(Drop)]
pub enum Inclusion {
    /// A document that is valid for the first schema and not for the second, the certificate that there is none, or a
    /// limit.
    Decided(Verdict),

    /// The words of the first file's refusal after its role.
    FirstRefused(String),

    /// The words of the second file's refusal after its role.
    SecondRefused(String),

    /// A file couldn't be read, and a fault is counted.
    ReadFault,
}

/// Compares the schemas of two files; without a second file, the first file's with the value `false`. The first file is
/// read first, and the second only where the first is a schema.
pub fn compare_files<R: Threads + Sync, G: Gate + Sync, H: Shelf>(
    workers: &Workers<'_, R, G>,
    alloc: Global,
    shelf: &mut H,
    first: &Str,
    second: Option<&Str>,
) -> Result<Inclusion, Memory>
    ensures told { H.told shelf.new ≡ H.told shelf.old }
    ensures says { IfOk result (InclusionSays (H.told shelf.old) first.now (option_map (λ s. s.now) second.entry)
        (H.faults shelf.old) (H.faults shelf.new)) }
    ensures memory { OnErr result (H.faults shelf.new ≡ H.faults shelf.old) }
    ensures begun { BeginsInOrder (H.told shelf.old)
        (encode_utf8_all first.now ∷ second_file (option_map (λ s. s.now) second.entry)) (H.begun shelf.old)
        (H.begun shelf.new) }
{
    match second {
        Some(second) => compare_two(workers, alloc, shelf, first, second),
        None => compare_with_false(workers, alloc, shelf, first),
    }
}

fn compare_two<R: Threads + Sync, G: Gate + Sync, H: Shelf>(
    workers: &Workers<'_, R, G>,
    alloc: Global,
    shelf: &mut H,
    first: &Str,
    second: &Str,
) -> Result<Inclusion, Memory>
    ensures told { H.told shelf.new ≡ H.told shelf.old }
    ensures says { IfOk result
        (InclusionSays (H.told shelf.old) first.now (Some second.now) (H.faults shelf.old) (H.faults shelf.new)) }
    ensures memory { OnErr result (H.faults shelf.new ≡ H.faults shelf.old) }
    ensures begun { BeginsInOrder (H.told shelf.old) (encode_utf8_all first.now ∷ encode_utf8_all second.now ∷ [])
        (H.begun shelf.old) (H.begun shelf.new) }
{
    let a = match load_schema(alloc, shelf, first)? {
        Some(SchemaInput::Read(schema)) => schema,
        Some(SchemaInput::Refused(words)) => return Ok(Inclusion::FirstRefused(words)),
        None => return Ok(Inclusion::ReadFault),
    };
    match load_schema(alloc, shelf, second)? {
        Some(SchemaInput::Read(b)) => compared(workers, alloc, &a, &b),
        Some(SchemaInput::Refused(words)) => Ok(Inclusion::SecondRefused(words)),
        None => Ok(Inclusion::ReadFault),
    }
}

fn compare_with_false<R: Threads + Sync, G: Gate + Sync, H: Shelf>(
    workers: &Workers<'_, R, G>,
    alloc: Global,
    shelf: &mut H,
    first: &Str,
) -> Result<Inclusion, Memory>
    ensures told { H.told shelf.new ≡ H.told shelf.old }
    ensures says { IfOk result
        (InclusionSays (H.told shelf.old) first.now None (H.faults shelf.old) (H.faults shelf.new)) }
    ensures memory { OnErr result (H.faults shelf.new ≡ H.faults shelf.old) }
    ensures begun { H.begun shelf.new ≡ H.begun shelf.old ++ encode_utf8_all first.now ∷ [] }
{
    match load_schema(alloc, shelf, first)? {
        Some(SchemaInput::Read(a)) => compared_with_false(workers, alloc, &a),
        Some(SchemaInput::Refused(words)) => Ok(Inclusion::FirstRefused(words)),
        None => Ok(Inclusion::ReadFault),
    }
}

fn compared_with_false<R: Threads + Sync, G: Gate + Sync>(
    workers: &Workers<'_, R, G>,
    alloc: Global,
    a: &RankedSchema,
) -> Result<Inclusion, Memory>
    ensures { IfOk result (SchemasSay (entries_of a.now) nothing) }
{
    let b = false_schema(alloc)?;
    compared(workers, alloc, a, &b)
}

fn compared<R: Threads + Sync, G: Gate + Sync>(
    workers: &Workers<'_, R, G>,
    alloc: Global,
    a: &RankedSchema,
    b: &RankedSchema,
) -> Result<Inclusion, Memory>
    ensures { IfOk result (SchemasSay (entries_of a.now) (entries_of b.now)) }
{
    let decided = compare(workers, alloc, a, b)?;
    Ok(Inclusion::Decided(decided.verdict))
}
