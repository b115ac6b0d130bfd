//! `check`: the schemas are read, the first and then the second, and then the certificate is judged while it is read.

ghost use Rattle.std.specs.Prelude.{◌≡◌, [], ◌∷◌, IfOk, OnErr, encode_utf8_all};
ghost use Rattle.js_guard.specs.RankedView.{entries_of};
ghost use Rattle.js_input.specs.OrderOfFiles.{BeginsInOrder};
ghost use Rattle.js_certificate.specs.FileVerdicts.{SameOrRose};
ghost use Rattle.js_commands.specs.CheckSaying.{CheckingSays, CertificateSays, IsReadWith, EndsUnrejected, IsUnrejectedWith, MayBegin};

use js_certificate::{FileFault, FileVerdict};
use js_doc::{Memory, Str};
use js_guard::RankedSchema;
use js_inclusion::judge_file;
use js_input::{SchemaInput, load_schema};
use js_outside::Shelf;
use js_par::{Gate, Workers};
use std::alloc::Global;
use std::thread::Threads;

/// What two schema files and a certificate's file come to.
#[derive(Drop)]
pub enum Checking {
    /// The certificate shows that each document that is valid for the first schema is valid for the second.
    Accepted,

    /// The number of the first line that breaks a rule, from 1, and the number of the least rule that it breaks.
    Rejected(u64, u8),

    /// The words of the first file's refusal after its role.
    FirstRefused(String),

    /// The words of the second file's refusal after its role.
    SecondRefused(String),

    /// The certificate has too many bytes.
    TooLong,

    /// A file couldn't be read, and a fault is counted.
    ReadFault,
}

/// Judges the certificate of one file for the schemas of two others. The first schema is read first, the second only
/// where the first is one, and the certificate only where both are, and not behind the batch that has a line which is
/// rejected. Where a read of the certificate fails, the lines before it are judged: a rejection among them is the
/// answer, and the read fault is it only where there is none.
pub fn check_files<R: Threads + Sync, G: Gate + Sync, H: Shelf>(
    workers: &Workers<'_, R, G>,
    alloc: Global,
    shelf: &mut H,
    first: &Str,
    second: &Str,
    certificate: &Str,
) -> Result<Checking, Memory>
    ensures told { H.told shelf.new ≡ H.told shelf.old }
    ensures says { IfOk result (CheckingSays (H.told shelf.old) first.now second.now certificate.now workers.now.count
        (H.faults shelf.old) (H.faults shelf.new)) }
    ensures memory { OnErr result (SameOrRose workers.now.count (H.faults shelf.old) (H.faults shelf.new)) }
    ensures read { IfOk result (IsReadWith (H.told shelf.old) (encode_utf8_all certificate.now) (H.left shelf.new)
        workers.now.count) }
    ensures unrejected { IfOk result (EndsUnrejected (H.told shelf.old) first.now second.now certificate.now
        (H.is_begun shelf.new) (H.left shelf.new) (H.begun shelf.old) (H.begun shelf.new)) }
    ensures begun { BeginsInOrder (H.told shelf.old)
        (encode_utf8_all first.now ∷ encode_utf8_all second.now ∷ encode_utf8_all certificate.now ∷ [])
        (H.begun shelf.old) (H.begun shelf.new) }
{
    let a = match load_schema(alloc, shelf, first)? {
        Some(SchemaInput::Read(schema)) => schema,
        Some(SchemaInput::Refused(words)) => return Ok(Checking::FirstRefused(words)),
        None => return Ok(Checking::ReadFault),
    };
    let b = match load_schema(alloc, shelf, second)? {
        Some(SchemaInput::Read(schema)) => schema,
        Some(SchemaInput::Refused(words)) => return Ok(Checking::SecondRefused(words)),
        None => return Ok(Checking::ReadFault),
    };
    check_certificate(workers, alloc, shelf, certificate, &a, &b)
}

/// Judges the certificate of a file for two schemas.
fn check_certificate<R: Threads + Sync, G: Gate + Sync, H: Shelf>(
    workers: &Workers<'_, R, G>,
    alloc: Global,
    shelf: &mut H,
    certificate: &Str,
    a: &RankedSchema,
    b: &RankedSchema,
) -> Result<Checking, Memory>
    ensures told { H.told shelf.new ≡ H.told shelf.old }
    ensures says { IfOk result (CertificateSays (entries_of a.now) (entries_of b.now) (H.told shelf.old)
        (encode_utf8_all certificate.now) workers.now.count (H.faults shelf.old) (H.faults shelf.new)) }
    ensures memory { OnErr result (SameOrRose workers.now.count (H.faults shelf.old) (H.faults shelf.new)) }
    ensures read { IfOk result (IsReadWith (H.told shelf.old) (encode_utf8_all certificate.now) (H.left shelf.new)
        workers.now.count) }
    ensures unrejected { IfOk result (IsUnrejectedWith (entries_of a.now) (entries_of b.now) (H.told shelf.old)
        (encode_utf8_all certificate.now) (H.is_begun shelf.new) (H.left shelf.new)) }
    ensures begun { MayBegin (encode_utf8_all certificate.now) (H.begun shelf.old) (H.begun shelf.new) }
{
    match judge_file(workers, alloc, shelf, certificate, a, b) {
        Ok(FileVerdict::Accepted) => Ok(Checking::Accepted),
        Ok(FileVerdict::Rejected(line, rule)) => Ok(Checking::Rejected(line, rule)),
        Err(FileFault::TooLong) => Ok(Checking::TooLong),
        Err(FileFault::Read) => Ok(Checking::ReadFault),
        Err(FileFault::Memory) => Err(Memory),
    }
}
