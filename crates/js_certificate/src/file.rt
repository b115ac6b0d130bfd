//! A certificate in a file, judged as it is read.

ghost use Rattle.std.specs.Prelude.{◌≡◌, ◌⊎◌, ◌<◌, ◌≤◌, ◌^◌, [], ◌∷◌, ◌++◌, List, ℕ, length, true, None, Ok, Err, IfOk, IfErr, vec_len};
ghost use Rattle.documents.specs.Document.{Document, is_document};
ghost use Rattle.positions.specs.Holds.{holds};
ghost use Rattle.verdicts.specs.Verdict.{verdict_of_bytes};
ghost use Rattle.js_certificate.specs.JudgeView.{table_of, premise_of, conclusion_of, bytes_of, waiting_of, fault_of, StandsForBytes};
ghost use Rattle.js_certificate.specs.FileVerdicts.{verdict_view, verdict_of, IsVerdictOf, FaultSays, CountsJudged, IsRejection};
ghost use Rattle.js_certificate.specs.ReadBehind.{most_waiting, longest_piece, IsReadFor};
ghost use Rattle.js_certificate.specs.Unrejected.{NoneIsRejected, StopsUnrejected, FailsUnrejected};
ghost use Rattle.js_certificate.specs.FileRead.{StandsForFile};
ghost use Rattle.js_certificate.specs.declared.file.FileVerdict.TheVariants.{Accepted};
ghost use Rattle.js_certificate.specs.declared.file.FileFault.TheVariants as fault;

use crate::judge::CertificateJudge;
use js_algebra::{Core, Pos};
use js_checker::CheckFault;
use js_outside::{BeginFault, Shelf};
use js_par::{Gate, Workers};
use std::alloc::{AllocError, Global};
use std::thread::Threads;

/// How many bytes a file may have.
pub const LONGEST_FILE: u64 = 9_223_372_036_854_775_807;

/// How many bytes a read requests.
const BUFFER_LENGTH: usize = 65_536;

/// What is judged of a file.
#[derive(Clone, Copy, PartialEq, Eq, Debug)]
pub enum FileVerdict {
    /// The file is a certificate.
    Accepted,

    /// The number of a line, from 1, and the number of the least rule that it breaks.
    Rejected(u64, u8),
}

/// Why a file was not judged.
#[derive(Clone, Copy, PartialEq, Eq, Debug)]
pub enum FileFault {
    /// More than [`LONGEST_FILE`] bytes were read, and no line before the last piece of them is rejected.
    TooLong,

    /// The file was not begun, or a read failed and no line before it is rejected. The shelf's count of faults rose.
    Read,

    /// Memory was refused.
    Memory,
}

impl From<AllocError> for FileFault {
    ghost use Rattle.js_certificate.specs.declared.file.FileFault.TheVariants.{Memory};

    ghost from_gives = { λ _ fault. fault ≡ Memory };

    fn from(_: AllocError) -> FileFault {
        FileFault::Memory
    }
}

/// Judges a file that is to show that every document of which the position `a` holds has `b` holding. No other file is
/// begun, and nothing is read behind the piece that completes a batch with a line which is rejected. A batch of one
/// worker is a line.
///
/// Where a read fails, the lines before it are judged: a rejection among them is the answer, and the count of faults
/// rose. So a fault is the answer only where no whole line that was read before it is rejected, for every number of
/// workers.
pub fn judge_file<R: Threads + Sync, G: Gate + Sync, H: Shelf>(
    workers: &Workers<'_, R, G>,
    alloc: Global,
    shelf: &mut H,
    name: &str,
    core: &Core,
    a: Pos,
    b: Pos,
) -> Result<FileVerdict, FileFault>
    requires a { a.0 < length core.now.positions }
    requires b { b.0 < length core.now.positions }
    ensures told { H.told shelf.new ≡ H.told shelf.old }
    ensures verdict { IfOk result (IsVerdictOf core.now.positions a.0 b.0 (H.told shelf.old) name.now) }
    ensures counted { IfOk result (CountsJudged workers.now.count (H.faults shelf.old) (H.faults shelf.new)) }
    ensures fault { IfErr result (FaultSays (H.told shelf.old) name.now workers.now.count (H.faults shelf.old)
        (H.faults shelf.new)) }
    ensures read { IfOk result (IsReadFor (H.told shelf.old) name.now (H.left shelf.new) workers.now.count) }
    ensures unrejected { IfErr result (FailsUnrejected (verdict_of_bytes core.now.positions a.0 b.0) (H.told shelf.old)
        name.now (H.is_begun shelf.new) (H.left shelf.new)) }
    ensures begun { H.begun shelf.new ≡ H.begun shelf.old ++ name.now ∷ [] }

    // What is accepted is right.
    ensures sound { result ≡ Ok Accepted → (J : Document) → is_document J ≡ true
        → holds core.now.positions a.0 J ≡ true → holds core.now.positions b.0 J ≡ true }
{
    match shelf.begin(name) {
        Err(BeginFault::Failed) => return Err(FileFault::Read),
        Err(BeginFault::Memory) => return Err(FileFault::Memory),
        Ok(()) => {}
    }
    let buffer = empty_buffer(alloc)?;
    let mut judge = CertificateJudge::new(alloc, core, a, b);
    let verdict = judge_pieces(workers, alloc, shelf, buffer, &mut judge);
    // By a call, so that what a judge holds is no matter of this function.
    drop(judge);
    verdict
}

/// Judges what is left of the file that was begun.
fn judge_pieces<R: Threads + Sync, G: Gate + Sync, H: Shelf>(
    workers: &Workers<'_, R, G>,
    alloc: Global,
    shelf: &mut H,
    mut buffer: Vec<u8>,
    judge: &mut CertificateJudge<'_>,
) -> Result<FileVerdict, FileFault>
    requires room { 0 < vec_len buffer }
    requires short { vec_len buffer ≤ longest_piece }
    requires few { bytes_of judge.old < 2 ^ 63 }
    requires going { fault_of judge.old ≡ None }
    requires waits { waiting_of judge.old ≤ most_waiting workers.now.count }
    ensures told { H.told shelf.new ≡ H.told shelf.old }
    ensures verdict { IfOk result (λ verdict. (name : List ℕ)
        → StandsForFile judge.old (H.told shelf.old) name (H.left shelf.old)
        → IsVerdictOf (table_of judge.old) (premise_of judge.old) (conclusion_of judge.old) (H.told shelf.old) name
        verdict) }
    ensures counted { IfOk result (CountsJudged workers.now.count (H.faults shelf.old) (H.faults shelf.new)) }
    ensures fault { IfErr result (λ fault. (name : List ℕ)
        → StandsForFile judge.old (H.told shelf.old) name (H.left shelf.old)
        → FaultSays (H.told shelf.old) name workers.now.count (H.faults shelf.old) (H.faults shelf.new) fault) }
    ensures read { IfOk result (λ verdict. (name : List ℕ)
        → StandsForFile judge.old (H.told shelf.old) name (H.left shelf.old)
        → IsReadFor (H.told shelf.old) name (H.left shelf.new) workers.now.count verdict) }
    ensures unrejected { IfErr result (λ fault. (name : List ℕ)
        → StandsForFile judge.old (H.told shelf.old) name (H.left shelf.old)
        → StopsUnrejected (verdict_of_bytes (table_of judge.old) (premise_of judge.old) (conclusion_of judge.old))
        (H.told shelf.old) name (H.left shelf.new) fault) }
    ensures begun { H.begun shelf.new ≡ H.begun shelf.old }
    ensures sound { result ≡ Ok Accepted → (J : Document) → is_document J ≡ true
        → holds (table_of judge.old) (premise_of judge.old) J ≡ true
        → holds (table_of judge.old) (conclusion_of judge.old) J ≡ true }
{
    'pieces: loop {
        match shelf.read(&mut buffer) {
            Err(_) => return verdict_before(workers, alloc, judge, FileFault::Read),
            Ok(0) => return verdict_at_end(workers, alloc, judge),
            Ok(count) => {
                if count as u64 > LONGEST_FILE - judge.bytes() {
                    return verdict_before(workers, alloc, judge, FileFault::TooLong);
                }
                match judge.take(workers, alloc, &buffer[..count]) {
                    Ok(()) => {}
                    Err(fault) => return verdict_of(fault),
                }
            }
        }
    }
}

/// The verdict where nothing more is judged for that cause: of the lines that wait, or the cause.
fn verdict_before<R: Threads + Sync, G: Gate + Sync>(
    workers: &Workers<'_, R, G>,
    alloc: Global,
    judge: &mut CertificateJudge<'_>,
    cause: FileFault,
) -> Result<FileVerdict, FileFault>
    ensures verdict { IfOk result (λ verdict. IsRejection verdict
        × ((bytes more : List ℕ) → StandsForBytes judge.old bytes
        → verdict_of_bytes (table_of judge.old) (premise_of judge.old) (conclusion_of judge.old) (bytes ++ more)
        ≡ verdict_view verdict)) }
    ensures fault { IfErr result (λ met. (met ≡ cause) ⊎ (met ≡ fault.Memory)) }
    ensures unrejected { IfErr result (λ met. (met ≡ fault.Memory) ⊎ ((bytes : List ℕ)
        → StandsForBytes judge.old bytes
        → NoneIsRejected (verdict_of_bytes (table_of judge.old) (premise_of judge.old) (conclusion_of judge.old))
        bytes)) }
    ensures none { fault_of judge.old ≡ None → waiting_of judge.old ≡ 0 → result ≡ Err cause }
{
    match judge.settle(workers, alloc) {
        Ok(()) => Err(cause),
        Err(fault) => verdict_of(fault),
    }
}

/// The verdict where nothing follows.
fn verdict_at_end<R: Threads + Sync, G: Gate + Sync>(
    workers: &Workers<'_, R, G>,
    alloc: Global,
    judge: &mut CertificateJudge<'_>,
) -> Result<FileVerdict, FileFault>
    ensures verdict { IfOk result (λ verdict. (bytes : List ℕ) → StandsForBytes judge.old bytes
        → verdict_of_bytes (table_of judge.old) (premise_of judge.old) (conclusion_of judge.old) bytes
        ≡ verdict_view verdict) }
    ensures fault { IfErr result (λ met. met ≡ fault.Memory) }
    ensures sound { result ≡ Ok Accepted → (J : Document) → is_document J ≡ true
        → holds (table_of judge.old) (premise_of judge.old) J ≡ true
        → holds (table_of judge.old) (conclusion_of judge.old) J ≡ true }
{
    match judge.finish(workers, alloc) {
        Ok(_) => Ok(FileVerdict::Accepted),
        Err(fault) => verdict_of(fault),
    }
}

/// The verdict that a fault gives.
fn verdict_of(fault: CheckFault) -> Result<FileVerdict, FileFault>
    ensures { result ≡ verdict_of fault }
{
    match fault {
        CheckFault::Rejected(line, rule) => Ok(FileVerdict::Rejected(line, rule)),
        CheckFault::Memory => Err(FileFault::Memory),
    }
}

/// A buffer for reads to fill.
fn empty_buffer(alloc: Global) -> Result<Vec<u8>, AllocError>
    ensures room { IfOk result (λ buffer. 0 < vec_len buffer) }
    ensures short { IfOk result (λ buffer. vec_len buffer ≤ longest_piece) }
{
    vec![in alloc; 0; BUFFER_LENGTH]
}
