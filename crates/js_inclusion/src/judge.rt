//! Certificates judged for two schemas.

ghost use Rattle.std.specs.Prelude.{◌≡◌, Ok, IfOk, IfErr, encode_utf8_all};
ghost use Rattle.js_guard.specs.RankedView.{entries_of};
ghost use Rattle.js_certificate.specs.FileVerdicts.{FaultSays, CountsJudged};
ghost use Rattle.js_certificate.specs.ReadBehind.{IsReadFor};
ghost use Rattle.js_certificate.specs.Unrejected.{FailsUnrejected};
ghost use Rattle.js_certificate.specs.declared.file.FileVerdict.TheVariants.{Accepted};
ghost use Rattle.js_inclusion.specs.Comparison.{judgement};
ghost use Rattle.js_inclusion.specs.Meaning.{AreIncluded};
ghost use Rattle.js_inclusion.specs.Judging.{IsJudgementOf, Begins};

use crate::tables::joined_tables;
use js_certificate::{FileFault, FileVerdict};
use js_doc::{Memory, Str};
use js_guard::RankedSchema;
use js_outside::Shelf;
use js_par::{Gate, Workers};
use std::alloc::Global;
use std::thread::Threads;

/// Judges the file of that name, which is to show that every document that is valid for `a` is valid for `b`. The file
/// is read after the core tables are made, and not behind the batch that has a line which is rejected. Where a read
/// fails, or the file is too long, no whole line that was read before is rejected. No other file is begun. The cost is
/// that of the core tables and of `js_certificate::judge_file`.
pub fn judge_file<R: Threads + Sync, G: Gate + Sync, H: Shelf>(
    workers: &Workers<'_, R, G>,
    alloc: Global,
    shelf: &mut H,
    name: &Str,
    a: &RankedSchema,
    b: &RankedSchema,
) -> Result<FileVerdict, FileFault>
    ensures told { H.told shelf.new ≡ H.told shelf.old }
    ensures verdict { IfOk result (IsJudgementOf (entries_of a.now) (entries_of b.now) (H.told shelf.old)
        (encode_utf8_all name.now)) }
    ensures counted { IfOk result (CountsJudged workers.now.count (H.faults shelf.old) (H.faults shelf.new)) }
    ensures fault { IfErr result (FaultSays (H.told shelf.old) (encode_utf8_all name.now) workers.now.count
        (H.faults shelf.old) (H.faults shelf.new)) }
    ensures read { IfOk result (IsReadFor (H.told shelf.old) (encode_utf8_all name.now) (H.left shelf.new)
        workers.now.count) }
    ensures unrejected { IfErr result (FailsUnrejected (judgement (entries_of a.now) (entries_of b.now))
        (H.told shelf.old) (encode_utf8_all name.now) (H.is_begun shelf.new) (H.left shelf.new)) }
    ensures begun { Begins result (encode_utf8_all name.now) (H.begun shelf.old) (H.begun shelf.new) }

    // What is accepted is right, whoever wrote it.
    ensures included { result ≡ Ok Accepted → AreIncluded (entries_of a.now) (entries_of b.now) }
{
    match joined_tables(alloc, a, b) {
        Ok((core, at_a, at_b)) => {
            js_certificate::judge_file(workers, alloc, shelf, name.as_text(), &core, at_a, at_b)
        }
        Err(Memory) => Err(FileFault::Memory),
    }
}
