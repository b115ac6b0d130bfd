//! The top call.

ghost use Rattle.std.specs.Prelude.{◌≡◌, ◌≢◌, ◌<◌, [], ◌++◌, true, false, Some, None, codes};
ghost use Rattle.std.specs.Io.KnownBytes.{Appends};
ghost use Rattle.js_outside.specs.Counts.{Rose, Stays, last_count};
ghost use Rattle.js_outside.specs.Told.{CountsMisses};
ghost use Rattle.js_input.specs.OrderOfFiles.{BeginsInOrder};
ghost use Rattle.js_words.specs.Commands.{command};
ghost use Rattle.js_words.specs.PlainWords.{Plain, is_plain, words_of, meant};
ghost use Rattle.js_top.specs.Names.{IsInclude, IsSat, IsCompared, IsValid, IsCheck, IsCheckBySeveral, IsNorm, IsGen, file_names, MissesFile};
ghost use Rattle.js_commands.specs.IncludeMeaning.{IsCertificate};
ghost use Rattle.js_top.specs.Correct.{IsCorrect};
ghost use Rattle.js_top.specs.Judging.{WritesJudgement, WritesDecision, WritesJudgedRefusal};
ghost use Rattle.verdicts.specs.Verdict.{Accepted};
ghost use Rattle.js_top.specs.Checking.{IsVerdictWritten, WritesRejection, IsReadNoFurther, WritesCheckRefusal};
ghost use Rattle.js_top.specs.Unrejected.{IsReadFaultUnrejected, IsRefusalUnrejected};
ghost use Rattle.js_top.specs.Generating.{WritesSummary};
ghost use Rattle.js_top.specs.Listing.{WritesNamedTable, WritesListing, WritesNormRefusal};
ghost use Rattle.js_report.specs.Lines.{line};
ghost use Rattle.js_top.specs.Running.{IsReadNoticed, WritesPart, WritesReport, WritesMeaning, WritesAsked, WritesRefusal};
ghost use Rattle.js_top.specs.Meaning.{IsCounterexample, IsWitness, IsRefutation, IsLimit, PassLimit, WhereTold};

use crate::prepare::prepare;
use crate::status::Status;
use js_doc::Str;
use js_outside::{Shelf, Sink};
use js_par::Gate;
use js_report::write_report;
use std::alloc::Global;
use std::thread::Threads;

/// Does all that the program does: takes the words, reads the files that they name, decides, and writes the report.
///
/// Nothing is written until the report is complete. `rt` is the runtime on whose threads as many workers as the words
/// say search or judge, and where they are several `gate` is entered for each goal, or for each entry of a certificate;
/// the report is the same for every number of workers. Where the shelf tells its files, the report is that of its
/// files; where it tells none, that of some files, as they were when they were read.
pub fn run<R: Threads + Sync, G: Gate + Sync, H: Shelf, K: Sink>(
    rt: &R,
    alloc: Global,
    words: &[Str],
    gate: &G,
    shelf: &mut H,
    sink: &mut K,
) -> Status
    // The headline, where files are known, no fault is counted and memory suffices.
    ensures headline { Stays (H.faults shelf.old) (H.faults shelf.new) → Stays (K.faults sink.old) (K.faults sink.new)
        → result ≢ Status.Memory
        → IsCorrect (H.told shelf.old) words.now (K.written sink.old) (K.written sink.new) result }

    // A status reports a fault only where its count rose, and of other words only for them.
    ensures read_fault { result ≡ Status.ReadFault → Rose (H.faults shelf.old) (H.faults shelf.new) }
    ensures write_fault { result ≡ Status.WriteFault → Rose (K.faults sink.old) (K.faults sink.new) }
    ensures usage { result ≡ Status.Usage → command words.now ≡ None }

    // Other words are reported to be other words, unless memory is refused or the writing failed; plain words are the
    // command that they mean. No fault of reading is counted where the words name no file.
    ensures other_words { command words.now ≡ None → result ≢ Status.WriteFault → result ≢ Status.Memory
        → result ≡ Status.Usage }
    ensures plain { (p : Plain) → is_plain p ≡ true → words.now ≡ words_of p → result ≢ Status.Memory
        → command words.now ≡ Some (meant p) }
    ensures no_read_fault { file_names words.now ≡ [] → H.faults shelf.new ≡ H.faults shelf.old }

    // A count that rose is reported. Only `check` by several workers judges lines that came before a failed read first:
    // with one no line waits.
    ensures write_noticed { K.faults sink.old < K.faults sink.new → result ≡ Status.WriteFault }
    ensures read_noticed { H.faults shelf.old < H.faults shelf.new → Stays (K.faults sink.old) (K.faults sink.new)
        → IsReadNoticed words.now result }
    ensures read_noticed_alone { H.faults shelf.old < H.faults shelf.new
        → Stays (K.faults sink.old) (K.faults sink.new) → (IsCheckBySeveral words.now → ⊥)
        → result ≡ Status.ReadFault }

    // What was written then.
    ensures read_text { result ≡ Status.ReadFault → Appends (K.written sink.old) (K.written sink.new)
        (line (codes "readfault")) }
    ensures write_text { result ≡ Status.WriteFault
        → WritesPart (H.told shelf.old) words.now (H.faults shelf.old) (H.faults shelf.new) (K.written sink.old) (K.written sink.new) }
    ensures memory_text { result ≡ Status.Memory → K.written sink.new ≡ K.written sink.old }

    // With every other status what is written and the status are the report.
    ensures report { result ≢ Status.ReadFault → result ≢ Status.WriteFault → result ≢ Status.Memory
        → WritesReport (H.told shelf.old) words.now (K.written sink.old) (K.written sink.new) result }

    // A refusal is the first in the order of work, with its role, word and pointer.
    ensures refusal { result ≡ Status.Refused → IsCompared words.now
        → WritesRefusal (H.told shelf.old) words.now (K.written sink.old) (K.written sink.new) }

    // And for two schemas that are read this means, of a limit also that what the kind that is reported counts is over
    // its number: at the goal that is reported with it, or else of all goals that were explored.
    ensures document { result ≡ Status.Other → IsInclude words.now
        → WritesMeaning (H.told shelf.old) words.now (K.written sink.old) (K.written sink.new) IsCounterexample }
    ensures inclusion { result ≡ Status.Done → IsInclude words.now
        → WritesMeaning (H.told shelf.old) words.now (K.written sink.old) (K.written sink.new) IsCertificate }
    ensures limit { result ≡ Status.Limit → (IsGen words.now → ⊥)
        → WritesMeaning (H.told shelf.old) words.now (K.written sink.old) (K.written sink.new) IsLimit }

    // For the schema of `sat` it means: a document that is valid for it, or that no document with
    // whole numbers is.
    ensures satisfied { result ≡ Status.Done → IsSat words.now
        → WritesAsked (H.told shelf.old) words.now (K.written sink.old) (K.written sink.new) IsWitness }
    ensures unsatisfied { result ≡ Status.Other → IsSat words.now
        → WritesAsked (H.told shelf.old) words.now (K.written sink.old) (K.written sink.new) IsRefutation }

    // The limit comes wherever one is passed.
    ensures limited { result ≢ Status.ReadFault → result ≢ Status.WriteFault → result ≢ Status.Memory
        → WhereTold (H.told shelf.old) words.now (λ a b. PassLimit a b → result ≡ Status.Limit) }

    // The headline of `valid`: where files are known, no fault is counted and memory suffices, the word is `valid`
    // exactly where the document is valid for the schema, and else `invalid`.
    ensures decided { Stays (H.faults shelf.old) (H.faults shelf.new) → Stays (K.faults sink.old) (K.faults sink.new)
        → result ≢ Status.Memory
        → WritesDecision (H.told shelf.old) words.now (K.written sink.old) (K.written sink.new) result }

    // The same status by status, whatever is known of the shelf.
    ensures valid { result ≡ Status.Done → IsValid words.now
        → WritesJudgement (H.told shelf.old) words.now (K.written sink.old) (K.written sink.new) true }
    ensures invalid { result ≡ Status.Other → IsValid words.now
        → WritesJudgement (H.told shelf.old) words.now (K.written sink.old) (K.written sink.new) false }
    ensures valid_refusal { result ≡ Status.Refused → IsValid words.now
        → WritesJudgedRefusal (H.told shelf.old) words.now (K.written sink.old) (K.written sink.new) }

    // What `check` writes, status by status, whatever is known of the shelf.
    ensures check_accepted { result ≡ Status.Done → IsCheck words.now
        → IsVerdictWritten (H.told shelf.old) words.now (K.written sink.old) (K.written sink.new) Accepted }
    ensures check_rejected { result ≡ Status.Other → IsCheck words.now
        → WritesRejection (H.told shelf.old) words.now (K.written sink.old) (K.written sink.new) }
    ensures check_refusal { result ≡ Status.Refused → IsCheck words.now
        → WritesCheckRefusal (H.told shelf.old) words.now (K.written sink.old) (K.written sink.new) }

    // Where a line is rejected, with one worker nothing is read behind the piece with which it is whole, and with
    // several at most 65,535 whole lines and a piece.
    ensures not_read_behind { result ≡ Status.Other
        → IsReadNoFurther (H.told shelf.old) words.now (H.left shelf.new) (K.written sink.old) (K.written sink.new) }

    // Where `check` ends with a failed read of the certificate, or as the certificate has too many bytes, no whole line
    // that was read before is rejected, for every number of workers. A read fault is the certificate's where all three
    // files were begun, and a read of it failed where it is begun still.
    ensures fault_unrejected { result ≡ Status.ReadFault
        → H.begun shelf.new ≡ H.begun shelf.old ++ file_names words.now → H.is_begun shelf.new ≡ true
        → IsReadFaultUnrejected (H.told shelf.old) words.now (H.left shelf.new) }
    ensures refusal_unrejected { result ≡ Status.Refused
        → IsRefusalUnrejected (H.told shelf.old) words.now (H.left shelf.new) (K.written sink.old)
        (K.written sink.new) }

    // The headline of `norm`: where files are known, no fault is counted and memory suffices, a schema gets the text of
    // its core table, of which position 0 holds exactly of the documents that are valid for it.
    ensures listed { Stays (H.faults shelf.old) (H.faults shelf.new) → Stays (K.faults sink.old) (K.faults sink.new)
        → result ≢ Status.Memory
        → WritesListing (H.told shelf.old) words.now (K.written sink.old) (K.written sink.new) result }

    // The same status by status, whatever is known of the shelf.
    ensures table { result ≡ Status.Done → IsNorm words.now
        → WritesNamedTable (H.told shelf.old) words.now (K.written sink.old) (K.written sink.new) }
    ensures norm_refusal { result ≡ Status.Refused → IsNorm words.now
        → WritesNormRefusal (H.told shelf.old) words.now (K.written sink.old) (K.written sink.new) }

    // `gen` reads no file, and writes what the two schemas of the family come to.
    ensures generated { result ≢ Status.WriteFault → result ≢ Status.Memory → IsGen words.now
        → WritesSummary words.now (K.written sink.old) (K.written sink.new) result }

    // The files are begun in the order of the words, each only after the one before it was read and not refused. No
    // other is begun.
    ensures begun { BeginsInOrder (H.told shelf.old) (file_names words.now) (H.begun shelf.old) (H.begun shelf.new) }

    // Where files are known, one that isn't there is reported as a read fault, if each before it is a schema. Where the
    // count of faults is that of the names begun that aren't there, as over files in memory, nothing else is.
    ensures missing { result ≢ Status.WriteFault → result ≢ Status.Memory → MissesFile (H.told shelf.old) words.now
        → result ≡ Status.ReadFault }
    ensures only_missing { result ≡ Status.ReadFault
        → CountsMisses (H.told shelf.old) (H.begun shelf.old) (H.faults shelf.old)
        → CountsMisses (H.told shelf.old) (H.begun shelf.new) (H.faults shelf.new)
        → H.faults shelf.old < last_count → MissesFile (H.told shelf.old) words.now }

    // The files of the shelf that are known are the same after the call.
    ensures told { H.told shelf.new ≡ H.told shelf.old }
{
    match prepare(rt, alloc, words, gate, shelf) {
        Err(_) => Status::Memory,
        Ok(prepared) => match write_report(sink, prepared.text()) {
            Ok(()) => prepared.status(),
            Err(_) => Status::WriteFault,
        },
    }
}
