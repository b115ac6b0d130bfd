//! The top call over files in memory.

ghost use Rattle.std.specs.Prelude.{◌≡◌, ◌≢◌, ◌<◌, true, None, codes};
ghost use Rattle.std.specs.Io.KnownBytes.{Appends};
ghost use Rattle.js_outside.specs.Contents.{contents};
ghost use Rattle.js_outside.specs.Counts.{Rose};
ghost use Rattle.js_words.specs.Commands.{command};
ghost use Rattle.js_words.specs.PlainWords.{Plain, is_plain, words_of, meant};
ghost use Rattle.js_top.specs.Names.{MissesFile};
ghost use Rattle.js_report.specs.Lines.{line};
ghost use Rattle.js_top.specs.Running.{WritesReport};

use crate::status::Status;
use crate::top::run;
use js_doc::Str;
use js_outside::{FileMap, MemoryShelf, Sink};
use js_par::OpenGate;
use std::alloc::Global;
use std::thread::Threads;

/// As [`run`], over these files: with every status but those of faults, what is written and the status are the report
/// of the files. A read fault is reported exactly where a file that the words name isn't there and each before it is a
/// schema, unless memory is refused or the report can't be written.
pub fn run_in_memory<R: Threads + Sync, K: Sink>(
    rt: &R,
    alloc: Global,
    words: &[Str],
    files: FileMap,
    sink: &mut K,
) -> Status
    ensures report { result ≢ Status.ReadFault → result ≢ Status.WriteFault → result ≢ Status.Memory
        → WritesReport (Some (contents files)) words.now (K.written sink.old) (K.written sink.new) result }
    ensures usage { result ≡ Status.Usage → command words.now ≡ None }
    ensures other_words { command words.now ≡ None → result ≢ Status.WriteFault → result ≢ Status.Memory
        → result ≡ Status.Usage }
    ensures plain { (p : Plain) → is_plain p ≡ true → words.now ≡ words_of p → result ≢ Status.Memory
        → command words.now ≡ Some (meant p) }
    ensures write_fault { result ≡ Status.WriteFault → Rose (K.faults sink.old) (K.faults sink.new) }
    ensures write_noticed { K.faults sink.old < K.faults sink.new → result ≡ Status.WriteFault }
    ensures read_text { result ≡ Status.ReadFault → Appends (K.written sink.old) (K.written sink.new)
        (line (codes "readfault")) }
    ensures memory_text { result ≡ Status.Memory → K.written sink.new ≡ K.written sink.old }
    ensures missing { result ≢ Status.WriteFault → result ≢ Status.Memory
        → MissesFile (Some (contents files)) words.now → result ≡ Status.ReadFault }
    ensures only_missing { result ≡ Status.ReadFault → MissesFile (Some (contents files)) words.now }
{
    let mut shelf = MemoryShelf::new(files);
    let status = run(rt, alloc, words, &OpenGate, &mut shelf, sink);
    // It says that the count of faults is still that of the names that aren't there.
    let _ = shelf.faults();
    status
}
