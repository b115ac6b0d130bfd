//! What is answered where a read or a write fails.

use crate::objects::{CLOSED, WITH_TAGS};
use crate::setting::{
    CERTIFICATE, ROOM, STRING, STRING_OR_NULL, add, expect, expect_written, status_of, two_files,
    words_of,
};
use js_doc::Memory;
use js_outside::{
    BeginFault, CallList, CutShelf, CutSink, Failed, FailingShelf, FailingSink, FileMap,
    MemoryShelf, MemorySink, Shelf,
};
use js_top::run_in_memory;
use std::alloc::Global;
use std::str;
use std::thread::Threads;

/// No run makes as many calls.
const NEVER: u64 = 1_000_000;

fn strings(alloc: Global) -> Result<FileMap, Memory> {
    two_files(alloc, STRING.as_bytes(), STRING_OR_NULL.as_bytes())
}

/// Two versions of a schema, of which the second allows a member more.
fn versions(alloc: Global) -> Result<FileMap, Memory> {
    two_files(alloc, CLOSED.as_bytes(), WITH_TAGS.as_bytes())
}

/// What `include` prints of the two versions where nothing fails.
fn inclusion<R: Threads + Sync>(rt: &R, alloc: Global) -> Result<Vec<u8>, Memory> {
    let words = words_of(alloc, "include a b")?;
    let mut sink = MemorySink::new(alloc, ROOM)?;
    run_in_memory(rt, alloc, words.as_slice(), versions(alloc)?, &mut sink);
    Ok(Vec::from_slice(alloc, sink.written())?)
}

fn one_call(alloc: Global, call: u64) -> Result<CallList, Memory> {
    Ok(CallList::from_vec(vec![in alloc; call]?))
}

#[test]
fn a_file_that_is_not_there_is_a_read_fault(rt: HostRuntime) -> Result<(), Memory> {
    let fault = (5, "readfault\n");
    for (line, a, answer) in [
        ("include c b", "true", fault),
        ("include a c", "true", fault),
        ("include - b", "true", fault),
        ("include c a", "5", fault),
        ("include a c", "5", (3, "refused first notaschema \"\"\n")),
    ] {
        expect(&rt, rt.alloc(), line, (a.as_bytes(), b"true"), answer)?;
    }
    Ok(())
}

/// Each file is begun, read, and read once more to see its end.
#[test]
fn each_call_of_the_shelf_may_fail(rt: HostRuntime) -> Result<(), Memory> {
    let alloc = rt.alloc();
    let whole = inclusion(&rt, alloc)?;
    let report = str::from_utf8(whole.as_slice()).unwrap_or("no text");
    for call in 0..=6u64 {
        let mut shelf = FailingShelf::new(versions(alloc)?, one_call(alloc, call)?);
        let mut sink = MemorySink::new(alloc, ROOM)?;
        let status = status_of(&rt, alloc, "include a b", &mut shelf, &mut sink)?;
        let wanted = if call < 6 {
            (5, "readfault\n")
        } else {
            (0, report)
        };
        expect_written(&rt, (status, sink.written()), wanted);
    }
    Ok(())
}

/// A shelf over files in memory that counts its calls.
#[derive(Drop)]
struct CountingShelf {
    shelf: MemoryShelf,
    calls: u64,
}

impl Shelf for CountingShelf {
    ghost use Rattle.std.specs.Prelude.{Some, refl};
    ghost use Rattle.js_outside.specs.Contents.{contents};

    ghost told = { λ s. Some (contents s.shelf.files) };

    ghost left = { λ s. Some s.shelf.left };

    ghost is_begun = { λ s. s.shelf.is_begun };

    ghost faults = { λ s. s.shelf.faults };

    ghost begun = { λ s. s.shelf.begun };

    fn begin(&mut self, name: &str) -> Result<(), BeginFault> {
        self.calls = self.calls.saturating_add(1);
        self.shelf.begin(name)
    }

    fn read(&mut self, into: &mut [u8]) -> Result<usize, Failed> {
        self.calls = self.calls.saturating_add(1);
        self.shelf.read(into)
    }

    ghost both_told = { λ s. refl };
}

fn strings_and(alloc: Global, certificate: &[u8]) -> Result<FileMap, Memory> {
    let mut files = strings(alloc)?;
    add(alloc, &mut files, "c", certificate)?;
    Ok(files)
}

/// Nothing is read behind the batch with the first wrong line, and of a certificate that is accepted all is, up to its
/// end. A batch of one worker is a line, and one of several has 65,536 lines where no entry begins: the last of them
/// ends in the seventh piece. With eight whole entries the first batch of two workers ends in the first piece. Three
/// calls for each schema and one that begins the certificate come before.
#[test]
fn nothing_is_read_behind_a_rejection(rt: HostRuntime) -> Result<(), Memory> {
    let alloc = rt.alloc();
    let mut long = Vec::from_slice(alloc, b"goals 0\n")?;
    let mut entered = Vec::from_slice(alloc, b"goals 0\n")?;
    for _ in 0..9u32 {
        entered.extend_from_slice(b"entry 0\n")?;
    }
    for _ in 0..200_000u32 {
        long.extend_from_slice(b"count\n")?;
        entered.extend_from_slice(b"count\n")?;
    }
    let short = b"goals 0\n".as_slice();
    let rejected = (1, "rejected 1 4\n");
    let accepted = (0, "accepted\n");
    for (line, certificate, calls, answer) in [
        ("check a b c", short, 8, rejected),
        ("check a b c", long.as_slice(), 8, rejected),
        ("check a b c", CERTIFICATE.as_bytes(), 9, accepted),
        ("check a b c --workers 2", short, 9, rejected),
        ("check a b c --workers 2", long.as_slice(), 14, rejected),
        ("check a b c --workers 2", entered.as_slice(), 8, rejected),
        (
            "check a b c --workers 2",
            CERTIFICATE.as_bytes(),
            9,
            accepted,
        ),
    ] {
        let mut shelf = CountingShelf {
            shelf: MemoryShelf::new(strings_and(alloc, certificate)?),
            calls: 0,
        };
        let mut sink = MemorySink::new(alloc, ROOM)?;
        let status = status_of(&rt, alloc, line, &mut shelf, &mut sink)?;
        expect_written(&rt, (status, sink.written()), answer);
        assert_eq!(rt; shelf.calls, calls, "calls of {line}");
    }
    Ok(())
}

/// Lines that were whole before a failed read are judged: a rejection among them is reported, and else the fault. The
/// seventh call begins the certificate, and the eighth reads it.
#[test]
fn lines_before_a_failed_read_are_judged(rt: HostRuntime) -> Result<(), Memory> {
    let alloc = rt.alloc();
    let fault = (5, "readfault\n");
    let rejected = (1, "rejected 1 4\n");
    for (line, certificate, call, answer) in [
        ("check a b c", "goals 0\n", 6, fault),
        ("check a b c", "goals 0\n", 7, fault),
        ("check a b c --workers 2", "goals 0\n", 7, fault),
        ("check a b c --workers 2", "goals 0\n", 8, rejected),
        ("check a b c --workers 64", "goals 0\ncount", 8, rejected),
        ("check a b c", "goals 0", 8, fault),
        ("check a b c --workers 2", "goals 0", 8, fault),
        ("check a b c", CERTIFICATE, 8, fault),
        ("check a b c --workers 2", CERTIFICATE, 8, fault),
    ] {
        let files = strings_and(alloc, certificate.as_bytes())?;
        let mut shelf = FailingShelf::new(files, one_call(alloc, call)?);
        let mut sink = MemorySink::new(alloc, ROOM)?;
        let status = status_of(&rt, alloc, line, &mut shelf, &mut sink)?;
        expect_written(&rt, (status, sink.written()), answer);
    }
    Ok(())
}

/// Nothing but a whole file is a schema.
#[test]
fn each_front_of_a_file_is_refused(rt: HostRuntime) -> Result<(), Memory> {
    let whole = CLOSED.as_bytes();
    for length in 0..whole.len() {
        let files = (&whole[..length], WITH_TAGS.as_bytes());
        let refused = (3, "refused first notjson\n");
        expect(&rt, rt.alloc(), "include a b", files, refused)?;
    }
    Ok(())
}

#[test]
fn the_first_write_may_fail(rt: HostRuntime) -> Result<(), Memory> {
    let alloc = rt.alloc();
    let whole = inclusion(&rt, alloc)?;
    let report = str::from_utf8(whole.as_slice()).unwrap_or("no text");
    for (read, write, wanted) in [
        (NEVER, NEVER, (0, report)),
        (NEVER, 1, (0, report)),
        (NEVER, 0, (6, "")),
        (0, NEVER, (5, "readfault\n")),
        (0, 0, (6, "")),
    ] {
        let mut shelf = FailingShelf::new(versions(alloc)?, one_call(alloc, read)?);
        let mut sink = FailingSink::new(alloc, ROOM, one_call(alloc, write)?)?;
        let status = status_of(&rt, alloc, "include a b", &mut shelf, &mut sink)?;
        expect_written(&rt, (status, sink.written()), wanted);
    }
    Ok(())
}

#[test]
fn a_small_sink_keeps_a_front_of_the_report(rt: HostRuntime) -> Result<(), Memory> {
    let alloc = rt.alloc();
    let whole = inclusion(&rt, alloc)?;
    let report = str::from_utf8(whole.as_slice()).unwrap_or("no text");
    let length = whole.len() as u64;
    for (room, wanted) in [
        (0, (6, "")),
        (13, (6, "certificate 1")),
        (length.saturating_sub(1), (6, report.trim_end())),
        (length, (0, report)),
    ] {
        let mut shelf = CutShelf::new(versions(alloc)?, 1);
        let mut sink = CutSink::new(alloc, room, 1)?;
        let status = status_of(&rt, alloc, "include a b", &mut shelf, &mut sink)?;
        expect_written(&rt, (status, sink.written()), wanted);
    }
    Ok(())
}

#[test]
fn a_sink_that_takes_whole_pieces_may_keep_none(rt: HostRuntime) -> Result<(), Memory> {
    let alloc = rt.alloc();
    let mut shelf = MemoryShelf::new(strings(alloc)?);
    let mut sink = MemorySink::new(alloc, 206)?;
    let status = status_of(&rt, alloc, "include a b", &mut shelf, &mut sink)?;
    assert_eq!(rt; status, 6);
    assert!(rt; CERTIFICATE.as_bytes().starts_with(sink.written()));
    Ok(())
}

#[test]
fn the_first_calls_of_sat_may_fail(rt: HostRuntime) -> Result<(), Memory> {
    let alloc = rt.alloc();
    for (read, write, wanted) in [
        (NEVER, NEVER, (0, "document\nnull\n")),
        (0, NEVER, (5, "readfault\n")),
        (NEVER, 0, (6, "")),
        (0, 0, (6, "")),
    ] {
        let files = two_files(alloc, b"{}", b"false")?;
        let mut shelf = FailingShelf::new(files, one_call(alloc, read)?);
        let mut sink = FailingSink::new(alloc, ROOM, one_call(alloc, write)?)?;
        let status = status_of(&rt, alloc, "sat a", &mut shelf, &mut sink)?;
        expect_written(&rt, (status, sink.written()), wanted);
    }
    Ok(())
}
