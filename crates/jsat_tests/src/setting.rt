//! Commands over two files in memory, `a` and `b`, and `check` over a third, `c`.

use js_doc::{Memory, Str};
use js_outside::{FileMap, MemorySink, Shelf, Sink};
use js_par::OpenGate;
use js_top::{run, run_in_memory};
use std::alloc::{AllocError, Global};
use std::process::Abort;
use std::str;
use std::thread::Threads;

/// More bytes than any report here has.
pub(crate) const ROOM: u64 = 400_000;

pub(crate) const STRING: &str = r#"{"type":"string"}"#;

pub(crate) const STRING_OR_NULL: &str = r#"{"type":["string","null"]}"#;

/// That each string is a string or null.
pub(crate) const CERTIFICATE: &str = "certificate 1\ngoals 1\ngoal +0 -2\nentry 0\n\
    at null\nrule +0\nkind +1\n\
    at boolean\nrule +0\nkind +1\n\
    at number\nrule +0\nkind +1\n\
    at string\nrule +0\nrule -2\nkind -3\n\
    at array\nrule +0\nkind +1\n\
    at object\nrule +0\nkind +1\n\
    end\n";

pub(crate) fn add(
    alloc: Global,
    files: &mut FileMap,
    name: &str,
    bytes: &[u8],
) -> Result<(), Memory> {
    files.insert(Str::from_text(alloc, name)?, Vec::from_slice(alloc, bytes)?)
}

pub(crate) fn two_files(alloc: Global, a: &[u8], b: &[u8]) -> Result<FileMap, Memory> {
    let mut files = FileMap::new(alloc);
    add(alloc, &mut files, "a", a)?;
    add(alloc, &mut files, "b", b)?;
    Ok(files)
}

/// Fails unless `check` of a certificate for two schemas has this status and report, whatever the number of workers.
pub(crate) fn expect_checked<R: Abort + Threads + Sync>(
    rt: &R,
    alloc: Global,
    (a, b, certificate): (&str, &str, &str),
    wanted: (u8, &str),
) -> Result<(), Memory> {
    for line in [
        "check a b c",
        "check a b c --workers 1",
        "check a b c --workers=4",
        "check --workers 64 a b c",
    ] {
        let words = words_of(alloc, line)?;
        let mut files = two_files(alloc, a.as_bytes(), b.as_bytes())?;
        add(alloc, &mut files, "c", certificate.as_bytes())?;
        let mut sink = MemorySink::new(alloc, ROOM)?;
        let answer = run_in_memory(rt, alloc, words.as_slice(), files, &mut sink).code();
        expect_written(rt, (answer, sink.written()), wanted);
    }
    Ok(())
}

/// Fails unless `include` prints a certificate for two schemas that begins with this text, the same for each number of
/// workers, and `check` accepts it.
pub(crate) fn expect_certificate<R: Abort + Threads + Sync>(
    rt: &R,
    alloc: Global,
    (a, b): (&str, &str),
    front: &str,
) -> Result<(), Memory> {
    let words = words_of(alloc, "include a b")?;
    let files = two_files(alloc, a.as_bytes(), b.as_bytes())?;
    let mut sink = MemorySink::new(alloc, ROOM)?;
    let status = run_in_memory(rt, alloc, words.as_slice(), files, &mut sink).code();
    let printed = str::from_utf8(sink.written()).unwrap_or("no text");
    assert!(rt;
        printed.as_bytes().starts_with(front.as_bytes()),
        "{printed}"
    );
    assert_eq!(rt; status, 0, "{a} in {b}");
    for line in [
        "include a b --workers 1",
        "include a b --workers=4",
        "include --workers 64 a b",
    ] {
        expect(rt, alloc, line, (a.as_bytes(), b.as_bytes()), (0, printed))?;
    }
    expect_checked(rt, alloc, (a, b, printed), (0, "accepted\n"))
}

/// The words of a command line.
pub(crate) fn words_of(alloc: Global, line: &str) -> Result<Vec<Str>, Memory> {
    let mut words = Vec::new(alloc);
    for word in line.split_whitespace() {
        words.push(Str::from_text(alloc, word)?)?;
    }
    Ok(words)
}

/// The exit status of a command line over a shelf, with its report in a sink.
pub(crate) fn status_of<R: Threads + Sync, H: Shelf, K: Sink>(
    rt: &R,
    alloc: Global,
    line: &str,
    shelf: &mut H,
    sink: &mut K,
) -> Result<u8, Memory> {
    let words = words_of(alloc, line)?;
    Ok(run(rt, alloc, words.as_slice(), &OpenGate, shelf, sink).code())
}

/// Fails unless a command line over two files has this status and report.
pub(crate) fn expect<R: Abort + Threads + Sync>(
    rt: &R,
    alloc: Global,
    line: &str,
    (a, b): (&[u8], &[u8]),
    (status, report): (u8, &str),
) -> Result<(), Memory> {
    let words = words_of(alloc, line)?;
    let files = two_files(alloc, a, b)?;
    let mut sink = MemorySink::new(alloc, ROOM)?;
    let answer = run_in_memory(rt, alloc, words.as_slice(), files, &mut sink).code();
    expect_written(rt, (answer, sink.written()), (status, report));
    Ok(())
}

/// Fails unless a status and what was written are the wanted ones.
pub(crate) fn expect_written(rt: &impl Abort, found: (u8, &[u8]), wanted: (u8, &str)) {
    let report = str::from_utf8(found.1).unwrap_or("no text");
    assert_eq!(rt; report, wanted.1);
    assert_eq!(rt; found.0, wanted.0, "the status with {report}");
}
