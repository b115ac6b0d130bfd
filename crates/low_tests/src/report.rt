//! Whole files and reports, over shelves and sinks that fail or go slowly.

use js_doc::{Memory, Str};
use js_outside::{
    CallList, CutShelf, CutSink, Failed, FailingShelf, FailingSink, FileMap, MemoryShelf, Shelf,
};
use js_report::{FileFault, LONGEST_FILE, read_file, write_report};
use std::alloc::{AllocError, Global};
use std::process::Abort;

/// One file, `a`.
fn one_file(alloc: Global, bytes: Vec<u8>) -> Result<FileMap, Memory> {
    let mut files = FileMap::new(alloc);
    files.insert(Str::from_text(alloc, "a")?, bytes)?;
    Ok(files)
}

fn five_bytes(alloc: Global) -> Result<FileMap, Memory> {
    one_file(alloc, Vec::from_slice(alloc, b"abcde")?)
}

fn zeros(alloc: Global, count: usize) -> Result<FileMap, Memory> {
    one_file(alloc, vec![in alloc; 0; count]?)
}

fn one_call(alloc: Global, call: u64) -> Result<CallList, AllocError> {
    Ok(CallList::from_vec(vec![in alloc; call]?))
}

fn expect_file<H: Shelf>(
    rt: &impl Abort,
    alloc: Global,
    shelf: &mut H,
    name: &str,
    wanted: Result<&[u8], FileFault>,
) {
    let read = read_file(alloc, shelf, name);
    let seen = match &read {
        Ok(bytes) => Ok(bytes.as_slice()),
        Err(fault) => Err(*fault),
    };
    assert_eq!(rt; seen, wanted);
}

#[test]
fn a_file_is_read_whole_or_not_at_all(rt: HostRuntime) -> Result<(), Memory> {
    let alloc = rt.alloc();
    let whole = Ok(b"abcde".as_slice());
    expect_file(
        &rt,
        alloc,
        &mut CutShelf::new(five_bytes(alloc)?, 1),
        "a",
        whole,
    );
    expect_file(
        &rt,
        alloc,
        &mut MemoryShelf::new(five_bytes(alloc)?),
        "b",
        Err(FileFault::Read),
    );
    for call in 0..4u64 {
        let mut shelf = FailingShelf::new(five_bytes(alloc)?, one_call(alloc, call)?);
        let wanted = if call < 3 {
            Err(FileFault::Read)
        } else {
            whole
        };
        expect_file(&rt, alloc, &mut shelf, "a", wanted);
    }
    Ok(())
}

#[test]
fn a_file_may_have_the_longest_length(rt: HostRuntime) -> Result<(), Memory> {
    let alloc = rt.alloc();
    let longest = read_file(
        alloc,
        &mut MemoryShelf::new(zeros(alloc, LONGEST_FILE)?),
        "a",
    );
    assert!(rt; longest.is_ok());
    let longer = read_file(
        alloc,
        &mut MemoryShelf::new(zeros(alloc, LONGEST_FILE + 1)?),
        "a",
    );
    assert!(rt; matches!(&longer, Err(FileFault::TooLong)));
    Ok(())
}

/// Writes `abcde`, and looks at the answer and at what was written.
fn expect_report(rt: &impl Abort, mut sink: CutSink, wanted: Result<(), Failed>, written: &[u8]) {
    assert_eq!(rt; write_report(&mut sink, b"abcde"), wanted);
    assert_eq!(rt; sink.written(), written);
}

#[test]
fn a_report_is_written_whole_or_a_prefix_of_it(rt: HostRuntime) -> Result<(), Memory> {
    let alloc = rt.alloc();
    expect_report(&rt, CutSink::new(alloc, 5, 2)?, Ok(()), b"abcde");
    expect_report(&rt, CutSink::new(alloc, 4, 1)?, Err(Failed), b"abcd");
    Ok(())
}

#[test]
fn a_failed_write_is_noticed(rt: HostRuntime) -> Result<(), Memory> {
    let alloc = rt.alloc();
    let mut failing = FailingSink::new(alloc, 5, one_call(alloc, 0)?)?;
    assert_eq!(rt; write_report(&mut failing, b"abcde"), Err(Failed));
    Ok(())
}
