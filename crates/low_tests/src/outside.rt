//! What a caller sees of the shelves and sinks, in a few runs.

use js_doc::{Memory, Str};
use js_outside::{
    BeginFault, CallList, CutShelf, CutSink, Failed, FailingShelf, FailingSink, FileMap, FileShelf,
    MemoryShelf, MemorySink, Shelf, Sink, StdoutSink,
};
use std::alloc::{AllocError, Global};
use std::process::Abort;

fn add(alloc: Global, files: &mut FileMap, name: &str, bytes: &[u8]) -> Result<(), Memory> {
    files.insert(Str::from_text(alloc, name)?, Vec::from_slice(alloc, bytes)?)
}

/// The files `a` and `b`, of which the second is set twice.
fn two_files(alloc: Global) -> Result<FileMap, Memory> {
    let mut files = FileMap::new(alloc);
    add(alloc, &mut files, "b", b"old")?;
    add(alloc, &mut files, "a", b"abcde")?;
    add(alloc, &mut files, "b", b"xy")?;
    Ok(files)
}

fn calls(alloc: Global, numbers: &[u64]) -> Result<CallList, AllocError> {
    Ok(CallList::from_vec(Vec::from_slice(alloc, numbers)?))
}

/// Begins a file and reads it by a buffer of 4 bytes, as often as answers are wanted.
fn expect_reads<H: Shelf>(
    rt: &impl Abort,
    shelf: &mut H,
    name: &str,
    begun: Result<(), BeginFault>,
    wanted: &[Result<usize, Failed>],
) {
    assert_eq!(rt; shelf.begin(name), begun, "{name}");
    let mut buffer = [0; 4];
    for (call, answer) in wanted.iter().enumerate() {
        assert_eq!(rt; shelf.read(&mut buffer), *answer, "{name}, read {call}");
    }
}

#[test]
fn shelves_give_their_files(rt: HostRuntime) -> Result<(), Memory> {
    let alloc = rt.alloc();
    let mut whole = MemoryShelf::new(two_files(alloc)?);
    expect_reads(&rt, &mut whole, "a", Ok(()), &[Ok(4), Ok(1), Ok(0), Ok(0)]);
    expect_reads(&rt, &mut whole, "b", Ok(()), &[Ok(2), Ok(0)]);
    expect_reads(&rt, &mut whole, "c", Err(BeginFault::Failed), &[Ok(0)]);

    let mut cut = CutShelf::new(two_files(alloc)?, 2);
    expect_reads(&rt, &mut cut, "a", Ok(()), &[Ok(2), Ok(2), Ok(1), Ok(0)]);

    let mut failing = FailingShelf::new(two_files(alloc)?, calls(alloc, &[2, 5])?);
    expect_reads(
        &rt,
        &mut failing,
        "a",
        Ok(()),
        &[Ok(4), Err(Failed), Ok(1), Ok(0)],
    );
    expect_reads(&rt, &mut failing, "b", Err(BeginFault::Failed), &[Ok(0)]);
    expect_reads(&rt, &mut failing, "b", Ok(()), &[Ok(2)]);
    Ok(())
}

/// Writes `ab`, `cde` and `f`.
fn expect_writes<K: Sink>(rt: &impl Abort, sink: &mut K, wanted: [Result<usize, Failed>; 3]) {
    assert_eq!(rt; sink.write(b"ab"), wanted[0]);
    assert_eq!(rt; sink.write(b"cde"), wanted[1]);
    assert_eq!(rt; sink.write(b"f"), wanted[2]);
}

#[test]
fn a_sink_takes_the_pieces_that_fit(rt: HostRuntime) -> Result<(), Memory> {
    let mut sink = MemorySink::new(rt.alloc(), 4)?;
    expect_writes(&rt, &mut sink, [Ok(2), Err(Failed), Ok(1)]);
    assert_eq!(rt; sink.written(), b"abf".as_slice());
    Ok(())
}

#[test]
fn a_cut_sink_takes_a_byte_of_each_piece(rt: HostRuntime) -> Result<(), Memory> {
    let mut sink = CutSink::new(rt.alloc(), 4, 1)?;
    expect_writes(&rt, &mut sink, [Ok(1), Ok(1), Ok(1)]);
    assert_eq!(rt; sink.written(), b"acf".as_slice());
    Ok(())
}

#[test]
fn a_listed_write_takes_nothing(rt: HostRuntime) -> Result<(), Memory> {
    let fail = calls(rt.alloc(), &[0])?;
    let mut sink = FailingSink::new(rt.alloc(), 9, fail)?;
    expect_writes(&rt, &mut sink, [Err(Failed), Ok(3), Ok(1)]);
    assert_eq!(rt; sink.written(), b"cdef".as_slice());
    Ok(())
}

#[test]
fn a_missing_real_file_is_a_fault(rt: HostRuntime) {
    let mut shelf = FileShelf::new(&rt);
    assert_eq!(rt; shelf.begin("no such file"), Err(BeginFault::Failed));
    assert_eq!(rt; shelf.read(&mut [0; 4]), Ok(0));
    let mut sink = StdoutSink::new(&rt);
    assert_eq!(rt; sink.write(b""), Ok(0));
}
