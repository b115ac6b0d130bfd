//! Numbers of workers: what is printed is the same for each, and goals are expanded and entries of certificates judged
//! by as many threads at once.

use crate::objects::{CLOSED, WITH_TAGS};
use crate::setting::{
    CERTIFICATE, ROOM, STRING, STRING_OR_NULL, add, expect, expect_written, status_of, two_files,
    words_of,
};
use js_doc::Memory;
use js_outside::{MemoryShelf, MemorySink};
use js_par::Meeting;
use js_top::run;

#[test]
fn a_number_of_workers_changes_nothing(rt: HostRuntime) -> Result<(), Memory> {
    let chain = (1, "generated chain 40\ngoals 40\nrounds 40\nparts 40\n");
    let wide = (0, "generated wide 2\ngoals 5\nrounds 1\ncertificate 3\n");
    let tree = (0, "generated tree 3\ngoals 9\nrounds 1\ncertificate 6\n");
    for (line, answer) in [
        ("include a b --workers 1", (0, CERTIFICATE)),
        ("include --workers 64 a b", (0, CERTIFICATE)),
        ("include a --workers=2 b", (0, CERTIFICATE)),
        ("gen chain 40 --workers 1", chain),
        ("gen chain 40 --workers 4", chain),
        ("gen chain 40 --workers 64", chain),
        ("gen wide 2 --workers 1", wide),
        ("gen wide 2 --workers 4", wide),
        ("gen wide 2 --workers 64", wide),
        ("gen tree 3 --workers 1", tree),
        ("gen tree 3 --workers 4", tree),
        ("gen tree 3 --workers 64", tree),
    ] {
        let files = (STRING.as_bytes(), STRING_OR_NULL.as_bytes());
        expect(&rt, rt.alloc(), line, files, answer)?;
    }
    Ok(())
}

/// A schema of lists, whose goal at objects leads to itself, and two closed objects, of which one has a member more.
#[test]
fn a_number_of_workers_changes_no_document(rt: HostRuntime) -> Result<(), Memory> {
    let list = r##"{"type":"object","properties":{"next":{"$ref":"#"}}}"##;
    for line in [
        "sat a --workers 1",
        "sat a --workers 4",
        "sat a --workers 64",
    ] {
        let files = (list.as_bytes(), b"false".as_slice());
        expect(&rt, rt.alloc(), line, files, (0, "document\n{}\n"))?;
    }
    let answer = (1, "document\n{\"name\":\"a\",\"tags\":[]}\n");
    for line in [
        "include a b --workers 1",
        "include a b --workers 4",
        "include a b --workers 64",
    ] {
        let files = (WITH_TAGS.as_bytes(), CLOSED.as_bytes());
        expect(&rt, rt.alloc(), line, files, answer)?;
    }
    Ok(())
}

#[test]
fn numbers_of_workers_that_are_refused(rt: HostRuntime) -> Result<(), Memory> {
    for line in [
        "include a b --workers 0",
        "include a b --workers 65",
        "include a b --workers 08",
        "include a b --workers",
        "include a b --workers 1 --workers 1",
        "valid a b --workers 1",
        "norm a --workers 1",
    ] {
        let files = (STRING.as_bytes(), STRING.as_bytes());
        expect(&rt, rt.alloc(), line, files, (2, "usage\n"))?;
    }
    Ok(())
}

/// An object with two integers: its goal is a wave by itself, and theirs are the second one.
const TWO_INTEGERS: &str =
    "{\"type\":\"object\",\"required\":[\"p0\",\"p1\"],\"additionalProperties\":false,\"properties\":{\
    \"p0\":{\"type\":\"integer\",\"minimum\":0},\"p1\":{\"type\":\"integer\",\"minimum\":1}}}";

#[test]
fn goals_of_a_wave_meet(rt: HostRuntime) -> Result<(), Memory> {
    let alloc = rt.alloc();
    let document = "document\n{\"p0\":0,\"p1\":1}\n";
    let summary = "generated tree 1\ngoals 3\nrounds 1\ncertificate 2\n";
    for (line, answer) in [
        ("sat a --workers 2", (0, document)),
        ("include a b --workers 2", (1, document)),
        ("gen tree 1 --workers 2", (0, summary)),
    ] {
        let words = words_of(alloc, line)?;
        let mut shelf = MemoryShelf::new(two_files(alloc, TWO_INTEGERS.as_bytes(), b"false")?);
        let mut sink = MemorySink::new(alloc, ROOM)?;
        let gate = Meeting::new(1, 2);
        let status = run(&rt, alloc, words.as_slice(), &gate, &mut shelf, &mut sink).code();
        expect_written(&rt, (status, sink.written()), answer);
        assert!(rt; gate.was_each_met());
    }
    Ok(())
}

/// That arrays whose elements are strings are such arrays, whichever way it is said: a certificate of two entries.
const STRINGS: (&str, &str) = (
    r#"{"type":"array","items":{"type":"string"},"additionalItems":false}"#,
    r#"{"type":"array","items":{"type":"string"}}"#,
);

#[test]
fn entries_of_a_certificate_meet(rt: HostRuntime) -> Result<(), Memory> {
    let alloc = rt.alloc();
    let (a, b) = STRINGS;
    let mut shelf = MemoryShelf::new(two_files(alloc, a.as_bytes(), b.as_bytes())?);
    let mut printed = MemorySink::new(alloc, ROOM)?;
    let status = status_of(&rt, alloc, "include a b", &mut shelf, &mut printed)?;
    assert_eq!(rt; status, 0);
    let mut files = two_files(alloc, a.as_bytes(), b.as_bytes())?;
    add(alloc, &mut files, "c", printed.written())?;
    let words = words_of(alloc, "check a b c --workers 2")?;
    let mut shelf = MemoryShelf::new(files);
    let mut sink = MemorySink::new(alloc, ROOM)?;
    let gate = Meeting::new(0, 2);
    let status = run(&rt, alloc, words.as_slice(), &gate, &mut shelf, &mut sink).code();
    expect_written(&rt, (status, sink.written()), (0, "accepted\n"));
    assert!(rt; gate.was_each_met());
    Ok(())
}
