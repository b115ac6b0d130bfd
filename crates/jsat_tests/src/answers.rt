//! What is answered where nothing fails.

use crate::setting::{CERTIFICATE, ROOM, STRING, STRING_OR_NULL, expect, status_of, two_files};
use js_doc::Memory;
use js_outside::{MemoryShelf, MemorySink};
use std::alloc::{AllocError, Global};

/// The certificate that lists no goal.
const NOTHING_LISTED: &str = "certificate 1\ngoals 0\nend\n";

#[test]
fn other_words_are_no_command(rt: HostRuntime) -> Result<(), Memory> {
    for line in [
        "",
        "frob",
        "include",
        "include a",
        "include a b c",
        "sat",
        "sat -x",
        "sat a b",
        "sat a --workers 65",
        "check a b",
        "check a b a b",
        "include -x b",
        "include a -x",
        "include -- b",
        "Include a b",
    ] {
        let files = (STRING.as_bytes(), STRING.as_bytes());
        expect(&rt, rt.alloc(), line, files, (2, "usage\n"))?;
    }
    Ok(())
}

#[test]
fn two_schemas_are_compared(rt: HostRuntime) -> Result<(), Memory> {
    for (a, b, status, report) in [
        ("{}", "false", 1, "document\nnull\n"),
        ("true", "true", 0, NOTHING_LISTED),
        ("false", "false", 0, NOTHING_LISTED),
        (STRING, STRING_OR_NULL, 0, CERTIFICATE),
        (STRING_OR_NULL, STRING, 1, "document\nnull\n"),
        ("{\"title\":{\"type\":5}}", "true", 0, NOTHING_LISTED),
        ("{\"$id\":\"urn:a\"}", "true", 0, NOTHING_LISTED),
        ("{\"additionalItems\":false}", "true", 0, NOTHING_LISTED),
        ("{}", "{\"type\":[]}", 1, "document\nnull\n"),
        ("{\"type\":\"boolean\"}", "false", 1, "document\nfalse\n"),
        (
            "true",
            "{\"type\":[\"null\",\"boolean\"]}",
            1,
            "document\n0\n",
        ),
        (STRING, "{\"not\":{}}", 1, "document\n\"\"\n"),
        (
            "{\"allOf\":[{\"type\":[\"null\",\"array\"]},{\"not\":{\"type\":\"null\"}}]}",
            "false",
            1,
            "document\n[]\n",
        ),
        (
            "{\"anyOf\":[{\"type\":\"object\"},{\"type\":\"array\"}]}",
            "{\"type\":\"array\"}",
            1,
            "document\n{}\n",
        ),
    ] {
        let files = (a.as_bytes(), b.as_bytes());
        expect(&rt, rt.alloc(), "include a b", files, (status, report))?;
    }
    Ok(())
}

#[test]
fn a_file_that_is_no_schema_is_refused(rt: HostRuntime) -> Result<(), Memory> {
    for (a, b, report) in [
        ("", "true", "refused first notjson\n"),
        ("{\"type\":", "true", "refused first notjson\n"),
        ("\u{feff}true", "true", "refused first notjson\n"),
        ("{\"title\":\"\\ud800\"}", "true", "refused first notjson\n"),
        ("{\"title\":1e999}", "true", "refused first notjson\n"),
        ("5", "true", "refused first notaschema \"\"\n"),
        (
            "{\"type\":\"frob\"}",
            "true",
            "refused first wrongshape type \"/type\"\n",
        ),
        (
            "{\"allOf\":[]}",
            "true",
            "refused first emptylist \"/allOf\"\n",
        ),
        (
            "{\"allOf\":5}",
            "true",
            "refused first wrongshape allOf \"/allOf\"\n",
        ),
        (
            "{\"allOf\":[5]}",
            "true",
            "refused first notaschema \"/allOf/0\"\n",
        ),
        ("{\"$ref\":\"#\"}", "true", "refused first cycle \"\"\n"),
        ("true", "", "refused second notjson\n"),
        ("", "5", "refused first notjson\n"),
    ] {
        let files = (a.as_bytes(), b.as_bytes());
        expect(&rt, rt.alloc(), "include a b", files, (3, report))?;
    }
    let files = (b"{\"title\":\"\xff\"}".as_slice(), b"true".as_slice());
    expect(
        &rt,
        rt.alloc(),
        "include a b",
        files,
        (3, "refused first notjson\n"),
    )
}

/// The first file is reported before the second one.
#[test]
fn one_file_that_is_no_schema_is_refused(rt: HostRuntime) -> Result<(), Memory> {
    for (a, b, report) in [
        ("", "{\"minProperties\":1}", "refused first notjson\n"),
        ("{\"minProperties\":1}", "", "refused second notjson\n"),
    ] {
        let files = (a.as_bytes(), b.as_bytes());
        expect(&rt, rt.alloc(), "include a b", files, (3, report))?;
    }
    Ok(())
}

/// `inner` between `count` copies of `open` and of `close`.
fn nested(
    alloc: Global,
    count: usize,
    open: &str,
    inner: &str,
    close: &str,
) -> Result<String, AllocError> {
    let mut text = open.repeat(alloc, count)?;
    text.push_str(inner)?;
    text.push_str(close.repeat(alloc, count)?.as_str())?;
    Ok(text)
}

#[test]
fn a_file_may_have_16777216_bytes(rt: HostRuntime) -> Result<(), Memory> {
    for (blanks, answer) in [
        (16_777_212, (0, NOTHING_LISTED)),
        (16_777_213, (3, "refused first toolong\n")),
    ] {
        let a = nested(rt.alloc(), blanks, " ", "true", "")?;
        let files = (a.as_bytes(), b"true".as_slice());
        expect(&rt, rt.alloc(), "include a b", files, answer)?;
    }
    Ok(())
}

#[test]
fn lists_may_nest_127_deep(rt: HostRuntime) -> Result<(), Memory> {
    for (count, report) in [
        (127, "refused first notaschema \"\"\n"),
        (128, "refused first notjson\n"),
    ] {
        let a = nested(rt.alloc(), count, "[", "", "]")?;
        let files = (a.as_bytes(), b"true".as_slice());
        expect(&rt, rt.alloc(), "include a b", files, (3, report))?;
    }
    Ok(())
}

#[test]
fn negations_may_nest_127_deep(rt: HostRuntime) -> Result<(), Memory> {
    let alloc = rt.alloc();
    for (count, status) in [(126, 1), (127, 0), (128, 3)] {
        let a = nested(alloc, count, "{\"not\":", "true", "}")?;
        let mut shelf = MemoryShelf::new(two_files(alloc, a.as_bytes(), b"false")?);
        let mut sink = MemorySink::new(alloc, ROOM)?;
        let found = status_of(&rt, alloc, "include a b", &mut shelf, &mut sink)?;
        assert_eq!(rt; found, status, "{count} negations");
    }
    Ok(())
}

/// That of null; at other kinds there is one.
#[test]
fn a_tree_may_have_16384_ends(rt: HostRuntime) -> Result<(), Memory> {
    for (count, status, report) in [(13, 1, "document\nnull\n"), (14, 4, "limit branches +0\n")] {
        let choice = "{\"anyOf\":[true,true]}";
        let choices = nested(rt.alloc(), count, "{\"anyOf\":[true,true]},", choice, "")?;
        let a = nested(
            rt.alloc(),
            1,
            "{\"type\":\"null\",\"allOf\":[",
            choices.as_str(),
            "]}",
        )?;
        let files = (a.as_bytes(), b"false".as_slice());
        expect(&rt, rt.alloc(), "include a b", files, (status, report))?;
    }
    Ok(())
}

/// At each kind.
#[test]
fn each_tree_may_have_16384_ends(rt: HostRuntime) -> Result<(), Memory> {
    for (count, status, report) in [(13, 0, "document\nnull\n"), (14, 4, "limit branches +0\n")] {
        let choice = "{\"anyOf\":[true,true]}";
        let choices = nested(rt.alloc(), count, "{\"anyOf\":[true,true]},", choice, "")?;
        let a = nested(rt.alloc(), 1, "{\"allOf\":[", choices.as_str(), "]}")?;
        let files = (a.as_bytes(), b"".as_slice());
        expect(&rt, rt.alloc(), "sat a", files, (status, report))?;
    }
    Ok(())
}
