//! What `gen` prints.

use crate::setting::{CERTIFICATE, STRING, STRING_OR_NULL, expect};
use js_doc::Memory;

const WIDE: &str = "generated wide 2\ngoals 5\nrounds 1\ncertificate 3\n";

const TREE: &str = "generated tree 3\ngoals 9\nrounds 1\ncertificate 6\n";

#[test]
fn a_family_is_summarised(rt: HostRuntime) -> Result<(), Memory> {
    for (line, status, report) in [
        (
            "gen chain 1",
            1,
            "generated chain 1\ngoals 1\nrounds 1\ndocument\n",
        ),
        (
            "gen chain 40",
            1,
            "generated chain 40\ngoals 40\nrounds 40\nparts 40\n",
        ),
        (
            "gen chain 1000",
            1,
            "generated chain 1000\ngoals 1000\nrounds 1000\nparts 1000\n",
        ),
        ("gen wide 2", 0, WIDE),
        ("gen wide 2 --workers 64", 0, WIDE),
        (
            "gen wide 50",
            0,
            "generated wide 50\ngoals 101\nrounds 1\ncertificate 51\n",
        ),
        ("gen tree 3", 0, TREE),
        ("gen tree --workers=4 3", 0, TREE),
        (
            "gen tree 100",
            0,
            "generated tree 100\ngoals 300\nrounds 1\ncertificate 200\n",
        ),
        (
            "gen patterns 8",
            1,
            "generated patterns 8\ngoals 257\nrounds 2\ndocument\n",
        ),
        ("gen patterns 9", 2, "usage\n"),
        ("gen chain 0", 2, "usage\n"),
        ("gen chain 01", 2, "usage\n"),
        ("gen chain", 2, "usage\n"),
        ("gen chains 1", 2, "usage\n"),
    ] {
        expect(&rt, rt.alloc(), line, (b"true", b"true"), (status, report))?;
    }
    Ok(())
}

/// Behind `--` all words are names.
#[test]
fn a_name_may_begin_with_a_dash(rt: HostRuntime) -> Result<(), Memory> {
    for (line, status, report) in [
        ("include a -- b", 0, CERTIFICATE),
        ("include -- a b", 0, CERTIFICATE),
        ("include a -- -b", 5, "readfault\n"),
        ("include a -b", 2, "usage\n"),
    ] {
        let files = (STRING.as_bytes(), STRING_OR_NULL.as_bytes());
        expect(&rt, rt.alloc(), line, files, (status, report))?;
    }
    Ok(())
}
