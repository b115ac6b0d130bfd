//! What `check` answers: verdicts on certificates, and the first refusal in the order of work.

use crate::setting::{CERTIFICATE, STRING, STRING_OR_NULL, expect, expect_checked};
use js_doc::Memory;
use std::alloc::Global;

const ENDLESS: &str =
    r##"{"type":"object","required":["next"],"properties":{"next":{"$ref":"#"}}}"##;

/// The certificate that no object is endless.
const ENDLESS_LINES: [&str; 32] = [
    "certificate 1",
    "goals 1",
    "goal +0",
    "entry 0",
    "at null",
    "rule +0",
    "kind +2",
    "at boolean",
    "rule +0",
    "kind +2",
    "at number",
    "rule +0",
    "kind +2",
    "at string",
    "rule +0",
    "kind +2",
    "at array",
    "rule +0",
    "kind +2",
    "at object",
    "rule +0",
    "object 6 1",
    "row 1 1 2 1 1",
    "row 1 1 1 1 1",
    "row 1 3 1 1 1",
    "row 1 1 1 1 4",
    "row 1 1 1 5 1",
    "row 1 1 1 1 1",
    "cap 1 1 0 1 1 1 1",
    "split",
    "member 0 goal 0",
    "end",
];

/// So many of these lines, with another one in the place of the line of that number, or behind them.
fn endless_lines(
    alloc: Global,
    count: usize,
    (number, line): (usize, &str),
) -> Result<String, Memory> {
    let mut text = String::new(alloc);
    let mut at = 0usize;
    for own in ENDLESS_LINES {
        at = at.saturating_add(1);
        if at <= count {
            if at == number {
                write!(text, "{line}\n")?;
            } else {
                write!(text, "{own}\n")?;
            }
        }
    }
    if number > count {
        write!(text, "{line}\n")?;
    }
    Ok(text)
}

#[test]
fn no_document_is_endless(rt: HostRuntime) -> Result<(), Memory> {
    let optional = r##"{"type":"object","properties":{"next":{"$ref":"#"}}}"##;
    for (a, count, answer) in [
        (ENDLESS, 32, (0, "accepted\n")),
        (ENDLESS, 31, (1, "rejected 32 3\n")),
        // Without `required` no demand is left to split.
        (optional, 32, (1, "rejected 30 22\n")),
    ] {
        let text = endless_lines(rt.alloc(), count, (0, ""))?;
        expect_checked(&rt, rt.alloc(), (a, "false", text.as_str()), answer)?;
    }
    let mut unended = endless_lines(rt.alloc(), 31, (0, ""))?;
    unended.push_str("end")?;
    let answer = (1, "rejected 32 3\n");
    expect_checked(
        &rt,
        rt.alloc(),
        (ENDLESS, "false", unended.as_str()),
        answer,
    )
}

/// One line is changed, or one comes behind the last one.
#[test]
fn a_changed_line_is_rejected(rt: HostRuntime) -> Result<(), Memory> {
    for (number, line, report) in [
        (2, "goals 01", "rejected 2 1\n"),
        (3, "goal +1", "rejected 3 5\n"),
        (3, "goal +2", "rejected 3 6\n"),
        (4, "entry 1", "rejected 4 7\n"),
        (5, "at boolean", "rejected 5 8\n"),
        (6, "rule +2", "rejected 6 9\n"),
        (7, "kind +3", "rejected 7 11\n"),
        (21, "number", "rejected 21 12\n"),
        (22, "object 0 1", "rejected 22 16\n"),
        (23, "row 1 1 2 1", "rejected 23 17\n"),
        (23, "row 1 1 3 1 1", "rejected 23 18\n"),
        (29, "cap 0 1 1 1 1 1 1", "rejected 29 21\n"),
        (29, "cap 1 0 0 1 1 1 1", "rejected 29 21\n"),
        (30, "short -", "rejected 30 24\n"),
        (31, "member 0 goal 1", "rejected 31 23\n"),
        (33, "end", "rejected 33 4\n"),
    ] {
        let text = endless_lines(rt.alloc(), 32, (number, line))?;
        expect_checked(
            &rt,
            rt.alloc(),
            (ENDLESS, "false", text.as_str()),
            (1, report),
        )?;
    }
    Ok(())
}

#[test]
fn a_certificate_is_judged(rt: HostRuntime) -> Result<(), Memory> {
    for (a, b, certificate, status, report) in [
        (STRING, STRING_OR_NULL, CERTIFICATE, 0, "accepted\n"),
        (
            "false",
            STRING,
            "certificate 1\ngoals 0\nend\n",
            0,
            "accepted\n",
        ),
        (
            ENDLESS,
            "false",
            "certificate 1\ngoals 0\nend\n",
            1,
            "rejected 2 6\n",
        ),
        ("false", "true", "", 1, "rejected 1 3\n"),
        ("false", "true", "\n", 1, "rejected 1 1\n"),
        ("false", "true", "goals 0\n", 1, "rejected 1 4\n"),
        (
            "false",
            "true",
            "certificate 1\ngoals 0\nend \n",
            1,
            "rejected 3 1\n",
        ),
        (
            "false",
            "true",
            "certificate 1\ngoals 0\nend\nend\n",
            1,
            "rejected 4 4\n",
        ),
        (
            "false",
            "true",
            "certificate 1\ngoals 0\nend\ne",
            1,
            "rejected 4 4\n",
        ),
        ("{", "true", "", 3, "refused first notjson\n"),
        ("true", "5", "", 3, "refused second notaschema \"\"\n"),
    ] {
        expect_checked(&rt, rt.alloc(), (a, b, certificate), (status, report))?;
    }
    Ok(())
}

#[test]
fn a_certificate_may_not_be_there(rt: HostRuntime) -> Result<(), Memory> {
    for (line, a, answer) in [
        ("check a b c", "true", (5, "readfault\n")),
        ("check c b a", "true", (5, "readfault\n")),
        ("check a b c", "5", (3, "refused first notaschema \"\"\n")),
    ] {
        expect(&rt, rt.alloc(), line, (a.as_bytes(), b"true"), answer)?;
    }
    Ok(())
}
