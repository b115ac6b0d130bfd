//! Limits: what is answered at the last count within one, and at the first count over it.
//!
//! Those of branches, of multiples, of states and of counts are with the other answers.

use crate::setting::{expect, expect_certificate};
use js_doc::Memory;
use std::alloc::Global;
use std::process::Abort;
use std::thread::Threads;

/// Fails unless `sat` gives a schema this status and report.
fn expect_sat<R: Abort + Threads + Sync>(
    rt: &R,
    alloc: Global,
    schema: &str,
    answer: (u8, &str),
) -> Result<(), Memory> {
    expect(
        rt,
        alloc,
        "sat a",
        (schema.as_bytes(), b"".as_slice()),
        answer,
    )
}

/// A text so many times, with commas between.
fn list(alloc: Global, count: u32, text: &str) -> Result<String, Memory> {
    let mut list = String::new(alloc);
    for number in 0..count {
        list.push_str(if number > 0 { "," } else { "" })?;
        list.push_str(text)?;
    }
    Ok(list)
}

/// One more position than there may be is among the limits that `a_limit_is_told` shows.
#[test]
fn a_pattern_may_have_16384_positions(rt: HostRuntime) -> Result<(), Memory> {
    let letters = "a".repeat(rt.alloc(), 16_384)?;
    let document = format!(in rt.alloc(); "document\n\"{letters}\"\n")?;
    let schema = r#"{"type":"string","pattern":"^a{16384}$"}"#;
    expect_sat(&rt, rt.alloc(), schema, (0, document.as_str()))
}

/// A pattern of so many groups in one another.
fn groups(alloc: Global, count: usize) -> Result<String, Memory> {
    let open = "(".repeat(alloc, count)?;
    let close = ")".repeat(alloc, count)?;
    Ok(format!(in alloc; "{{\"type\":\"string\",\"pattern\":\"{open}a{close}\"}}")?)
}

#[test]
fn groups_may_nest_1000_deep(rt: HostRuntime) -> Result<(), Memory> {
    let refused = "refused first pattern unsupported nesting 1000 \"/pattern\"\n";
    for (count, answer) in [(1_000, (0, "document\n\"a\"\n")), (1_001, (3, refused))] {
        let schema = groups(rt.alloc(), count)?;
        expect_sat(&rt, rt.alloc(), schema.as_str(), answer)?;
    }
    Ok(())
}

/// An `enum` of strings of one letter, from U+0100 on and before `end`.
fn letters(alloc: Global, end: u32) -> Result<String, Memory> {
    let mut schema = String::new(alloc);
    schema.push_str("{\"enum\":[")?;
    for letter in 0x100..end {
        schema.push_str(if letter > 0x100 { "," } else { "" })?;
        write!(schema, "\"\\u{letter:04x}\"")?;
    }
    schema.push_str("]}")?;
    Ok(schema)
}

#[test]
fn there_may_be_1024_classes(rt: HostRuntime) -> Result<(), Memory> {
    for (end, answer) in [
        (0x4ff, (0, "document\n\"\u{100}\"\n")),
        (0x500, (4, "limit classes +0\n")),
    ] {
        let schema = letters(rt.alloc(), end)?;
        expect_sat(&rt, rt.alloc(), schema.as_str(), answer)?;
    }
    Ok(())
}

/// Whole numbers from 0 on, but for so many.
fn but_for(alloc: Global, count: u32) -> Result<String, Memory> {
    let mut schema = String::new(alloc);
    schema.push_str("{\"type\":\"integer\",\"minimum\":0,\"not\":{\"enum\":[0")?;
    for number in 1..count {
        write!(schema, ",{number}")?;
    }
    schema.push_str("]}}")?;
    Ok(schema)
}

#[test]
fn numbers_may_be_struck_65535_times(rt: HostRuntime) -> Result<(), Memory> {
    for (count, answer) in [
        (65_535, (0, "document\n65535\n")),
        (65_536, (4, "limit candidates +0\n")),
    ] {
        let schema = but_for(rt.alloc(), count)?;
        expect_sat(&rt, rt.alloc(), schema.as_str(), answer)?;
    }
    Ok(())
}

/// Each `contains` is served by one of two elements, which makes 65,535 and 131,071 ends of plans.
#[test]
fn there_may_be_65536_ends_of_plans(rt: HostRuntime) -> Result<(), Memory> {
    for (count, answer) in [
        (15, (0, "document\n[null]\n")),
        (16, (4, "limit plans +0\n")),
    ] {
        let asked = list(rt.alloc(), count, "{\"contains\":true}")?;
        let schema = format!(in rt.alloc();
            "{{\"type\":\"array\",\"maxItems\":2,\"items\":[true,true],\"allOf\":[{asked}]}}"
        )?;
        expect_sat(&rt, rt.alloc(), schema.as_str(), answer)?;
    }
    Ok(())
}

/// Arrays of 1,023 elements of which the first one can't be, in so many branches.
fn branches(alloc: Global, count: u32) -> Result<String, Memory> {
    let elements = list(alloc, 1_022, "true")?;
    let choices = list(alloc, count, "true")?;
    let schema = format!(in alloc;
        "{{\"type\":\"array\",\"minItems\":1023,\"items\":[{{\"not\":{{}}}},{elements}],\"anyOf\":[{choices}]}}"
    )?;
    Ok(schema)
}

#[test]
fn there_may_be_1048576_places(rt: HostRuntime) -> Result<(), Memory> {
    let within = branches(rt.alloc(), 1_024)?;
    let front = "certificate 1\ngoals ";
    expect_certificate(&rt, rt.alloc(), (within.as_str(), "false"), front)?;
    let over = branches(rt.alloc(), 1_025)?;
    expect_sat(&rt, rt.alloc(), over.as_str(), (4, "limit places +0\n"))
}
