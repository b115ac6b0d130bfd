//! Documents of `sat` that are large: as long as is counted, and one that is printed as parts and read back.

use crate::setting::expect;
use js_doc::Memory;
use std::alloc::Global;

/// One letter more needs a state more than there may be, as `a_limit_is_told` shows.
#[test]
fn a_string_may_have_65535_letters(rt: HostRuntime) -> Result<(), Memory> {
    let letters = "a".repeat(rt.alloc(), 65_535)?;
    let document = format!(in rt.alloc(); "document\n\"{letters}\"\n")?;
    let files = (
        br#"{"type":"string","minLength":65535}"#.as_slice(),
        b"".as_slice(),
    );
    expect(&rt, rt.alloc(), "sat a", files, (0, document.as_str()))
}

/// A text of 327,681 bytes, between the line `document` and the end of its own line.
#[test]
fn an_array_may_have_65536_elements(rt: HostRuntime) -> Result<(), Memory> {
    let nulls = "null,".repeat(rt.alloc(), 65_535)?;
    let document = format!(in rt.alloc(); "document\n[{nulls}null]\n")?;
    assert_eq!(rt; document.len(), 327_691);
    let files = (
        br#"{"type":"array","minItems":65536}"#.as_slice(),
        b"".as_slice(),
    );
    expect(&rt, rt.alloc(), "sat a", files, (0, document.as_str()))
}

/// Forty schemas, each but the last one of an object with two members of the next one.
fn chain(alloc: Global) -> Result<String, Memory> {
    let mut text = String::new(alloc);
    text.push_str("{\"$ref\":\"#/definitions/d0\",\"definitions\":{")?;
    for number in 0..39u32 {
        let next = number + 1;
        write!(
            text,
            "\"d{number}\":{{\"type\":\"object\",\"required\":[\"l\",\"r\"],\"properties\":{{"
        )?;
        write!(
            text,
            "\"l\":{{\"$ref\":\"#/definitions/d{next}\"}},\"r\":{{\"$ref\":\"#/definitions/d{next}\"}}}}}},"
        )?;
    }
    text.push_str("\"d39\":{\"type\":\"null\"}}}")?;
    Ok(text)
}

/// Its document, in which the two members are the same part.
fn chain_parts(alloc: Global) -> Result<String, Memory> {
    let mut text = String::new(alloc);
    text.push_str("parts 40\n0 null\n")?;
    for number in 1..40u32 {
        let below = number - 1;
        write!(text, "{number} {{\"l\":#{below},\"r\":#{below}}}\n")?;
    }
    Ok(text)
}

#[test]
fn a_document_may_be_printed_as_parts(rt: HostRuntime) -> Result<(), Memory> {
    let schema = chain(rt.alloc())?;
    let parts = chain_parts(rt.alloc())?;
    let files = (schema.as_bytes(), parts.as_bytes());
    for line in [
        "sat a",
        "sat a --workers 1",
        "sat a --workers 4",
        "sat a --workers 64",
    ] {
        expect(&rt, rt.alloc(), line, files, (0, parts.as_str()))?;
    }
    expect(&rt, rt.alloc(), "valid a b", files, (0, "valid\n"))
}
