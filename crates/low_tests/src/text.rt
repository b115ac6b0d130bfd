//! Texts of a small table and of its documents, what is measured of them, and which texts are read.

use js_doc::{Part, PartId, PartIds, PartMap, PartMember, Parts, Str, unshare};
use js_text::{Measures, PartsLineFault, doc_text, found_text, parts_read, parts_text};
use std::alloc::Global;
use std::test::Fail;

/// `-5`, `"é\n"`, `[]`, `[-5, []]` and `{"é\n": [-5, []]}`.
fn table(alloc: Global) -> Result<Parts, Fail> {
    let mut parts = Parts::new(alloc);
    let number = parts.push(Part::Num(-5))?;
    let _ = parts.push(Part::Text(Str::from_text(alloc, "é\n")?))?;
    let empty = parts.push(Part::List(PartIds::from_vec(vec![in alloc;]?)))?;
    let list = parts.push(Part::List(PartIds::from_vec(vec![in alloc; number, empty]?)))?;
    let name = Str::from_text(alloc, "é\n")?;
    let members = vec![in alloc; PartMember { name, part: list }]?;
    let _ = parts.push(Part::Members(PartMap::from_vec(members)))?;
    Ok(parts)
}

/// The document of the part has that text, and is measured as it is.
fn is_told(
    alloc: Global,
    parts: &Parts,
    number: u32,
    text: &str,
    depth: u32,
) -> Result<bool, Fail> {
    if number >= parts.len() {
        return Ok(false);
    }
    let id = PartId(number);
    let written = doc_text(alloc, &unshare(alloc, parts, id)?)?;
    let measure = Measures::room(alloc, parts)?.measure(parts, id);
    let measured = measure.length == text.len() as u64 && measure.depth == depth;
    Ok(written.as_slice() == text.as_bytes() && measured && measure.short_numbers)
}

fn has_lines(alloc: Global, parts: &Parts, lines: &str) -> Result<bool, Fail> {
    let count = parts.len();
    if count == 0 {
        return Ok(false);
    }
    let written = parts_text(alloc, parts, PartId(count - 1))?;
    Ok(written.as_slice() == lines.as_bytes())
}

#[test]
fn texts_and_measures_of_a_table(rt: HostRuntime) -> Result<(), Fail> {
    let alloc = rt.alloc();
    let parts = table(alloc)?;
    assert!(rt; is_told(alloc, &parts, 0, "-5", 0)?);
    assert!(rt; is_told(alloc, &parts, 1, "\"é\\n\"", 0)?);
    assert!(rt; is_told(alloc, &parts, 2, "[]", 1)?);
    assert!(rt; is_told(alloc, &parts, 3, "[-5,[]]", 2)?);
    assert!(rt; is_told(alloc, &parts, 4, "{\"é\\n\":[-5,[]]}", 3)?);
    let lines = "parts 5\n0 -5\n1 \"é\\n\"\n2 []\n3 [#0,#2]\n4 {\"é\\n\":#3}\n";
    assert!(rt; has_lines(alloc, &parts, lines)?);
    Ok(())
}

/// The text is read, and what is read has it again.
fn is_read(alloc: Global, text: &str) -> Result<bool, Fail> {
    match parts_read(alloc, text.as_bytes()) {
        Ok((parts, root)) => {
            let written = parts_text(alloc, &parts, root)?;
            Ok(written.as_slice() == text.as_bytes())
        }
        Err(_) => Ok(false),
    }
}

#[test]
fn texts_that_are_read(rt: HostRuntime) -> Result<(), Fail> {
    let alloc = rt.alloc();
    let cases = [
        "parts 1\n0 null\n",
        "parts 2\n0 true\n1 false\n",
        "parts 2\n0 -170141183460469231731687303715884105728\n1 170141183460469231731687303715884105727\n",
        "parts 2\n0 \"\\u0001\\b\\\"\\\\/é😀\"\n1 \"\"\n",
        "parts 4\n0 []\n1 {}\n2 [#0,#1,#0]\n3 {\"\":#2,\",\\\"#\":#0}\n",
    ];
    for text in &cases {
        assert!(rt; is_read(alloc, text)?);
    }
    Ok(())
}

#[test]
fn lines_that_are_told(rt: HostRuntime) -> Result<(), Fail> {
    let alloc = rt.alloc();
    let cases = [
        ("", 1),
        ("parts 1", 1),
        ("parts 0\n", 1),
        ("parts 01\n0 null\n", 1),
        ("parts 4294967296\n0 null\n", 1),
        ("parts 1\n", 2),
        ("parts 1\n0 nul", 2),
        ("parts 1\n0 null", 2),
        ("parts 1\n1 null\n", 2),
        ("parts 1\n0 -0\n", 2),
        ("parts 1\n0 170141183460469231731687303715884105728\n", 2),
        ("parts 1\n0 \"\\u0041\"\n", 2),
        ("parts 1\n0 [#0]\n", 2),
        ("parts 2\n0 null\n1 [#0, #0]\n", 3),
        ("parts 2\n0 null\n1 [#0,]\n", 3),
        ("parts 2\n0 null\n1 {\"b\":#0,\"a\":#0}\n", 3),
        ("parts 2\n0 null\n1 {\"a\":#0,\"a\":#0}\n", 3),
        ("parts 1\n0 null\n1 null\n", 3),
        ("parts 1\n0 null\n\n", 3),
        ("parts 1\n0 null\nx", 3),
    ];
    for (text, line) in &cases {
        let fault = parts_read(alloc, text.as_bytes()).err();
        assert!(rt; fault == Some(PartsLineFault::NotAPart(*line)));
    }
    Ok(())
}

/// The document of the last part is printed by that text.
fn is_found(alloc: Global, parts: &Parts, text: &str) -> Result<bool, Fail> {
    let count = parts.len();
    if count == 0 {
        return Ok(false);
    }
    let written = found_text(alloc, parts, PartId(count - 1))?;
    Ok(written.as_slice() == text.as_bytes())
}

/// A number alone.
fn of_number(alloc: Global, number: i128) -> Result<Parts, Fail> {
    let mut parts = Parts::new(alloc);
    let _ = parts.push(Part::Num(number))?;
    Ok(parts)
}

/// An array in an array, so many deep.
fn nest(alloc: Global, depth: usize) -> Result<Parts, Fail> {
    let mut parts = Parts::new(alloc);
    let mut last = parts.push(Part::List(PartIds::from_vec(vec![in alloc;]?)))?;
    for _ in 1..depth {
        if parts.len() == u32::MAX {
            Err("a full table")?;
        }
        last = parts.push(Part::List(PartIds::from_vec(vec![in alloc; last]?)))?;
    }
    Ok(parts)
}

#[test]
fn texts_of_what_is_found(rt: HostRuntime) -> Result<(), Fail> {
    let alloc = rt.alloc();
    let plain = "document\n{\"é\\n\":[-5,[]]}\n";
    assert!(rt; is_found(alloc, &table(alloc)?, plain)?);
    let greatest = of_number(alloc, 18446744073709551615)?;
    assert!(rt; is_found(alloc, &greatest, "document\n18446744073709551615\n")?);
    let greater = of_number(alloc, 18446744073709551616)?;
    assert!(rt; is_found(alloc, &greater, "parts 1\n0 18446744073709551616\n")?);
    let deep = found_of(alloc, &nest(alloc, 121)?)?;
    assert!(rt; deep.starts_with(b"parts 121\n0 []\n1 [#0]\n"));
    let shallow = found_of(alloc, &nest(alloc, 120)?)?;
    assert!(rt; shallow.starts_with(b"document\n[[["));
    Ok(())
}

fn found_of(alloc: Global, parts: &Parts) -> Result<Vec<u8>, Fail> {
    let count = parts.len();
    if count == 0 {
        return Ok(Vec::new(alloc));
    }
    Ok(found_text(alloc, parts, PartId(count - 1))?)
}
