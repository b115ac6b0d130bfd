//! Both schemas of each family at 1 and at 2 as texts, and that ample memory is enough at the greatest numbers.

ghost use Rattle.std.specs.Prelude.{◌≤◌};
ghost use Rattle.families.specs.Families.{greatest};
ghost use Rattle.js_gen.specs.KindView.{kind_view};

use js_doc::{Json, JsonList, JsonMap, Memory};
use js_gen::{GenKind, generate};
use std::alloc::Global;
use std::test::Fail;

/// Both schemas, a line for each. No text in them needs an escape.
fn shown(alloc: Global, kind: GenKind, n: u32) -> Result<String, Memory>
    requires least { 1 ≤ n }
    requires most { n ≤ greatest (kind_view kind) }
{
    let (first, second) = generate(alloc, kind, n)?;
    let mut out = String::new(alloc);
    show(alloc, &mut out, &first)?;
    out.push('\n')?;
    show(alloc, &mut out, &second)?;
    Ok(out)
}

#[cycle(show)]
fn show(alloc: Global, out: &mut String, value: &Json) -> Result<(), Memory> {
    match value {
        Json::Null => out.push_str("null")?,
        Json::Bool(true) => out.push_str("true")?,
        Json::Bool(false) => out.push_str("false")?,
        Json::Num(n) => out.push_str(format!(in alloc; "{n}")?.as_str())?,
        Json::NotWhole => out.push('?')?,
        Json::Text(word) => show_text(out, word.as_text())?,
        Json::List(list) => show_list(alloc, out, list)?,
        Json::Members(map) => show_members(alloc, out, map)?,
    }
    Ok(())
}

#[cycle(show)]
fn show_list(alloc: Global, out: &mut String, list: &JsonList) -> Result<(), Memory> {
    out.push('[')?;
    for (i, item) in list.as_slice().iter().enumerate() {
        if i > 0 {
            out.push(',')?;
        }
        show(alloc, out, item)?;
    }
    out.push(']')?;
    Ok(())
}

#[cycle(show)]
fn show_members(alloc: Global, out: &mut String, map: &JsonMap) -> Result<(), Memory> {
    out.push('{')?;
    for (i, member) in map.as_slice().iter().enumerate() {
        if i > 0 {
            out.push(',')?;
        }
        show_text(out, member.name().as_text())?;
        out.push(':')?;
        show(alloc, out, member.value())?;
    }
    out.push('}')?;
    Ok(())
}

fn show_text(out: &mut String, text: &str) -> Result<(), Memory> {
    out.push('"')?;
    out.push_str(text)?;
    out.push('"')?;
    Ok(())
}

#[test]
fn chain_at_one_and_two(rt: HostRuntime) -> Result<(), Fail> {
    let alloc = rt.alloc();
    let one = shown(alloc, GenKind::Chain, 1)?;
    assert_eq!(rt;
        one.as_str(),
        "{\"$ref\":\"#/definitions/d0\",\"definitions\":{\"d0\":{\"type\":\"null\"}}}\nfalse"
    );
    let two = shown(alloc, GenKind::Chain, 2)?;
    assert_eq!(rt;
        two.as_str(),
        "{\"$ref\":\"#/definitions/d0\",\"definitions\":{\
         \"d0\":{\"properties\":{\"l\":{\"$ref\":\"#/definitions/d1\"},\"r\":{\"$ref\":\"#/definitions/d1\"}},\
         \"required\":[\"l\",\"r\"],\"type\":\"object\"},\"d1\":{\"type\":\"null\"}}}\nfalse"
    );
    Ok(())
}

#[test]
fn wide_at_one_and_two(rt: HostRuntime) -> Result<(), Fail> {
    let alloc = rt.alloc();
    let one = shown(alloc, GenKind::Wide, 1)?;
    assert_eq!(rt;
        one.as_str(),
        "{\"additionalProperties\":false,\"properties\":{\"p0\":{\"minimum\":0,\"type\":\"integer\"}},\
         \"required\":[\"p0\"],\"type\":\"object\"}\n\
         {\"additionalProperties\":false,\"properties\":{\"p0\":{\"minimum\":0,\"type\":\"integer\"}},\
         \"type\":\"object\"}"
    );
    let two = shown(alloc, GenKind::Wide, 2)?;
    assert_eq!(rt;
        two.as_str(),
        "{\"additionalProperties\":false,\"properties\":{\"p0\":{\"minimum\":0,\"type\":\"integer\"},\
         \"p1\":{\"minimum\":1,\"type\":\"integer\"}},\"required\":[\"p0\",\"p1\"],\"type\":\"object\"}\n\
         {\"additionalProperties\":false,\"properties\":{\"p0\":{\"minimum\":0,\"type\":\"integer\"},\
         \"p1\":{\"minimum\":0,\"type\":\"integer\"}},\"type\":\"object\"}"
    );
    Ok(())
}

#[test]
fn patterns_at_one_and_two(rt: HostRuntime) -> Result<(), Fail> {
    let alloc = rt.alloc();
    let one = shown(alloc, GenKind::Patterns, 1)?;
    assert_eq!(rt;
        one.as_str(),
        "{\"minProperties\":1,\"patternProperties\":{\"a\":{\"minimum\":0}},\"type\":\"object\"}\n\
         {\"maxProperties\":1}"
    );
    let two = shown(alloc, GenKind::Patterns, 2)?;
    assert_eq!(rt;
        two.as_str(),
        "{\"minProperties\":1,\"patternProperties\":{\"a\":{\"minimum\":0},\"b\":{\"minimum\":1}},\
         \"type\":\"object\"}\n{\"maxProperties\":2}"
    );
    Ok(())
}

#[test]
fn tree_at_one_and_two(rt: HostRuntime) -> Result<(), Fail> {
    let alloc = rt.alloc();
    let one = shown(alloc, GenKind::Tree, 1)?;
    assert_eq!(rt;
        one.as_str(),
        "{\"$ref\":\"#/definitions/t0\",\"definitions\":{\"t0\":{\"properties\":{\
         \"kids\":{\"items\":{\"$ref\":\"#/definitions/t0\"},\"minItems\":1,\"type\":\"array\"},\
         \"v\":{\"type\":\"integer\"}},\"required\":[\"kids\",\"v\"],\"type\":\"object\"}}}\nfalse"
    );
    let two = shown(alloc, GenKind::Tree, 2)?;
    assert_eq!(rt;
        two.as_str(),
        "{\"$ref\":\"#/definitions/t0\",\"definitions\":{\"t0\":{\"properties\":{\
         \"kids\":{\"items\":{\"$ref\":\"#/definitions/t1\"},\"minItems\":1,\"type\":\"array\"},\
         \"v\":{\"type\":\"integer\"}},\"required\":[\"kids\",\"v\"],\"type\":\"object\"},\
         \"t1\":{\"properties\":{\
         \"kids\":{\"items\":{\"$ref\":\"#/definitions/t0\"},\"minItems\":1,\"type\":\"array\"},\
         \"v\":{\"type\":\"integer\"}},\"required\":[\"kids\",\"v\"],\"type\":\"object\"}}}\nfalse"
    );
    Ok(())
}

#[test]
fn greatest_numbers(rt: HostRuntime) -> Result<(), Fail> {
    let alloc = rt.alloc();
    assert!(rt; are_made(alloc, GenKind::Chain, GenKind::Chain.greatest())?);
    assert!(rt; are_made(alloc, GenKind::Wide, GenKind::Wide.greatest())?);
    assert!(rt; are_made(alloc, GenKind::Patterns, GenKind::Patterns.greatest())?);
    assert!(rt; are_made(alloc, GenKind::Tree, GenKind::Tree.greatest())?);
    Ok(())
}

fn are_made(alloc: Global, kind: GenKind, n: u32) -> Result<bool, Memory>
    requires least { 1 ≤ n }
    requires most { n ≤ greatest (kind_view kind) }
{
    let (first, _) = generate(alloc, kind, n)?;
    Ok(matches!(&first, Json::Members(_)))
}
