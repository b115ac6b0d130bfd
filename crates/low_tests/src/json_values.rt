//! What no clause says: that ample memory is enough for each call.

use js_doc::{Json, depth, equal};
use js_json::{
    JsonFault, Pointer, RefFault, at_pointer, member, read_doc, read_json, target, to_doc,
};
use std::alloc::{AllocError, Global};
use std::test::Fail;

#[test]
fn reads_json_and_refuses_the_rest(rt: HostRuntime) -> Result<(), Fail> {
    let cases = [
        ("{\"a\":[1,-2.5,true,null,\"\\u00e9\"],\"b\":{}}", true),
        (" 18446744073709551616 ", true),
        ("", false),
        ("[1,]", false),
        ("\"\\ud83d\"", false),
        ("1e999", false),
        ("\u{feff}1", false),
    ];
    for (text, expected) in cases {
        assert_eq!(rt; reads(rt.alloc(), text)?, expected, "{text}");
    }
    for (levels, expected) in [(127, true), (128, false)] {
        let text = nested(rt.alloc(), levels)?;
        assert_eq!(rt;
            reads(rt.alloc(), text.as_str())?,
            expected,
            "{levels} levels"
        );
    }
    Ok(())
}

fn reads(alloc: Global, text: &str) -> Result<bool, JsonFault> {
    match read_json(alloc, text.as_bytes()) {
        Ok(_) => Ok(true),
        Err(JsonFault::NotJson) => Ok(false),
        Err(fault) => Err(fault),
    }
}

fn nested(alloc: Global, levels: usize) -> Result<String, AllocError> {
    let mut text = String::new(alloc);
    for _ in 0..levels {
        text.push('[')?;
    }
    for _ in 0..levels {
        text.push(']')?;
    }
    Ok(text)
}

#[test]
fn finds_and_prints_places(rt: HostRuntime) -> Result<(), Fail> {
    let alloc = rt.alloc();
    let json = read_json(alloc, b"{\"b\":2,\"a\":1,\"a\":3}")?;
    let Json::Members(members) = &json else {
        return Err("no object".into());
    };
    assert!(rt; matches!(member(members, "a"), Some(Json::Num(3))));
    assert!(rt; member(members, "c").is_none());

    let mut place = Pointer::root(alloc);
    assert_eq!(rt; place.text(alloc)?.as_str(), "\"\"");
    place.push_name("a/b")?;
    place.push_name("~\"é\n")?;
    let copy = place.copy(alloc)?;
    place.pop();
    place.push_index(10)?;
    assert_eq!(rt; place.text(alloc)?.as_str(), "\"/a~1b/10\"");
    assert_eq!(rt; copy.text(alloc)?.as_str(), "\"/a~1b/~0\\\"é\\n\"");
    Ok(())
}

#[test]
fn makes_documents(rt: HostRuntime) -> Result<(), Fail> {
    let alloc = rt.alloc();
    let cases = [
        ("{\"b\":[null,true,-7,\"~\"],\"a\":{\"\":[]}}", ""),
        ("-0", "\"\""),
        ("[[1,2],[3,4.0,5e0]]", "\"/1/1\""),
        ("{\"b\":0.5,\"a/~\":[1e2]}", "\"/a~1~0/0\""),
    ];
    for (text, expected) in cases {
        let json = read_json(alloc, text.as_bytes())?;
        for made in [to_doc(alloc, &json), read_doc(alloc, text.as_bytes())] {
            match made {
                Ok(doc) => assert!(rt; expected.is_empty() && depth(&doc) == 3, "{text}"),
                Err(JsonFault::NotWhole(place)) => {
                    assert_eq!(rt; place.text(alloc)?.as_str(), expected, "{text}");
                }
                Err(fault) => return Err(fault.into()),
            }
        }
    }
    Ok(())
}

#[test]
fn reads_documents_at_once(rt: HostRuntime) -> Result<(), Fail> {
    let alloc = rt.alloc();
    let cases = [
        (
            "{\"b\":1,\"a\":[-9223372036854775808,18446744073709551615],\"b\":\"\\u00e9\"}",
            true,
        ),
        ("{\"a\":0.5,\"a\":1}", true),
        ("{\"a\":1,}", false),
        ("[0.5,]", false),
        ("[1e999]", false),
    ];
    for (text, expected) in cases {
        match read_doc(alloc, text.as_bytes()) {
            Ok(doc) => {
                let json = read_json(alloc, text.as_bytes())?;
                assert!(rt; expected && equal(&doc, &to_doc(alloc, &json)?), "{text}");
            }
            Err(JsonFault::NotJson) => assert!(rt; !expected, "{text}"),
            Err(fault) => return Err(fault.into()),
        }
    }
    Ok(())
}

/// The file of RFC 6901, section 5, with places for schemas beside its members.
const SAMPLE: &str =
    "{\"foo\":[\"bar\",true],\"\":{},\"a/b\":{},\"c%d\":true,\"e^f\":{},\"g|h\":{},\
    \"i\\\\j\":false,\"k\\\"l\":{},\" \":{},\"m~n\":{},\"anyOf\":[{},{\"not\":false}],\"n\":1,\"0\":{}}";

#[test]
fn resolves_references(rt: HostRuntime) -> Result<(), Fail> {
    let alloc = rt.alloc();
    let read = read_json(alloc, SAMPLE.as_bytes())?;
    let json = &read;
    let cases = [
        ("", Ok("\"\"")),
        ("#", Ok("\"\"")),
        ("#/", Ok("\"/\"")),
        ("#/a~1b", Ok("\"/a~1b\"")),
        ("#/c%25d", Ok("\"/c%d\"")),
        ("#/e%5Ef", Ok("\"/e^f\"")),
        ("#/g%7Ch", Ok("\"/g|h\"")),
        ("#/i%5Cj", Ok("\"/i\\\\j\"")),
        ("#/k%22l", Ok("\"/k\\\"l\"")),
        ("#/%20", Ok("\"/ \"")),
        ("#/ ", Ok("\"/ \"")),
        ("#/m~0n", Ok("\"/m~0n\"")),
        ("#/anyOf/0", Ok("\"/anyOf/0\"")),
        ("#/anyOf/1/not", Ok("\"/anyOf/1/not\"")),
        ("#/0", Ok("\"/0\"")),
        ("#/foo/1", Ok("\"/foo/1\"")),
        ("s.json", Ok("\"\"")),
        ("s.json#/a~1b", Ok("\"/a~1b\"")),
        ("o.json", Err(RefFault::Remote)),
        ("o.json#/~2", Err(RefFault::Remote)),
        (" ", Err(RefFault::Remote)),
        ("s.json/#", Err(RefFault::Remote)),
        ("#x", Err(RefFault::BadPointer)),
        ("##", Err(RefFault::BadPointer)),
        ("#/~2", Err(RefFault::BadPointer)),
        ("#/a~", Err(RefFault::BadPointer)),
        ("#/~/0", Err(RefFault::BadPointer)),
        ("#/%ff", Err(RefFault::BadPointer)),
        ("#/anyOf/00", Err(RefFault::Missing)),
        ("#/anyOf/01", Err(RefFault::Missing)),
        ("#/anyOf/2", Err(RefFault::Missing)),
        ("#/anyOf/-", Err(RefFault::Missing)),
        ("#/anyOf/+1", Err(RefFault::Missing)),
        ("#/anyOf/18446744073709551616", Err(RefFault::Missing)),
        ("#/anyOf/", Err(RefFault::Missing)),
        ("#/a~1b/0", Err(RefFault::Missing)),
        ("#/n/0", Err(RefFault::Missing)),
        ("#/a/b", Err(RefFault::Missing)),
        ("#/n", Err(RefFault::NotASchema)),
        ("#/foo", Err(RefFault::NotASchema)),
        ("#/foo/0", Err(RefFault::NotASchema)),
    ];
    for (text, expected) in cases {
        for id in ["s.json", "s.json#"] {
            match target(alloc, json, text, Some(id)) {
                Ok(target) => {
                    assert_eq!(rt; Ok(target.place.text(alloc)?.as_str()), expected, "{text}");
                    assert!(rt; at_pointer(json, &target.place).is_some(), "{text}");
                }
                Err(fault) => assert_eq!(rt; Err(fault), expected, "{text}"),
            }
        }
    }
    Ok(())
}
