//! What `sat` and `include` answer for schemas that ask more of a document than its kind. Most cases of objects are in
//! `objects.rt`.

use crate::objects::{CLOSED, WITH_TAGS};
use crate::setting::{STRING, expect, expect_certificate, expect_checked};
use js_doc::Memory;

#[test]
fn a_schema_is_satisfied(rt: HostRuntime) -> Result<(), Memory> {
    for (a, status, report) in [
        ("{}", 0, "document\nnull\n"),
        ("false", 1, "certificate 1\ngoals 0\nend\n"),
        (STRING, 0, "document\n\"\"\n"),
        (
            r##"{"$ref":"#/definitions/x","uniqueItems":true,"definitions":{"x":true}}"##,
            0,
            "document\nnull\n",
        ),
        (
            r#"{"type":"integer","minimum":5,"multipleOf":3}"#,
            0,
            "document\n6\n",
        ),
        (
            r#"{"type":"integer","multipleOf":6,"not":{"multipleOf":3}}"#,
            1,
            "certificate 1\ngoals 1\ngoal +0\nentry 0\n\
                at null\nrule +0\nkind +2\nat boolean\nrule +0\nkind +2\n\
                at number\nrule +0\nrule +4\nrule -1\nnumber\n\
                at string\nrule +0\nkind +2\nat array\nrule +0\nkind +2\nat object\nrule +0\nkind +2\nend\n",
        ),
        (
            r#"{"type":"integer","exclusiveMinimum":18446744073709551615}"#,
            0,
            "parts 1\n0 18446744073709551616\n",
        ),
        (
            r#"{"enum":[3,"x",null],"not":{"type":"null"}}"#,
            0,
            "document\n3\n",
        ),
        (
            r##"{"$ref":"#/definitions/a~1b%25","definitions":{"a/b%":{"const":7}}}"##,
            0,
            "document\n7\n",
        ),
        (
            r#"{"type":"string","pattern":"\\d{3}-\\d{4}"}"#,
            0,
            "document\n\"000-0000\"\n",
        ),
        (
            r#"{"type":"string","pattern":"^a+$","maxLength":0}"#,
            1,
            "certificate 1\ngoals 1\ngoal +0\nentry 0\n\
                at null\nrule +0\nkind +1\nat boolean\nrule +0\nkind +1\nat number\nrule +0\nkind +1\n\
                at string\nrule +0\nstring 3\nrow 1 2\nrow 1 2\nrow 2 2\nleast 0 1 1\n\
                at array\nrule +0\nkind +1\nat object\nrule +0\nkind +1\nend\n",
        ),
        (
            r##"{"items":{"$ref":"#"},"type":"array"}"##,
            0,
            "document\n[]\n",
        ),
        (
            r#"{"type":"array","maxItems":1,"contains":{"type":"null"},"items":[{"type":"string"}]}"#,
            1,
            "certificate 1\ngoals 2\ngoal +0\ngoal +1 +2\nentry 0\n\
                at null\nrule +0\nkind +3\nat boolean\nrule +0\nkind +3\nat number\nrule +0\nkind +3\n\
                at string\nrule +0\nkind +3\nat array\nrule +0\narray\nsplit\nindex 0 goal 1\ncount\n\
                at object\nrule +0\nkind +3\nentry 1\n\
                at null\nrule +1\nrule +2\nkind +9\nat boolean\nrule +1\nkind +8\nat number\nrule +1\nkind +8\n\
                at string\nrule +1\nkind +8\nat array\nrule +1\nkind +8\nat object\nrule +1\nkind +8\nend\n",
        ),
        (
            r#"{"type":"array","maxItems":2,"contains":{"type":"null"},"items":[{"type":"string"}]}"#,
            0,
            "document\n[\"\",null]\n",
        ),
    ] {
        let files = (a.as_bytes(), b"true".as_slice());
        expect(&rt, rt.alloc(), "sat a", files, (status, report))?;
    }
    Ok(())
}

/// The same question by `include`, for which no document is the good answer: the statuses change places.
#[test]
fn one_schema_is_not_included_in_another(rt: HostRuntime) -> Result<(), Memory> {
    for (a, b, report) in [
        (
            r#"{"type":"integer","minimum":5,"multipleOf":3}"#,
            "false",
            "document\n6\n",
        ),
        (
            r#"{"type":"integer","maximum":2}"#,
            r#"{"oneOf":[{"type":"integer"},{"type":"integer","maximum":1}]}"#,
            "document\n1\n",
        ),
    ] {
        let files = (a.as_bytes(), b.as_bytes());
        expect(&rt, rt.alloc(), "include a b", files, (1, report))?;
    }
    Ok(())
}

#[test]
fn one_schema_is_included_in_another(rt: HostRuntime) -> Result<(), Memory> {
    for (a, b, front) in [
        ("false", STRING, "certificate 1\ngoals 0\nend\n"),
        (
            r#"{"oneOf":[{"type":"integer"},{"type":"integer","minimum":3}]}"#,
            r#"{"type":"integer","maximum":2}"#,
            "certificate 1\n",
        ),
        (CLOSED, WITH_TAGS, "certificate 1\n"),
    ] {
        expect_certificate(&rt, rt.alloc(), (a, b), front)?;
    }
    Ok(())
}

/// `additionalItems` isn't read beside one schema, so the two ask the same, and their tables are the same too.
#[test]
fn lists_of_strings_are_lists_of_strings(rt: HostRuntime) -> Result<(), Memory> {
    let closed = r#"{"type":"array","items":{"type":"string"},"additionalItems":false}"#;
    let plain = r#"{"type":"array","items":{"type":"string"}}"#;
    let certificate = "certificate 1\ngoals 2\ngoal +0 -5\ngoal +1 -6\nentry 0\n\
        at null\nrule +0\nkind +2\nat boolean\nrule +0\nkind +2\nat number\nrule +0\nkind +2\n\
        at string\nrule +0\nkind +2\n\
        at array\nrule +0\nrule -5\nkind -7\narray\nsplit\ntail 0 goal 1\n\
        at object\nrule +0\nkind +2\nentry 1\n\
        at null\nrule +1\nkind +4\nat boolean\nrule +1\nkind +4\nat number\nrule +1\nkind +4\n\
        at string\nrule +1\nrule -6\nkind -9\n\
        at array\nrule +1\nkind +4\nat object\nrule +1\nkind +4\nend\n";
    for (a, b) in [(closed, plain), (plain, closed)] {
        let files = (a.as_bytes(), b.as_bytes());
        expect(&rt, rt.alloc(), "include a b", files, (0, certificate))?;
        let accepted = (0, "accepted\n");
        expect_checked(&rt, rt.alloc(), (a, b, certificate), accepted)?;
    }
    Ok(())
}

/// With the goal that passes it.
#[test]
fn a_limit_is_told(rt: HostRuntime) -> Result<(), Memory> {
    for (a, report) in [
        (
            r#"{"type":"integer","minimum":1,"allOf":[{"multipleOf":18446744073709551615},{"multipleOf":18446744073709551614}]}"#,
            "limit multiples +0\n",
        ),
        (r#"{"type":"array","minItems":65537}"#, "limit counts +0\n"),
        (
            r#"{"type":"string","minLength":65536}"#,
            "limit states +0\n",
        ),
        (
            r#"{"type":"string","pattern":"^a{16384}b$"}"#,
            "limit positions +0\n",
        ),
    ] {
        let files = (a.as_bytes(), b"false".as_slice());
        expect(&rt, rt.alloc(), "sat a", files, (4, report))?;
        expect(&rt, rt.alloc(), "include a b", files, (4, report))?;
    }
    Ok(())
}

#[test]
fn sat_refuses_a_file(rt: HostRuntime) -> Result<(), Memory> {
    for (a, report) in [
        ("{\"type\":", "refused first notjson\n"),
        (
            r#"{"type":"integer","minimum":0.5}"#,
            "refused first notwhole \"/minimum\"\n",
        ),
        (
            r#"{"uniqueItems":true}"#,
            "refused first uniqueitems \"/uniqueItems\"\n",
        ),
        (
            r##"{"allOf":[{"$ref":"#"}]}"##,
            "refused first cycle \"\" \"/allOf/0\"\n",
        ),
        (
            r#"{"type":"string","pattern":"a{3,2}"}"#,
            "refused first pattern quantifierorder 1 \"/pattern\"\n",
        ),
        (
            r#"{"type":"string","pattern":"(?=a)"}"#,
            "refused first pattern unsupported lookaround 0 \"/pattern\"\n",
        ),
        (
            r#"{"type":"string","pattern":"a)"}"#,
            "refused first pattern syntax 1 \"/pattern\"\n",
        ),
        (
            r##"{"$ref":"#x","definitions":{"a/b%":{"const":7}}}"##,
            "refused first ref badpointer \"\"\n",
        ),
        (
            r##"{"$ref":"o.json","definitions":{"a/b%":{"const":7}}}"##,
            "refused first ref remote \"\"\n",
        ),
    ] {
        let files = (a.as_bytes(), b"".as_slice());
        expect(&rt, rt.alloc(), "sat a", files, (3, report))?;
    }
    expect(
        &rt,
        rt.alloc(),
        "sat c",
        (b"true".as_slice(), b"true".as_slice()),
        (5, "readfault\n"),
    )
}
