//! What `sat` and `include` answer for schemas that ask something of objects.

use crate::setting::expect;
use js_doc::Memory;

#[test]
fn an_object_satisfies_a_schema(rt: HostRuntime) -> Result<(), Memory> {
    for (a, status, included, report) in [
        (r#"{"minProperties":1}"#, 0, 1, "document\nnull\n"),
        (r#"{"const":[{}]}"#, 0, 1, "document\n[{}]\n"),
        // A name can't be required to be there and to have no value.
        (
            r#"{"type":"object","required":["a"],"properties":{"a":false}}"#,
            1,
            0,
            "certificate 1\ngoals 1\ngoal +0\nentry 0\n\
                at null\nrule +0\nkind +2\nat boolean\nrule +0\nkind +2\nat number\nrule +0\nkind +2\n\
                at string\nrule +0\nkind +2\nat array\nrule +0\nkind +2\n\
                at object\nrule +0\nobject 3 1\nrow 1 2\nrow 2 2\nrow 2 2\ncap 1 1 1 0\n\
                split\nmember 0 clash\nend\n",
        ),
        (
            r##"{"type":"object","properties":{"next":{"$ref":"#"}}}"##,
            0,
            1,
            "document\n{}\n",
        ),
        // No document is deep enough.
        (
            r##"{"type":"object","required":["next"],"properties":{"next":{"$ref":"#"}}}"##,
            1,
            0,
            "certificate 1\ngoals 1\ngoal +0\nentry 0\n\
                at null\nrule +0\nkind +2\nat boolean\nrule +0\nkind +2\nat number\nrule +0\nkind +2\n\
                at string\nrule +0\nkind +2\nat array\nrule +0\nkind +2\nat object\nrule +0\nobject 6 1\n\
                row 1 1 2 1 1\nrow 1 1 1 1 1\nrow 1 3 1 1 1\nrow 1 1 1 1 4\nrow 1 1 1 5 1\nrow 1 1 1 1 1\n\
                cap 1 1 0 1 1 1 1\nsplit\nmember 0 goal 0\nend\n",
        ),
        // Two names are as many as there are.
        (
            r#"{"type":"object","propertyNames":{"enum":["a","b"]},"minProperties":2}"#,
            0,
            1,
            "document\n{\"a\":null,\"b\":null}\n",
        ),
        (
            r#"{"type":"object","propertyNames":{"enum":["a","b"]},"minProperties":3}"#,
            1,
            0,
            "certificate 1\ngoals 1\ngoal +0\nentry 0\n\
                at null\nrule +0\nkind +2\nat boolean\nrule +0\nkind +2\nat number\nrule +0\nkind +2\n\
                at string\nrule +0\nkind +2\nat array\nrule +0\nkind +2\nat object\nrule +0\nobject 4 1\n\
                row 1 2 3\nrow 3 3 3\nrow 3 3 3\nrow 3 3 3\ncap 1 2 1 1 0\nshort -\nend\n",
        ),
        // One member serves two demands.
        (
            r#"{"type":"object","maxProperties":1,"allOf":[{"not":{"patternProperties":{"^a":{"type":"null"}}}},{"not":{"patternProperties":{"b$":{"type":"null"}}}}]}"#,
            0,
            1,
            "document\n{\"ab\":false}\n",
        ),
        (
            r#"{"dependencies":{"a":["b"]},"required":["a"],"type":"object"}"#,
            0,
            1,
            "document\n{\"a\":null,\"b\":null}\n",
        ),
    ] {
        let files = (a.as_bytes(), b"false".as_slice());
        expect(&rt, rt.alloc(), "sat a", files, (status, report))?;
        expect(&rt, rt.alloc(), "include a b", files, (included, report))?;
    }
    Ok(())
}

/// As it may be in a file: what asks nothing (`$schema`, `title`, `format`) is there too.
pub(crate) const CLOSED: &str =
    r##"{"$schema":"http://json-schema.org/draft-06/schema#","title":"v1","type":"object","required":["name"],"properties":{"name":{"type":"string","minLength":1,"format":"hostname"}},"additionalProperties":false}"##;

pub(crate) const WITH_TAGS: &str =
    r##"{"$schema":"http://json-schema.org/draft-06/schema#","title":"v2","type":"object","required":["name"],"properties":{"name":{"type":"string","minLength":1,"format":"hostname"},"tags":{"type":"array","items":{"type":"string"}}},"additionalProperties":false}"##;

#[test]
fn objects_of_one_schema_are_not_of_another(rt: HostRuntime) -> Result<(), Memory> {
    for (a, b, report) in [
        (
            WITH_TAGS,
            CLOSED,
            "document\n{\"name\":\"a\",\"tags\":[]}\n",
        ),
        (
            r#"{"properties":{"a":{"type":["string","null"]}}}"#,
            r#"{"properties":{"a":{"type":"string"}}}"#,
            "document\n{\"a\":null}\n",
        ),
    ] {
        let files = (a.as_bytes(), b.as_bytes());
        expect(&rt, rt.alloc(), "include a b", files, (1, report))?;
    }
    Ok(())
}

#[test]
fn more_members_than_are_counted(rt: HostRuntime) -> Result<(), Memory> {
    let a = br#"{"type":"object","minProperties":65537}"#.as_slice();
    let files = (a, b"false".as_slice());
    expect(&rt, rt.alloc(), "sat a", files, (4, "limit counts +0\n"))
}
