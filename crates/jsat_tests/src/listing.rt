//! What `norm` answers: the table of a schema, and its refusal.

use crate::setting::expect;
use js_doc::Memory;

#[test]
fn tables_are_listed(rt: HostRuntime) -> Result<(), Memory> {
    for (schema, status, report) in [
        ("false", 0, "core 1\n0 false\n"),
        (
            "{\"dependencies\":{\"a\":[\"b\"]},\"required\":[\"a\"],\"type\":\"object\"}",
            0,
            "core 7\n0 all 1 2 6\n1 types object\n2 has \"a\"\n3 has \"a\"\n4 has \"b\"\n5 all 4\n6 depends 3 5\n",
        ),
        (
            "{\"$ref\":\"#/definitions/a\",\"type\":5,\"definitions\":{\"a\":{\"minimum\":-1}}}",
            0,
            "core 3\n0 same 1\n1 all 2\n2 nummin -1\n",
        ),
        (
            r#"{"type":"integer","multipleOf":6,"not":{"multipleOf":3}}"#,
            0,
            "core 6\n0 all 2 3 4\n1 all 5\n2 types number\n3 multiple 6\n4 not 1\n5 multiple 3\n",
        ),
        (
            r#"{"enum":[3,"x",null],"not":{"type":"null"}}"#,
            0,
            "core 12\n0 all 9 10\n1 all 11\n2 types null\n3 types number\n4 numin 3\n5 all 3 4\n\
                6 types string\n7 words \"x\"\n8 all 6 7\n9 any 2 5 8\n10 not 1\n11 types null\n",
        ),
        (
            "{\"type\":5}",
            3,
            "refused first wrongshape type \"/type\"\n",
        ),
        (
            "{\"not\":{\"$ref\":\"#\"}}",
            3,
            "refused first cycle \"\" \"/not\"\n",
        ),
    ] {
        let files = (schema.as_bytes(), "".as_bytes());
        expect(&rt, rt.alloc(), "norm a", files, (status, report))?;
    }
    Ok(())
}

#[test]
fn other_words_than_a_name_are_none_of_norm(rt: HostRuntime) -> Result<(), Memory> {
    let files = ("true".as_bytes(), "true".as_bytes());
    expect(&rt, rt.alloc(), "norm", files, (2, "usage\n"))?;
    expect(&rt, rt.alloc(), "norm a b", files, (2, "usage\n"))?;
    expect(&rt, rt.alloc(), "norm --a", files, (2, "usage\n"))?;
    expect(&rt, rt.alloc(), "norm c", files, (5, "readfault\n"))
}
