//! What `valid` answers: verdicts, and the first refusal in the order of work.

use crate::setting::expect;
use js_doc::Memory;

#[test]
fn documents_are_judged(rt: HostRuntime) -> Result<(), Memory> {
    for (schema, document, status, report) in [
        ("{\"contains\":true}", "[]", 1, "invalid\n"),
        ("{\"contains\":true}", "5", 0, "valid\n"),
        (
            "{\"additionalItems\":false,\"items\":{}}",
            "[1,2]",
            0,
            "valid\n",
        ),
        ("{\"type\":\"null\"}", "document\nnull\n", 0, "valid\n"),
        ("{\"type\":\"null\"}", "document\n0\n", 1, "invalid\n"),
        (
            "{\"items\":{\"required\":[\"l\"]},\"minItems\":2}",
            "parts 3\n0 null\n1 {\"l\":#0,\"r\":#0}\n2 [#1,#1]\n",
            0,
            "valid\n",
        ),
        (
            "{\"exclusiveMinimum\":18446744073709551615}",
            "parts 1\n0 18446744073709551615\n",
            1,
            "invalid\n",
        ),
        (
            "{\"type\":\"integer\",\"exclusiveMinimum\":18446744073709551615}",
            "parts 1\n0 18446744073709551616\n",
            0,
            "valid\n",
        ),
        (
            r##"{"$ref":"#/definitions/x","uniqueItems":true,"definitions":{"x":true}}"##,
            "null",
            0,
            "valid\n",
        ),
        (
            r##"{"$ref":"#/definitions/a~1b%25","definitions":{"a/b%":{"const":7}}}"##,
            "null",
            1,
            "invalid\n",
        ),
    ] {
        let files = (schema.as_bytes(), document.as_bytes());
        expect(&rt, rt.alloc(), "valid a b", files, (status, report))?;
    }
    Ok(())
}

#[test]
fn the_first_refusal_of_a_judgement_is_told(rt: HostRuntime) -> Result<(), Memory> {
    for (schema, document, report) in [
        ("{\"type\":", "{", "refused first notjson\n"),
        (
            "{\"allOf\":[{\"$ref\":\"#\"}]}",
            "0.5",
            "refused first cycle \"\" \"/allOf/0\"\n",
        ),
        ("true", "parts", "refused document parts 1\n"),
        ("true", "parts 0\n", "refused document parts 1\n"),
        ("true", "parts 1\n", "refused document parts 2\n"),
        ("true", "parts 1\n0 [#0]\n", "refused document parts 2\n"),
        (
            "true",
            "parts 1\n0 null\nnull",
            "refused document parts 3\n",
        ),
        ("true", "document\nparts 1\n", "refused document notjson\n"),
        ("true", "document null\n", "refused document notjson\n"),
        (
            "{\"contains\":true}",
            "[0.5]",
            "refused document notwhole \"/0\"\n",
        ),
    ] {
        let files = (schema.as_bytes(), document.as_bytes());
        expect(&rt, rt.alloc(), "valid a b", files, (3, report))?;
    }
    Ok(())
}

#[test]
fn a_schema_of_a_judgement_is_refused(rt: HostRuntime) -> Result<(), Memory> {
    for (schema, report) in [
        (
            r#"{"type":"integer","minimum":0.5}"#,
            "refused first notwhole \"/minimum\"\n",
        ),
        (
            r#"{"uniqueItems":true}"#,
            "refused first uniqueitems \"/uniqueItems\"\n",
        ),
        (r#"{"$ref":"o.json"}"#, "refused first ref remote \"\"\n"),
        ("{\"$ref\":\"#x\"}", "refused first ref badpointer \"\"\n"),
        (
            "{\"type\":\"string\",\"pattern\":\"a{16385}\"}",
            "refused first pattern repeattoowide 1 \"/pattern\"\n",
        ),
        (
            r#"{"type":"string","pattern":"a{3,2}"}"#,
            "refused first pattern quantifierorder 1 \"/pattern\"\n",
        ),
        (
            r#"{"type":"string","pattern":"(?=a)"}"#,
            "refused first pattern unsupported lookaround 0 \"/pattern\"\n",
        ),
        (
            r#"{"type":"string","pattern":"a)"}"#,
            "refused first pattern syntax 1 \"/pattern\"\n",
        ),
    ] {
        let files = (schema.as_bytes(), b"null".as_slice());
        expect(&rt, rt.alloc(), "valid a b", files, (3, report))?;
    }
    Ok(())
}
