//! What no clause says: that ample memory is enough, and what the words and pointers look like.

use js_doc::Json;
use js_json::{Pointer, RefFault, read_json};
use js_keywords::{Keyword, ObjectPlace, SchemaFault, TypeName, check_member};
use js_pattern::PatternFault;
use std::alloc::Global;
use std::test::Fail;

#[test]
fn knows_keywords_and_types_by_their_words(rt: HostRuntime) -> Result<(), Fail> {
    assert!(rt; Keyword::of("minLength") == Some(Keyword::MinLength));
    assert!(rt; Keyword::of("$ref") == Some(Keyword::Ref));
    assert!(rt; Keyword::of("minlength").is_none());
    assert!(rt; Keyword::of("").is_none());
    assert_eq!(rt; Keyword::UniqueItems.name(), "uniqueItems");

    assert!(rt; TypeName::of("integer") == Some(TypeName::Integer));
    assert!(rt; TypeName::of("text").is_none());
    assert_eq!(rt; TypeName::Text.word(), "string");
    Ok(())
}

#[test]
fn tells_the_first_fault_of_a_member(rt: HostRuntime) -> Result<(), Fail> {
    let cases = [
        ("type", "\"null\"", "none"),
        ("type", "[\"null\",\"frob\"]", "shape \"/a/type/1\""),
        ("type", "5", "shape \"/a/type\""),
        ("enum", "[1,{\"b\":[2,0.5]}]", "whole \"/a/enum/1/b/1\""),
        ("enum", "{}", "shape \"/a/enum\""),
        ("const", "[[1.5],2.5]", "whole \"/a/const/0/0\""),
        ("const", "{\"b\":null}", "none"),
        ("minimum", "-9223372036854775808", "none"),
        ("minimum", "1.5", "whole \"/a/minimum\""),
        ("multipleOf", "0", "positive \"/a/multipleOf\""),
        ("multipleOf", "\"1\"", "shape \"/a/multipleOf\""),
        ("maxItems", "-1", "negative \"/a/maxItems\""),
        ("maxItems", "0", "none"),
        ("pattern", "\"a(\"", "pattern \"/a/pattern\""),
        ("pattern", "\"a+\"", "none"),
        ("required", "[\"b\",null]", "shape \"/a/required/1\""),
        ("not", "[]", "shape \"/a/not\""),
        ("items", "[]", "none"),
        ("items", "null", "shape \"/a/items\""),
        ("allOf", "[]", "empty \"/a/allOf\""),
        ("allOf", "true", "shape \"/a/allOf\""),
        ("properties", "{\"b\":5}", "none"),
        ("properties", "true", "shape \"/a/properties\""),
        (
            "patternProperties",
            "{\"[\":5,\"b\":5}",
            "pattern \"/a/patternProperties/[\"",
        ),
        (
            "dependencies",
            "{\"b\":[\"c\",1],\"d\":5}",
            "shape \"/a/dependencies/b/1\"",
        ),
        ("dependencies", "[]", "shape \"/a/dependencies\""),
        ("uniqueItems", "true", "unique \"/a/uniqueItems\""),
        ("uniqueItems", "false", "none"),
        ("uniqueItems", "0", "shape \"/a/uniqueItems\""),
        ("additionalItems", "5", "shape \"/a/additionalItems\""),
        ("$id", "\"b\"", "inner \"/a/$id\""),
        ("$ref", "5", "none"),
        ("format", "5", "none"),
    ];
    for (name, text, expected) in cases {
        let told = told(rt.alloc(), name, text)?;
        assert_eq!(rt; told.as_str(), expected, "{name} {text}");
    }
    Ok(())
}

fn told(alloc: Global, name: &str, text: &str) -> Result<String, Fail> {
    let text = format!(in alloc; "{{\"{name}\":{text}}}")?;
    let json = read_json(alloc, text.as_bytes())?;
    let Json::Members(members) = &json else {
        return Err("no object".into());
    };
    let Some(member) = members.as_slice().first() else {
        return Err("no member".into());
    };
    let mut pointer = Pointer::root(alloc);
    pointer.push_name("a")?;
    let object = ObjectPlace {
        pointer: &pointer,
        listed: true,
    };
    match check_member(alloc, &object, member) {
        Ok(()) => Ok(String::from_str(alloc, "none")?),
        Err(SchemaFault::WrongShape(_, at)) => line(alloc, "shape", &at),
        Err(SchemaFault::NotWhole(at)) => line(alloc, "whole", &at),
        Err(SchemaFault::NotPositive(at)) => line(alloc, "positive", &at),
        Err(SchemaFault::Negative(at)) => line(alloc, "negative", &at),
        Err(SchemaFault::EmptyList(at)) => line(alloc, "empty", &at),
        Err(SchemaFault::UniqueItems(at)) => line(alloc, "unique", &at),
        Err(SchemaFault::InnerId(at)) => line(alloc, "inner", &at),
        Err(SchemaFault::Pattern(_, at)) => line(alloc, "pattern", &at),
        Err(_) => Err("another fault".into()),
    }
}

fn line(alloc: Global, word: &str, at: &Pointer) -> Result<String, Fail> {
    let text = at.text(alloc)?;
    Ok(format!(in alloc; "{word} {text}")?)
}

#[test]
fn says_what_is_wrong(rt: HostRuntime) -> Result<(), Fail> {
    let alloc = rt.alloc();
    let mut place = Pointer::root(alloc);
    place.push_name("not")?;
    let fault = SchemaFault::Ref(RefFault::Missing, place.copy(alloc)?);
    assert_eq!(rt;
        format!(in alloc; "{fault}")?.as_str(),
        "no such place at /\"not\""
    );
    let fault = SchemaFault::Pattern(PatternFault::Syntax(2), place);
    assert_eq!(rt;
        format!(in alloc; "{fault}")?.as_str(),
        "no pattern, by Syntax(2), at /\"not\""
    );
    Ok(())
}
