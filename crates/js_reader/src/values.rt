//! The values of keywords that hold no schemas, as the fields of an object's keywords.
//!
//! Each field is that of the definitions, and takes time and memory in proportion to the value. Where the value has to
//! have a shape for that, it has it in an object in which nothing is wrong.

ghost use Rattle.std.specs.Prelude.{◌≡◌, ◌<◌, ◌^◌, ◌++◌, ◌∷◌, [], true, map, filter_map, option_map, IfOk, OnOk};
ghost use Rattle.documents.specs.Document as D;
ghost use Rattle.documents.specs.Json as J;
ghost use Rattle.schemas.specs.Entries as E;
ghost use Rattle.js_doc.specs.JsonView.{view, list_view};
ghost use Rattle.js_doc.specs.View as doc;
ghost use Rattle.js_json.specs.Documents.{unwhole_places};
ghost use Rattle.js_keywords.specs.TypeView.{type_view};
ghost use Rattle.js_schema.specs.Patterns.{source_of};
ghost use Rattle.js_reader.specs.Faultless.{is_pattern, is_pattern_word};

use js_doc::{Doc, DocList, Json, JsonList, Memory, Str, StrList};
use js_json::{JsonFault, to_doc};
use js_keywords::TypeName;
use js_pattern::{PatternFault, read_pattern};
use js_schema::{PatternText, TypeList};
use std::alloc::Global;

/// The number that the value is.
pub(crate) fn whole(value: &Json) -> i128
    ensures { result ≡ E.whole (view value.now) }
{
    match value {
        Json::Num(n) => *n,
        _ => 0,
    }
}

/// The count that the value is.
pub(crate) fn natural(value: &Json) -> u64
    requires { E.natural (view value.now) < 2 ^ 64 }
    ensures { result ≡ E.natural (view value.now) }
{
    whole(value).unsigned_abs() as u64
}

/// The types that the value names.
pub(crate) fn types(alloc: Global, value: &Json) -> Result<TypeList, Memory>
    ensures { IfOk result (λ ts. map type_view ts ≡ E.types_of (view value.now)) }
{
    let mut made = Vec::new(alloc);
    match value {
        Json::List(items) => add_types(&mut made, items)?,
        _ => add_type(&mut made, value)?,
    }
    Ok(TypeList::from_vec(made))
}

fn add_types(made: &mut Vec<TypeName>, items: &JsonList) -> Result<(), Memory>
    ensures { OnOk result (map type_view made.new.items ≡ map type_view made.old.items
        ++ filter_map (λ v. E.type_named (E.word v)) (J.elements (list_view items.now))) }
{
    for item in items.as_slice() {
        add_type(made, item)?;
    }
    Ok(())
}

fn add_type(made: &mut Vec<TypeName>, value: &Json) -> Result<(), Memory>
    ensures { OnOk result (map type_view made.new.items ≡ map type_view made.old.items
        ++ filter_map (λ v. E.type_named (E.word v)) (view value.now ∷ [])) }
{
    if let Json::Text(word) = value {
        if let Some(name) = TypeName::of(word.as_text()) {
            made.push(name)?;
        }
    }
    Ok(())
}

/// The words in the value.
pub(crate) fn words(alloc: Global, value: &Json) -> Result<StrList, Memory>
    ensures { IfOk result (λ ws. ws ≡ map E.word (E.listed (view value.now))) }
{
    match value {
        Json::List(items) => word_list(alloc, items),
        _ => Ok(StrList::from_vec(Vec::new(alloc))),
    }
}

pub(crate) fn word_list(alloc: Global, items: &JsonList) -> Result<StrList, Memory>
    ensures { IfOk result (λ ws. ws ≡ map E.word (J.elements (list_view items.now))) }
{
    let mut made = Vec::with_capacity(alloc, items.len())?;
    for item in items.as_slice() {
        made.push(word(alloc, item)?)?;
    }
    Ok(StrList::from_vec(made))
}

fn word(alloc: Global, value: &Json) -> Result<Str, Memory>
    ensures { IfOk result (λ w. w ≡ E.word (view value.now)) }
{
    match value {
        Json::Text(word) => word.as_str().copy(alloc),
        _ => Ok(empty(alloc)),
    }
}

#[tactic(auto, using(crate::proofs::ValuesLemmas::empty_texts))]
fn empty(alloc: Global) -> Str
    ensures { result ≡ [] }
{
    Str::from_string(String::new(alloc))
}

/// The pattern that the value is.
pub(crate) fn pattern(alloc: Global, value: &Json) -> Result<PatternText, Memory>
    requires { is_pattern_word (view value.now) ≡ true }
    ensures { IfOk result (λ p. source_of p ≡ E.word (view value.now)) }
{
    match value {
        Json::Text(text) => pattern_text(alloc, text.as_str()),
        _ => unreachable!(),
    }
}

pub(crate) fn pattern_text(alloc: Global, text: &Str) -> Result<PatternText, Memory>
    requires { is_pattern text.now ≡ true }
    ensures { IfOk result (λ p. source_of p ≡ text.now) }
{
    match read_pattern(alloc, text.as_text()) {
        Ok(re) => Ok(PatternText::new(text.copy(alloc)?, re)),
        Err(PatternFault::Memory) => Err(Memory),
        Err(_) => unreachable!(),
    }
}

/// The document that the value is.
pub(crate) fn document(alloc: Global, value: &Json) -> Result<Doc, Memory>
    requires { unwhole_places (view value.now) ≡ [] }
    ensures { IfOk result (λ d. doc.view d ≡ E.document_of (view value.now)) }
{
    match to_doc(alloc, value) {
        Ok(doc) => Ok(doc),
        Err(JsonFault::Memory) => Err(Memory),
        Err(_) => unreachable!(),
    }
}

/// The documents in the value.
pub(crate) fn documents(alloc: Global, value: &Json) -> Result<DocList, Memory>
    requires { unwhole_places (view value.now) ≡ [] }
    ensures { IfOk result (λ ds. D.elements (doc.list_view ds) ≡ map E.document_of (E.listed (view value.now))) }
{
    match document(alloc, value)? {
        Doc::List(list) => Ok(list),
        _ => Ok(DocList::from_vec(Vec::new(alloc))),
    }
}
