//! The fields of an object's keywords, each None exactly where the object hasn't the keyword.
//!
//! A field takes a binary search among the members, and then time and memory in proportion to the value.

ghost use Rattle.std.specs.Prelude.{◌≡◌, true, Some, codes, map, option_map, option_and_then, IfOk};
ghost use Rattle.documents.specs.Document as D;
ghost use Rattle.documents.specs.Json as J;
ghost use Rattle.schemas.specs.Keyword as S;
ghost use Rattle.schemas.specs.Entries as E;
ghost use Rattle.js_doc.specs.View as doc;
ghost use Rattle.js_keywords.specs.Names.{keyword_name};
ghost use Rattle.js_keywords.specs.TypeView.{type_view};
ghost use Rattle.js_keywords.specs.Words.{shape_by};
ghost use Rattle.js_reader.specs.Faultless.{is_natural};
ghost use Rattle.js_reader.specs.NumbersView.{numbered};
ghost use Rattle.js_reader.specs.ObjectView.{members_of, numbers_of, place_of};
ghost use Rattle.js_schema.specs.Patterns.{source_of};
ghost use Rattle.js_schema.specs.View.{items_view, property_view, pattern_properties_view, dependency_view};

use crate::keyword_place::KeywordPlace;
use crate::object::Object;
use crate::{links, values};
use js_doc::{Doc, DocList, Json, Memory, StrList};
use js_keywords::Keyword;
use js_schema::{
    DependencyList, EntryList, ItemsPart, PatternPropertyList, PatternText, PropertyList, TypeList,
};
use std::alloc::Global;

pub(crate) fn whole(object: &Object, keyword: Keyword) -> Option<i128>
    ensures { result ≡ E.field (members_of object.now) (keyword_name keyword) (λ k. E.whole) }
{
    match object.value(keyword) {
        Some(value) => Some(values::whole(value)),
        None => None,
    }
}

pub(crate) fn natural(object: &Object, keyword: Keyword) -> Option<u64>
    requires { is_natural (shape_by keyword) ≡ true }
    ensures { result ≡ E.field (members_of object.now) (keyword_name keyword) (λ k. E.natural) }
{
    match object.value(keyword) {
        Some(value) => Some(values::natural(value)),
        None => None,
    }
}

pub(crate) fn types(
    alloc: Global,
    object: &Object,
    keyword: Keyword,
) -> Result<Option<TypeList>, Memory>
    ensures { IfOk result (λ o. option_map (λ ts. map type_view ts) o
        ≡ E.field (members_of object.now) (keyword_name keyword) (λ k. E.types_of)) }
{
    match object.value(keyword) {
        Some(value) => Ok(Some(values::types(alloc, value)?)),
        None => Ok(None),
    }
}

pub(crate) fn words(
    alloc: Global,
    object: &Object,
    keyword: Keyword,
) -> Result<Option<StrList>, Memory>
    ensures { IfOk result (λ o. o
        ≡ E.field (members_of object.now) (keyword_name keyword) (λ k v. map E.word (E.listed v))) }
{
    match object.value(keyword) {
        Some(value) => Ok(Some(values::words(alloc, value)?)),
        None => Ok(None),
    }
}

pub(crate) fn pattern(
    alloc: Global,
    object: &Object,
    keyword: Keyword,
) -> Result<Option<PatternText>, Memory>
    requires { shape_by keyword ≡ Some S.PatternWord }
    ensures { IfOk result (λ o. option_map source_of o
        ≡ E.field (members_of object.now) (keyword_name keyword) (λ k. E.word)) }
{
    match object.value(keyword) {
        Some(value) => Ok(Some(values::pattern(alloc, value)?)),
        None => Ok(None),
    }
}

pub(crate) fn document(
    alloc: Global,
    object: &Object,
    keyword: Keyword,
) -> Result<Option<Doc>, Memory>
    requires { shape_by keyword ≡ Some S.AnyValue }
    ensures { IfOk result (λ o. option_map doc.view o
        ≡ E.field (members_of object.now) (keyword_name keyword) (λ k. E.document_of)) }
{
    match object.value(keyword) {
        Some(value) => Ok(Some(values::document(alloc, value)?)),
        None => Ok(None),
    }
}

pub(crate) fn documents(
    alloc: Global,
    object: &Object,
    keyword: Keyword,
) -> Result<Option<DocList>, Memory>
    requires { shape_by keyword ≡ Some S.AnyValues }
    ensures { IfOk result (λ o. option_map (λ ds. D.elements (doc.list_view ds)) o
        ≡ E.field (members_of object.now) (keyword_name keyword) (λ k v. map E.document_of (E.listed v))) }
{
    match object.value(keyword) {
        Some(value) => Ok(Some(values::documents(alloc, value)?)),
        None => Ok(None),
    }
}

pub(crate) fn one(object: &Object, keyword: Keyword) -> Option<u32>
    ensures { result ≡ E.field (members_of object.now) (keyword_name keyword)
        (E.one_number (E.number_of (numbered (numbers_of object.now))) (place_of object.now)) }
{
    match object.value(keyword) {
        Some(_) => Some(KeywordPlace::of(object, keyword).itself()),
        None => None,
    }
}

#[tactic(auto, using(crate::proofs::FieldsLemmas::links))]
pub(crate) fn list(
    alloc: Global,
    object: &Object,
    keyword: Keyword,
) -> Result<Option<EntryList>, Memory>
    ensures { IfOk result (λ o. o ≡ E.field (members_of object.now) (keyword_name keyword)
        (E.list_numbers (E.number_of (numbered (numbers_of object.now))) (place_of object.now))) }
{
    match object.value(keyword) {
        Some(value) => {
            let place = KeywordPlace::of(object, keyword);
            Ok(Some(links::list(alloc, &place, value)?))
        }
        None => Ok(None),
    }
}

#[tactic(auto, using(crate::proofs::FieldsLemmas::links))]
pub(crate) fn items(
    alloc: Global,
    object: &Object,
    keyword: Keyword,
) -> Result<Option<ItemsPart>, Memory>
    ensures { IfOk result (λ o. option_map items_view o ≡ E.field (members_of object.now) (keyword_name keyword)
        (E.items_part (E.number_of (numbered (numbers_of object.now))) (place_of object.now))) }
{
    match object.value(keyword) {
        Some(value) => {
            let place = KeywordPlace::of(object, keyword);
            Ok(Some(links::items(alloc, &place, value)?))
        }
        None => Ok(None),
    }
}

#[tactic(auto, using(crate::proofs::FieldsLemmas::links))]
pub(crate) fn properties(
    alloc: Global,
    object: &Object,
    keyword: Keyword,
) -> Result<Option<PropertyList>, Memory>
    ensures { IfOk result (λ o. option_map (λ ps. map property_view ps) o
        ≡ E.field (members_of object.now) (keyword_name keyword)
        (E.named_numbers (E.number_of (numbered (numbers_of object.now))) (place_of object.now))) }
{
    match object.value(keyword) {
        Some(value) => {
            let place = KeywordPlace::of(object, keyword);
            Ok(Some(links::properties(alloc, &place, value)?))
        }
        None => Ok(None),
    }
}

#[tactic(auto, using(crate::proofs::FieldsLemmas::links))]
pub(crate) fn pattern_properties(
    alloc: Global,
    object: &Object,
    keyword: Keyword,
) -> Result<Option<PatternPropertyList>, Memory>
    requires { shape_by keyword ≡ Some S.PatternMap }
    ensures { IfOk result (λ o. option_map pattern_properties_view o
        ≡ E.field (members_of object.now) (keyword_name keyword)
        (E.named_numbers (E.number_of (numbered (numbers_of object.now))) (place_of object.now))) }
{
    match object.value(keyword) {
        Some(value) => {
            let place = KeywordPlace::of(object, keyword);
            Ok(Some(links::pattern_properties(alloc, &place, value)?))
        }
        None => Ok(None),
    }
}

#[tactic(auto, using(crate::proofs::FieldsLemmas::links))]
pub(crate) fn dependencies(
    alloc: Global,
    object: &Object,
    keyword: Keyword,
) -> Result<Option<DependencyList>, Memory>
    ensures { IfOk result (λ o. option_map (λ ds. map dependency_view ds) o
        ≡ E.field (members_of object.now) (keyword_name keyword)
        (E.all_needs (E.number_of (numbered (numbers_of object.now))) (place_of object.now))) }
{
    match object.value(keyword) {
        Some(value) => {
            let place = KeywordPlace::of(object, keyword);
            Ok(Some(links::dependencies(alloc, &place, value)?))
        }
        None => Ok(None),
    }
}

/// The schema of `additionalItems`, beside `items` that is a list.
pub(crate) fn additional_items(object: &Object) -> Option<u32>
    ensures { result ≡ option_and_then
        (E.rest_number (E.number_of (numbered (numbers_of object.now))) (place_of object.now)
        (J.lookup (codes "items") (members_of object.now)) (codes "additionalItems"))
        (J.lookup (codes "additionalItems") (members_of object.now)) }
{
    match object.value(Keyword::Items) {
        Some(Json::List(_)) => one(object, Keyword::AdditionalItems),
        _ => None,
    }
}
