//! What is wrong in the value of a keyword first, by the shape that the keyword requires.
//!
//! Each check answers the fault that `keyword_fault` gives of the value at its place, or that memory was refused. It
//! looks at the value itself, at the elements and names in it, and not at the schemas in it. It takes time in
//! proportion to these, and memory for a pointer and for the trees of patterns, which it gives back. The reader of
//! schemas stands on it.

ghost use Rattle.std.specs.Prelude.{◌≡◌, ◌++◌, ◌∷◌, [], option_map};
ghost use Rattle.documents.specs.Json as D;
ghost use Rattle.schemas.specs.Fault as F;
ghost use Rattle.schemas.specs.Keyword as K;
ghost use Rattle.schemas.specs.Reading.{shape_fault};
ghost use Rattle.js_doc.specs.JsonView.{view, list_view, map_view};
ghost use Rattle.js_keywords.specs.Failing.{passes};
ghost use Rattle.js_keywords.specs.FaultView.{ChecksOrTells};
ghost use Rattle.js_keywords.specs.Reading.{rules};
ghost use Rattle.js_keywords.specs.ValuePlaceView.{name_at, place_of};
ghost use Rattle.js_keywords.specs.Words.{shape_by};

use crate::elements::ElementTest;
use crate::fault::SchemaFault;
use crate::keyword::Keyword;
use crate::value_place::ValuePlace;
use crate::whole::find_not_whole;
use js_doc::{Json, JsonList, JsonMap, Str};
use js_pattern::{PatternFault, read_pattern};

/// What is wrong first in the value of a keyword. Of `$id` and `$ref` nothing is said here.
pub(crate) fn check_keyword(place: &ValuePlace<'_>, value: &Json) -> Result<(), SchemaFault>
    ensures { (root : D.Json) → ChecksOrTells
        (shape_fault rules root (shape_by place.now.keyword) (name_at place.now) place.now.object.now
        (view value.now)) result }
{
    match place.keyword {
        Keyword::Id | Keyword::Ref => Ok(()),
        Keyword::AdditionalItems
        | Keyword::AdditionalProperties
        | Keyword::Contains
        | Keyword::Not
        | Keyword::PropertyNames => check_schema(place, value),
        Keyword::AllOf | Keyword::AnyOf | Keyword::OneOf => { check_schema_list(place, value) }
        Keyword::Const => check_value(place, value),
        Keyword::Dependencies => check_need_map(place, value),
        Keyword::Enum => check_values(place, value),
        Keyword::ExclusiveMaximum
        | Keyword::ExclusiveMinimum
        | Keyword::Maximum
        | Keyword::Minimum => check_whole(place, value),
        Keyword::Items => check_schema_or_list(place, value),
        Keyword::MaxItems
        | Keyword::MaxLength
        | Keyword::MaxProperties
        | Keyword::MinItems
        | Keyword::MinLength
        | Keyword::MinProperties => check_count(place, value),
        Keyword::MultipleOf => check_positive(place, value),
        Keyword::Pattern => check_pattern(place, value),
        Keyword::PatternProperties => check_pattern_map(place, value),
        Keyword::Properties => check_schema_map(place, value),
        Keyword::Required => check_words(place, value),
        Keyword::Type => check_types(place, value),
        Keyword::UniqueItems => check_flag(place, value),
    }
}

/// Whether the number is held in 64 bits, with a sign or without.
fn is_held(n: i128) -> bool
    ensures { result ≡ K.is_held n }
{
    n >= -9_223_372_036_854_775_808 && n <= 18_446_744_073_709_551_615
}

fn check_whole(place: &ValuePlace<'_>, value: &Json) -> Result<(), SchemaFault>
    ensures { ChecksOrTells (F.whole_fault rules (name_at place.now)
        (place_of place.now) (view value.now)) result }
{
    match value {
        Json::Num(n) if is_held(*n) => Ok(()),
        Json::Num(_) | Json::NotWhole => { Err(SchemaFault::NotWhole(place.pointer()?)) }
        _ => Err(place.wrong_shape()),
    }
}

fn check_positive(place: &ValuePlace<'_>, value: &Json) -> Result<(), SchemaFault>
    ensures { ChecksOrTells (F.positive_fault rules (name_at place.now)
        (place_of place.now) (view value.now)) result }
{
    match value {
        Json::Num(n) if is_held(*n) && *n <= 0 => {
            Err(SchemaFault::NotPositive(place.pointer()?))
        }
        _ => check_whole(place, value),
    }
}

fn check_count(place: &ValuePlace<'_>, value: &Json) -> Result<(), SchemaFault>
    ensures { ChecksOrTells (F.count_fault rules (name_at place.now)
        (place_of place.now) (view value.now)) result }
{
    match value {
        Json::Num(n) if is_held(*n) && *n < 0 => { Err(SchemaFault::Negative(place.pointer()?)) }
        _ => check_whole(place, value),
    }
}

fn check_flag(place: &ValuePlace<'_>, value: &Json) -> Result<(), SchemaFault>
    ensures { ChecksOrTells (F.flag_fault rules (name_at place.now)
        (place_of place.now) (view value.now)) result }
{
    match value {
        Json::Bool(false) => Ok(()),
        Json::Bool(true) => Err(SchemaFault::UniqueItems(place.pointer()?)),
        _ => Err(place.wrong_shape()),
    }
}

fn check_schema(place: &ValuePlace<'_>, value: &Json) -> Result<(), SchemaFault>
    ensures { ChecksOrTells (F.schema_fault rules (name_at place.now)
        (place_of place.now) (view value.now)) result }
{
    match value {
        Json::Bool(_) | Json::Members(_) => Ok(()),
        _ => Err(place.wrong_shape()),
    }
}

fn check_schema_or_list(place: &ValuePlace<'_>, value: &Json) -> Result<(), SchemaFault>
    ensures { ChecksOrTells (F.schema_or_list_fault rules (name_at place.now)
        (place_of place.now) (view value.now)) result }
{
    match value {
        Json::List(_) => Ok(()),
        _ => check_schema(place, value),
    }
}

fn check_schema_list(place: &ValuePlace<'_>, value: &Json) -> Result<(), SchemaFault>
    ensures { ChecksOrTells (F.schema_list_fault rules (name_at place.now)
        (place_of place.now) (view value.now)) result }
{
    match value {
        Json::List(schemas) => check_filled(place, schemas),
        _ => Err(place.wrong_shape()),
    }
}

#[tactic(auto, using(crate::proofs::ShapesLemmas::filled_lists))]
fn check_filled(place: &ValuePlace<'_>, schemas: &JsonList) -> Result<(), SchemaFault>
    ensures { ChecksOrTells (F.schema_list_fault rules (name_at place.now)
        (place_of place.now) (D.array (list_view schemas.now))) result }
{
    if schemas.len() == 0 {
        return Err(SchemaFault::EmptyList(place.pointer()?));
    }
    Ok(())
}

fn check_schema_map(place: &ValuePlace<'_>, value: &Json) -> Result<(), SchemaFault>
    ensures { ChecksOrTells (F.schema_map_fault rules (name_at place.now)
        (place_of place.now) (view value.now)) result }
{
    match value {
        Json::Members(_) => Ok(()),
        _ => Err(place.wrong_shape()),
    }
}

fn check_pattern(place: &ValuePlace<'_>, value: &Json) -> Result<(), SchemaFault>
    ensures { ChecksOrTells (F.pattern_word_fault rules (name_at place.now)
        (place_of place.now) (view value.now)) result }
{
    match value {
        Json::Text(text) => match read_pattern(place.alloc, text.as_text()) {
            Ok(_) => Ok(()),
            Err(PatternFault::Memory) => Err(SchemaFault::Memory),
            Err(fault) => Err(SchemaFault::Pattern(fault, place.pointer()?)),
        },
        _ => Err(place.wrong_shape()),
    }
}

/// Each element passes the test.
fn check_elements(
    place: &ValuePlace<'_>,
    test: ElementTest,
    items: &JsonList,
) -> Result<(), SchemaFault>
    ensures { ChecksOrTells (option_map (F.WrongShape (name_at place.now))
        (F.first_failing (passes test) (place_of place.now) 0 (list_view items.now))) result }
{
    match test.first_failing(items) {
        None => Ok(()),
        Some(i) => {
            let pointer = place.element(i)?;
            Err(SchemaFault::WrongShape(place.keyword, pointer))
        }
    }
}

fn check_words(place: &ValuePlace<'_>, value: &Json) -> Result<(), SchemaFault>
    ensures { ChecksOrTells (F.words_fault rules (name_at place.now)
        (place_of place.now) (view value.now)) result }
{
    match value {
        Json::List(words) => check_elements(place, ElementTest::Text, words),
        _ => Err(place.wrong_shape()),
    }
}

fn check_types(place: &ValuePlace<'_>, value: &Json) -> Result<(), SchemaFault>
    ensures { ChecksOrTells (F.types_fault rules (name_at place.now)
        (place_of place.now) (view value.now)) result }
{
    match value {
        Json::List(words) => check_elements(place, ElementTest::TypeWord, words),
        _ if ElementTest::TypeWord.passes(value) => Ok(()),
        _ => Err(place.wrong_shape()),
    }
}

fn check_name(place: &ValuePlace<'_>, name: &Str) -> Result<(), SchemaFault>
    ensures { ChecksOrTells (option_map (λ f. F.BadPattern f (place_of place.now ++ name.now ∷ []))
        (F.pattern_fault rules name.now)) result }
{
    match read_pattern(place.alloc, name.as_text()) {
        Ok(_) => Ok(()),
        Err(PatternFault::Memory) => Err(SchemaFault::Memory),
        Err(fault) => Err(SchemaFault::Pattern(fault, place.member(name)?)),
    }
}

#[tactic(auto, using(crate::proofs::ShapesLemmas::first_faults))]
fn check_names(place: &ValuePlace<'_>, members: &JsonMap) -> Result<(), SchemaFault>
    ensures { ChecksOrTells (F.names_fault rules (place_of place.now) (map_view members.now)) result }
{
    for member in members.as_slice() {
        check_name(place, member.name())?;
    }
    Ok(())
}

fn check_pattern_map(place: &ValuePlace<'_>, value: &Json) -> Result<(), SchemaFault>
    ensures { ChecksOrTells (F.pattern_map_fault rules (name_at place.now)
        (place_of place.now) (view value.now)) result }
{
    match value {
        Json::Members(members) => check_names(place, members),
        _ => Err(place.wrong_shape()),
    }
}

/// The names that a dependency needs.
fn check_need_words(place: &ValuePlace<'_>, name: &Str, words: &JsonList) -> Result<(), SchemaFault>
    ensures { ChecksOrTells (F.words_fault rules (name_at place.now)
        (place_of place.now ++ name.now ∷ []) (D.array (list_view words.now))) result }
{
    match ElementTest::Text.first_failing(words) {
        None => Ok(()),
        Some(i) => {
            let pointer = place.member_element(name, i)?;
            Err(SchemaFault::WrongShape(place.keyword, pointer))
        }
    }
}

fn check_need(place: &ValuePlace<'_>, name: &Str, value: &Json) -> Result<(), SchemaFault>
    ensures { ChecksOrTells (F.need_fault rules (name_at place.now)
        (place_of place.now ++ name.now ∷ []) (view value.now)) result }
{
    match value {
        Json::List(words) => check_need_words(place, name, words),
        _ => Ok(()),
    }
}

#[tactic(auto, using(crate::proofs::ShapesLemmas::first_faults))]
fn check_needs(place: &ValuePlace<'_>, members: &JsonMap) -> Result<(), SchemaFault>
    ensures { ChecksOrTells (F.needs_fault rules (name_at place.now) (place_of place.now)
        (map_view members.now)) result }
{
    for member in members.as_slice() {
        check_need(place, member.name(), member.value())?;
    }
    Ok(())
}

fn check_need_map(place: &ValuePlace<'_>, value: &Json) -> Result<(), SchemaFault>
    ensures { ChecksOrTells (F.need_map_fault rules (name_at place.now)
        (place_of place.now) (view value.now)) result }
{
    match value {
        Json::Members(members) => check_needs(place, members),
        _ => Err(place.wrong_shape()),
    }
}

fn check_value(place: &ValuePlace<'_>, value: &Json) -> Result<(), SchemaFault>
    ensures { ChecksOrTells (F.value_fault rules
        (place_of place.now) (view value.now)) result }
{
    let mut pointer = place.pointer()?;
    if find_not_whole(&mut pointer, value)? {
        return Err(SchemaFault::NotWhole(pointer));
    }
    Ok(())
}

fn check_values(place: &ValuePlace<'_>, value: &Json) -> Result<(), SchemaFault>
    ensures { ChecksOrTells (F.values_fault rules (name_at place.now)
        (place_of place.now) (view value.now)) result }
{
    match value {
        Json::List(_) => check_value(place, value),
        _ => Err(place.wrong_shape()),
    }
}
