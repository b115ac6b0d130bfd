//! All keywords of an object, read in groups.
//!
//! Each field takes a binary search among the members, and then what its value takes. A group without a keyword takes
//! no memory: it is that of an object without members.

ghost use Rattle.std.specs.Prelude.{◌≡◌, true, map, codes, option_map, option_and_then, IfOk};
ghost use Rattle.documents.specs.Document as D;
ghost use Rattle.documents.specs.Json.{lookup};
ghost use Rattle.schemas.specs.Entries as E;
ghost use Rattle.js_doc.specs.View as doc;
ghost use Rattle.js_keywords.specs.TypeView.{type_view};
ghost use Rattle.js_schema.specs.NoKeywords.{HasNone};
ghost use Rattle.js_reader.specs.NumbersView.{numbered};
ghost use Rattle.js_reader.specs.ObjectView.{members_of, numbers_of, place_of};
ghost use Rattle.js_schema.specs.Patterns.{source_of};
ghost use Rattle.js_schema.specs.View.{items_view, property_view, pattern_properties_view, dependency_view, keywords_view};

use crate::fields;
use crate::object::Object;
use js_doc::Memory;
use js_keywords::Keyword;
use js_schema::{
    AnyKeywords, ArrayKeywords, InPlaceKeywords, Keywords, NumberKeywords, ObjectKeywords,
    StringKeywords,
};
use std::alloc::Global;
use std::rc::Rc;

/// What an object without members requires. All such objects share it. Others share those of its groups of which they
/// have no keyword.
pub(crate) fn no_keywords(alloc: Global) -> Result<Rc<Keywords>, Memory>
    ensures { IfOk result (λ k. HasNone k.value) }
{
    let keywords = Keywords {
        any: Rc::new(alloc, AnyKeywords::none())?,
        numbers: Rc::new(alloc, NumberKeywords::none())?,
        strings: Rc::new(alloc, StringKeywords::none())?,
        arrays: Rc::new(alloc, ArrayKeywords::none())?,
        objects: Rc::new(alloc, ObjectKeywords::none())?,
        in_place: Rc::new(alloc, InPlaceKeywords::none())?,
    };
    Ok(Rc::new(alloc, keywords)?)
}

/// What the object requires, with schemas by their numbers. `none` is what an object without members requires.
pub(crate) fn keywords(
    alloc: Global,
    none: &Rc<Keywords>,
    object: &Object,
) -> Result<Rc<Keywords>, Memory>
    requires { HasNone none.now.value }
    ensures { IfOk result (λ k. keywords_view k.value
        ≡ E.keywords_of (E.number_of (numbered (numbers_of object.now))) (place_of object.now)
        (members_of object.now)) }
{
    if object.is_empty() {
        Ok(none.clone()?)
    } else {
        let read = read_keywords(alloc, none, object)?;
        Ok(Rc::new(alloc, read)?)
    }
}

fn read_keywords(alloc: Global, none: &Keywords, object: &Object) -> Result<Keywords, Memory>
    requires { HasNone none.now }
    ensures { IfOk result (λ k. keywords_view k
        ≡ E.keywords_of (E.number_of (numbered (numbers_of object.now))) (place_of object.now)
        (members_of object.now)) }
{
    let any = read_any(alloc, object)?;
    let numbers = read_numbers(object);
    let strings = read_strings(alloc, object)?;
    let arrays = read_arrays(alloc, object)?;
    let objects = read_objects(alloc, object)?;
    let in_place = read_in_place(alloc, object)?;
    Ok(Keywords {
        any: group(alloc, &none.any, any.is_empty(), any)?,
        numbers: group(alloc, &none.numbers, numbers.is_empty(), numbers)?,
        strings: group(alloc, &none.strings, strings.is_empty(), strings)?,
        arrays: group(alloc, &none.arrays, arrays.is_empty(), arrays)?,
        objects: group(alloc, &none.objects, objects.is_empty(), objects)?,
        in_place: group(alloc, &none.in_place, in_place.is_empty(), in_place)?,
    })
}

/// The group in memory of its own, or `none`, which is shared, where it is empty.
fn group<G: Drop>(alloc: Global, none: &Rc<G>, is_empty: bool, read: G) -> Result<Rc<G>, Memory>
    requires { is_empty ≡ true → read ≡ none.now.value }
    ensures { IfOk result (λ g. g.value ≡ read) }
{
    if is_empty {
        Ok(none.clone()?)
    } else {
        Ok(Rc::new(alloc, read)?)
    }
}

fn read_any(alloc: Global, object: &Object) -> Result<AnyKeywords, Memory>
    ensures types { IfOk result (λ v. option_map (λ ts. map type_view ts) v.types
        ≡ E.field (members_of object.now) (codes "type") (λ k. E.types_of)) }
    ensures enumeration { IfOk result (λ v. option_map (λ ds. D.elements (doc.list_view ds)) v.enumeration
        ≡ E.field (members_of object.now) (codes "enum") (λ k v. map E.document_of (E.listed v))) }
    ensures constant { IfOk result (λ v. option_map doc.view v.constant
        ≡ E.field (members_of object.now) (codes "const") (λ k. E.document_of)) }
{
    Ok(AnyKeywords {
        types: fields::types(alloc, object, Keyword::Type)?,
        enumeration: fields::documents(alloc, object, Keyword::Enum)?,
        constant: fields::document(alloc, object, Keyword::Const)?,
    })
}

fn read_numbers(object: &Object) -> NumberKeywords
    ensures multiple_of { result.multiple_of ≡ E.field (members_of object.now) (codes "multipleOf") (λ k. E.natural) }
    ensures minimum { result.minimum ≡ E.field (members_of object.now) (codes "minimum") (λ k. E.whole) }
    ensures maximum { result.maximum ≡ E.field (members_of object.now) (codes "maximum") (λ k. E.whole) }
    ensures exclusive_minimum { result.exclusive_minimum
        ≡ E.field (members_of object.now) (codes "exclusiveMinimum") (λ k. E.whole) }
    ensures exclusive_maximum { result.exclusive_maximum
        ≡ E.field (members_of object.now) (codes "exclusiveMaximum") (λ k. E.whole) }
{
    NumberKeywords {
        multiple_of: fields::natural(object, Keyword::MultipleOf),
        minimum: fields::whole(object, Keyword::Minimum),
        maximum: fields::whole(object, Keyword::Maximum),
        exclusive_minimum: fields::whole(object, Keyword::ExclusiveMinimum),
        exclusive_maximum: fields::whole(object, Keyword::ExclusiveMaximum),
    }
}

fn read_strings(alloc: Global, object: &Object) -> Result<StringKeywords, Memory>
    ensures min_length { IfOk result (λ v. v.min_length
        ≡ E.field (members_of object.now) (codes "minLength") (λ k. E.natural)) }
    ensures max_length { IfOk result (λ v. v.max_length
        ≡ E.field (members_of object.now) (codes "maxLength") (λ k. E.natural)) }
    ensures pattern { IfOk result (λ v. option_map source_of v.pattern
        ≡ E.field (members_of object.now) (codes "pattern") (λ k. E.word)) }
{
    Ok(StringKeywords {
        min_length: fields::natural(object, Keyword::MinLength),
        max_length: fields::natural(object, Keyword::MaxLength),
        pattern: fields::pattern(alloc, object, Keyword::Pattern)?,
    })
}

fn read_arrays(alloc: Global, object: &Object) -> Result<ArrayKeywords, Memory>
    ensures items { IfOk result (λ v. option_map items_view v.items ≡ E.field (members_of object.now) (codes "items")
        (E.items_part (E.number_of (numbered (numbers_of object.now))) (place_of object.now))) }
    ensures additional_items { IfOk result (λ v. v.additional_items ≡ option_and_then
        (E.rest_number (E.number_of (numbered (numbers_of object.now))) (place_of object.now)
        (lookup (codes "items") (members_of object.now)) (codes "additionalItems"))
        (lookup (codes "additionalItems") (members_of object.now))) }
    ensures contains { IfOk result (λ v. v.contains ≡ E.field (members_of object.now) (codes "contains")
        (E.one_number (E.number_of (numbered (numbers_of object.now))) (place_of object.now))) }
    ensures min_items { IfOk result (λ v. v.min_items
        ≡ E.field (members_of object.now) (codes "minItems") (λ k. E.natural)) }
    ensures max_items { IfOk result (λ v. v.max_items
        ≡ E.field (members_of object.now) (codes "maxItems") (λ k. E.natural)) }
{
    Ok(ArrayKeywords {
        items: fields::items(alloc, object, Keyword::Items)?,
        additional_items: fields::additional_items(object),
        contains: fields::one(object, Keyword::Contains),
        min_items: fields::natural(object, Keyword::MinItems),
        max_items: fields::natural(object, Keyword::MaxItems),
    })
}

fn read_objects(alloc: Global, object: &Object) -> Result<ObjectKeywords, Memory>
    ensures required { IfOk result (λ v. v.required
        ≡ E.field (members_of object.now) (codes "required") (λ k v. map E.word (E.listed v))) }
    ensures properties { IfOk result (λ v. option_map (λ ps. map property_view ps) v.properties
        ≡ E.field (members_of object.now) (codes "properties")
        (E.named_numbers (E.number_of (numbered (numbers_of object.now))) (place_of object.now))) }
    ensures pattern_properties { IfOk result (λ v. option_map pattern_properties_view v.pattern_properties
        ≡ E.field (members_of object.now) (codes "patternProperties")
        (E.named_numbers (E.number_of (numbered (numbers_of object.now))) (place_of object.now))) }
    ensures additional_properties { IfOk result (λ v. v.additional_properties
        ≡ E.field (members_of object.now) (codes "additionalProperties")
        (E.one_number (E.number_of (numbered (numbers_of object.now))) (place_of object.now))) }
    ensures property_names { IfOk result (λ v. v.property_names
        ≡ E.field (members_of object.now) (codes "propertyNames")
        (E.one_number (E.number_of (numbered (numbers_of object.now))) (place_of object.now))) }
    ensures dependencies { IfOk result (λ v. option_map (λ ds. map dependency_view ds) v.dependencies
        ≡ E.field (members_of object.now) (codes "dependencies")
        (E.all_needs (E.number_of (numbered (numbers_of object.now))) (place_of object.now))) }
    ensures min_properties { IfOk result (λ v. v.min_properties
        ≡ E.field (members_of object.now) (codes "minProperties") (λ k. E.natural)) }
    ensures max_properties { IfOk result (λ v. v.max_properties
        ≡ E.field (members_of object.now) (codes "maxProperties") (λ k. E.natural)) }
{
    Ok(ObjectKeywords {
        required: fields::words(alloc, object, Keyword::Required)?,
        properties: fields::properties(alloc, object, Keyword::Properties)?,
        pattern_properties: fields::pattern_properties(alloc, object, Keyword::PatternProperties)?,
        additional_properties: fields::one(object, Keyword::AdditionalProperties),
        property_names: fields::one(object, Keyword::PropertyNames),
        dependencies: fields::dependencies(alloc, object, Keyword::Dependencies)?,
        min_properties: fields::natural(object, Keyword::MinProperties),
        max_properties: fields::natural(object, Keyword::MaxProperties),
    })
}

fn read_in_place(alloc: Global, object: &Object) -> Result<InPlaceKeywords, Memory>
    ensures all_of { IfOk result (λ v. v.all_of ≡ E.field (members_of object.now) (codes "allOf")
        (E.list_numbers (E.number_of (numbered (numbers_of object.now))) (place_of object.now))) }
    ensures any_of { IfOk result (λ v. v.any_of ≡ E.field (members_of object.now) (codes "anyOf")
        (E.list_numbers (E.number_of (numbered (numbers_of object.now))) (place_of object.now))) }
    ensures one_of { IfOk result (λ v. v.one_of ≡ E.field (members_of object.now) (codes "oneOf")
        (E.list_numbers (E.number_of (numbered (numbers_of object.now))) (place_of object.now))) }
    ensures not { IfOk result (λ v. v.not ≡ E.field (members_of object.now) (codes "not")
        (E.one_number (E.number_of (numbered (numbers_of object.now))) (place_of object.now))) }
{
    Ok(InPlaceKeywords {
        all_of: fields::list(alloc, object, Keyword::AllOf)?,
        any_of: fields::list(alloc, object, Keyword::AnyOf)?,
        one_of: fields::list(alloc, object, Keyword::OneOf)?,
        not: fields::one(object, Keyword::Not),
    })
}
