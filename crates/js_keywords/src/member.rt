//! What is wrong first in a member of an object that has no reference: by the keyword that its name is.
//!
//! The reader of schemas stands on it. It takes the time of looking a keyword up and of checking its value.

ghost use Rattle.std.specs.Prelude.{Some};
ghost use Rattle.documents.specs.Json as D;
ghost use Rattle.schemas.specs.Reading.{id_fault};
ghost use Rattle.js_doc.specs.JsonView.{view, member_view};
ghost use Rattle.js_keywords.specs.FaultView.{ChecksOrTells};
ghost use Rattle.js_keywords.specs.Member.{named_fault, fault_by};
ghost use Rattle.js_keywords.specs.Reading.{rules};

use crate::fault::SchemaFault;
use crate::keyword::Keyword;
use crate::shapes::check_keyword;
use crate::value_place::ValuePlace;
use js_doc::{Json, JsonMember};
use js_json::Pointer;
use std::alloc::Global;

/// An object of a schema, by its pointer. Beside `items` that is no list, `additionalItems` is not looked at.
#[derive(Clone, Copy, Drop)]
pub struct ObjectPlace<'a> {
    pub pointer: &'a Pointer,
    /// Whether its `items` is a list.
    pub listed: bool,
}

/// An identifier is at the root alone, and is a string.
fn check_id(alloc: Global, object: &Pointer, value: &Json) -> Result<(), SchemaFault>
    ensures { (root : D.Json) → ChecksOrTells (id_fault rules root object.now (view value.now)) result }
{
    let place = ValuePlace {
        alloc,
        object,
        keyword: Keyword::Id,
    };
    if !object.tokens().is_empty() {
        return Err(SchemaFault::InnerId(place.pointer()?));
    }
    match value {
        Json::Text(_) => Ok(()),
        _ => Err(place.wrong_shape()),
    }
}

/// What is wrong first in a member that is that keyword.
fn check_named(
    alloc: Global,
    object: &ObjectPlace<'_>,
    keyword: Keyword,
    value: &Json,
) -> Result<(), SchemaFault>
    ensures { (root : D.Json) → ChecksOrTells
        (fault_by root object.now.listed object.now.pointer.now (Some keyword) (view value.now)) result }
{
    let place = ValuePlace {
        alloc,
        object: object.pointer,
        keyword,
    };
    match keyword {
        Keyword::Id => check_id(alloc, object.pointer, value),
        Keyword::AdditionalItems => {
            if object.listed {
                check_keyword(&place, value)
            } else {
                Ok(())
            }
        }
        _ => check_keyword(&place, value),
    }
}

/// What is wrong first in a member of the object.
pub fn check_member(
    alloc: Global,
    object: &ObjectPlace<'_>,
    member: &JsonMember,
) -> Result<(), SchemaFault>
    ensures { (root : D.Json) → ChecksOrTells (named_fault root object.now.listed object.now.pointer.now
        (member_view member.now).0 (member_view member.now).1) result }
{
    match Keyword::of(member.name().as_text()) {
        None => Ok(()),
        Some(keyword) => check_named(alloc, object, keyword, member.value()),
    }
}
