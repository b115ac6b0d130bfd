//! What is wrong first at a place of a schema, but for its weight; and the places that it leads to.
//!
//! Each member of an object is checked once, by the keyword that its name is. Of an object with a reference only that
//! is looked at. It takes time in proportion to the object, and to the last tokens of the pointers of the places. The
//! whole pointer of a place is made where something is wrong there.

ghost use Rattle.std.specs.Prelude.{◌≡◌, ◌<◌, [], ℕ, Some, None, length, get_or, IfOk};
ghost use Rattle.documents.specs.Json as D;
ghost use Rattle.documents.specs.Place.{value_at};
ghost use Rattle.schemas.specs.SubSchemas as S;
ghost use Rattle.schemas.specs.Walk as W;
ghost use Rattle.schemas.specs.Reading as R;
ghost use Rattle.js_doc.specs.JsonView.{view, map_view, member_view};
ghost use Rattle.js_keywords.specs.FaultView.{ChecksOrTells};
ghost use Rattle.js_keywords.specs.Member.{named_fault};
ghost use Rattle.js_keywords.specs.Reading.{rules};
ghost use Rattle.js_pointers.specs.PointersView.{pointers_of};
ghost use Rattle.js_walk.specs.FileView.{root_of};
ghost use Rattle.js_walk.specs.PlacesView.{place_view, reference_in};
ghost use Rattle.js_walk.specs.Visiting.{Adds, Settles, Visits, members_fault_by};

use crate::children::children;
use crate::file::File;
use crate::members::{has_list, value_of};
use crate::place::{Found, Place};
use js_doc::{Json, JsonMap, JsonMember, Memory, Str};
use js_json::{Pointer, RefFault, Referent};
use js_keywords::{Keyword, ObjectPlace, SchemaFault, check_member, wrong_shape};
use js_pointers::Pointers;
use std::alloc::Global;

/// The places that a place leads to, or what is wrong there first.
pub(crate) fn visit<'a>(
    alloc: Global,
    file: &File<'a>,
    pointers: &mut Pointers,
    place: &Place<'a>,
) -> Result<Found<'a>, SchemaFault>
    requires { place.now.pointer < length (pointers_of pointers.old) }
    ensures { Visits (root_of file.now) (pointers_of pointers.old) (pointers_of pointers.new)
        (R.fault_at rules (root_of file.now) (place_view (pointers_of pointers.old) place.now))
        (W.children rules (root_of file.now) (place_view (pointers_of pointers.old) place.now))
        (reference_in (view place.now.value.now)) result }
{
    match place.value {
        Json::Bool(_) => Ok(Found {
            places: Vec::new(alloc),
            target: None,
        }),
        Json::Members(members) => visit_object(alloc, file, pointers, place.pointer, members),
        _ => Err(SchemaFault::NotASchema(pointers.pointer(alloc, place.pointer)?)),
    }
}

fn visit_object<'a>(
    alloc: Global,
    file: &File<'a>,
    pointers: &mut Pointers,
    place: u32,
    members: &'a JsonMap,
) -> Result<Found<'a>, SchemaFault>
    requires { place < length (pointers_of pointers.old) }
    ensures { Visits (root_of file.now) (pointers_of pointers.old) (pointers_of pointers.new)
        (R.fault_at rules (root_of file.now)
        (get_or (pointers_of pointers.old) place [], D.object (map_view members.now)))
        (W.children rules (root_of file.now)
        (get_or (pointers_of pointers.old) place [], D.object (map_view members.now)))
        (reference_in (D.object (map_view members.now))) result }
{
    match value_of(members, Keyword::Ref) {
        Some(value) => visit_reference(alloc, file, pointers, place, value),
        None => visit_members(alloc, file, pointers, place, members),
    }
}

/// The value of `$ref`, of the object at `place`.
fn visit_reference<'a>(
    alloc: Global,
    file: &File<'a>,
    pointers: &mut Pointers,
    place: u32,
    value: &'a Json,
) -> Result<Found<'a>, SchemaFault>
    requires { place < length (pointers_of pointers.old) }
    ensures { Visits (root_of file.now) (pointers_of pointers.old) (pointers_of pointers.new)
        (R.reference_fault rules (root_of file.now) (get_or (pointers_of pointers.old) place []) (view value.now))
        (W.referred rules (root_of file.now) (view value.now)) (Some (view value.now)) result }
{
    match value {
        Json::Text(text) => follow(alloc, file, pointers, place, text.as_str()),
        _ => Err(wrong_shape(alloc, &pointers.pointer(alloc, place)?, Keyword::Ref)),
    }
}

fn follow<'a>(
    alloc: Global,
    file: &File<'a>,
    pointers: &mut Pointers,
    place: u32,
    text: &Str,
) -> Result<Found<'a>, SchemaFault>
    requires { place < length (pointers_of pointers.old) }
    ensures { Visits (root_of file.now) (pointers_of pointers.old) (pointers_of pointers.new)
        (R.reference_fault rules (root_of file.now) (get_or (pointers_of pointers.old) place []) (D.string text.now))
        (W.referred rules (root_of file.now) (D.string text.now)) (Some (D.string text.now)) result }
{
    match file.target(alloc, text) {
        Ok(target) => Ok(found_at(alloc, file, pointers, target)?),
        Err(RefFault::Memory) => Err(SchemaFault::Memory),
        Err(fault) => Err(SchemaFault::Ref(fault, pointers.pointer(alloc, place)?)),
    }
}

/// The place to which a reference leads.
fn found_at<'a>(
    alloc: Global,
    file: &File<'a>,
    pointers: &mut Pointers,
    target: Referent<'a>,
) -> Result<Found<'a>, Memory>
    requires { value_at target.place (root_of file.now) ≡ Some (view target.value.now) }
    ensures places { IfOk result (λ found. Adds (pointers_of pointers.old) (pointers_of pointers.new) []
        found.places.items (W.place_with target.entry.place (value_at target.entry.place (root_of file.now)))) }
    ensures target { IfOk result (λ found. Settles (pointers_of pointers.new) found.target target.entry.place) }
{
    let Referent { place, value } = target;
    let pointer = pointers.add_whole(&place)?;
    let mut places = Vec::new(alloc);
    places.push(Place { pointer, value })?;
    Ok(Found {
        places,
        target: Some(pointer),
    })
}

/// An object without a reference.
#[tactic(auto, using(crate::proofs::VisitLemmas::by_parts))]
fn visit_members<'a>(
    alloc: Global,
    file: &File<'a>,
    pointers: &mut Pointers,
    place: u32,
    members: &'a JsonMap,
) -> Result<Found<'a>, SchemaFault>
    requires { place < length (pointers_of pointers.old) }
    ensures { Visits (root_of file.now) (pointers_of pointers.old) (pointers_of pointers.new)
        (R.members_fault rules (root_of file.now) (map_view members.now)
        (get_or (pointers_of pointers.old) place []) (map_view members.now))
        (S.sub_schemas (get_or (pointers_of pointers.old) place []) (map_view members.now)) None result }
{
    let listed = has_list(members);
    check_members(alloc, file, pointers, place, listed, members)?;
    Ok(Found {
        places: children(alloc, pointers, place, listed, members)?,
        target: None,
    })
}

/// What is wrong first in the members of an object whose `items` is a list or isn't. Whether anything is wrong doesn't
/// depend on the pointer, so its own is made only then.
fn check_members<'a>(
    alloc: Global,
    file: &File<'a>,
    pointers: &Pointers,
    place: u32,
    listed: bool,
    members: &'a JsonMap,
) -> Result<(), SchemaFault>
    requires { place < length (pointers_of pointers.now) }
    ensures { ChecksOrTells (members_fault_by (root_of file.now) listed
        (get_or (pointers_of pointers.now) place []) (map_view members.now)) result }
{
    let short = short_pointer(alloc, place)?;
    let object = ObjectPlace {
        pointer: &short,
        listed,
    };
    match check_all(alloc, file, &object, members) {
        Ok(()) => Ok(()),
        Err(_) => {
            let pointer = pointers.pointer(alloc, place)?;
            let object = ObjectPlace {
                pointer: &pointer,
                listed,
            };
            check_all(alloc, file, &object, members)
        }
    }
}

/// A pointer that is the root where `place` is.
fn short_pointer(alloc: Global, place: u32) -> Result<Pointer, Memory>
    ensures { IfOk result (λ p. p ≡ [] → place ≡ 0) }
{
    let mut pointer = Pointer::root(alloc);
    if place > 0 {
        pointer.push_name("")?;
    }
    Ok(pointer)
}

/// What is wrong first in the members of the object.
#[tactic(auto, using(js_keywords::proofs::ShapesLemmas::first_faults))]
fn check_all<'a>(
    alloc: Global,
    file: &File<'a>,
    object: &ObjectPlace<'_>,
    members: &'a JsonMap,
) -> Result<(), SchemaFault>
    ensures { ChecksOrTells (members_fault_by (root_of file.now) object.now.listed object.now.pointer.now
        (map_view members.now)) result }
{
    for member in members.as_slice() {
        check_one(alloc, file, object, member)?;
    }
    Ok(())
}

fn check_one<'a>(
    alloc: Global,
    file: &File<'a>,
    object: &ObjectPlace<'_>,
    member: &'a JsonMember,
) -> Result<(), SchemaFault>
    ensures { ChecksOrTells (named_fault (root_of file.now) object.now.listed object.now.pointer.now
        (member_view member.now).0 (member_view member.now).1) result }
{
    check_member(alloc, object, member)
}
