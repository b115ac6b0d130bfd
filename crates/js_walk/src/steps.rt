//! The walk from schema to schema: it comes to each place once, depth first, and ends at the first fault.
//!
//! What waits is a stack, the next place on top; a place that is done is known by the number of its pointer. Nothing
//! recurses from schema to schema. Time and memory are those of the values of the schema, and of the tokens by which
//! its places are reached.

ghost use Rattle.std.specs.Prelude.{◌≡◌, ◌≤◌, ◌<◌, ◌+◌, ◌++◌, [], false, reverse, length, get_or, None, IfOk, IfErr, IfSome, OnOk};
ghost use Rattle.schemas.specs.Places.{has_place};
ghost use Rattle.schemas.specs.Weight as W;
ghost use Rattle.schemas.specs.Walk.{next_of, children, places};
ghost use Rattle.schemas.specs.Reading.{fault_with, first_fault};
ghost use Rattle.js_doc.specs.JsonView.{view};
ghost use Rattle.js_keywords.specs.FaultView.{Tells};
ghost use Rattle.js_keywords.specs.Reading.{rules};
ghost use Rattle.js_pointers.specs.PointersView.{pointers_of};
ghost use Rattle.js_walk.specs.FileView.{root_of};
ghost use Rattle.js_walk.specs.PlacesView.{place_view, pointers_in, places_view, targets_of, AreTargets};
ghost use Rattle.js_walk.specs.Visiting.{AreWithin};
ghost use Rattle.js_walk.specs.Walking.{done_places, stack_view, DoneWithin, Kept, NextOf, Passed, too_large};

use crate::done_list::DoneList;
use crate::file::File;
use crate::place::{Done, Found, Place};
use crate::places::Places;
use crate::visit::visit;
use crate::weight::weight;
use js_doc::Memory;
use js_keywords::SchemaFault;
use js_pointers::Pointers;
use std::alloc::Global;

/// What a schema may weigh.
const MOST_WEIGHT: u64 = 2_147_483_647;

/// What a walk has come to: the pointers that have numbers, the places that are done, and what these weigh.
#[derive(Drop)]
struct Walked<'a> {
    pointers: Pointers,
    done: DoneList<'a>,
    weight: u64,
}

/// The places of a schema in the order of its walk, or its first fault.
pub fn walk<'a>(alloc: Global, file: &File<'a>) -> Result<Places<'a>, SchemaFault>
    ensures ok { IfOk result (λ done. (first_fault rules (root_of file.now) ≡ None)
        × (places rules (root_of file.now) ≡ places_view done)) }
    ensures targets { IfOk result (λ done. AreTargets (root_of file.now) (pointers_in done) (places_view done)
        (targets_of done)) }
    ensures fault { IfErr result (λ f. Tells (first_fault rules (root_of file.now)) f) }
{
    let mut walked = Walked {
        pointers: Pointers::new(alloc),
        done: DoneList::new(alloc),
        weight: 0,
    };
    let mut waiting = Vec::new(alloc);
    waiting.push(root_place(file))?;
    while let Some(place) = next(&mut waiting, &walked) {
        walked.pass(alloc, file, &mut waiting, place)?;
    }
    Ok(Places::new(walked.pointers, walked.done))
}

fn root_place<'a>(file: &File<'a>) -> Place<'a>
    ensures pointer { result.pointer ≡ 0 }
    ensures value { view result.value.now ≡ root_of file.now }
{
    Place {
        pointer: 0,
        value: file.root(),
    }
}

/// The next place that isn't done. Those before it are left out.
fn next<'a>(waiting: &mut Vec<Place<'a>>, walked: &Walked<'a>) -> Option<Place<'a>>
    requires waiting { AreWithin (pointers_of walked.now.pointers) waiting.old.items }
    requires done { DoneWithin (pointers_of walked.now.pointers) walked.now.done }
    ensures next { NextOf (pointers_of walked.now.pointers)
        (next_of (done_places (pointers_of walked.now.pointers) walked.now.done)
        (stack_view (pointers_of walked.now.pointers) waiting.old.items)) waiting.new.items result }
    ensures left { AreWithin (pointers_of walked.now.pointers) waiting.new.items }
    ensures within { IfSome result (λ p. p.pointer < length (pointers_of walked.now.pointers)) }
{
    while let Some(place) = waiting.pop() {
        if !walked.has(place.pointer) {
            return Some(place);
        }
    }
    None
}

impl<'a> Walked<'a> {
    /// Whether the place with that pointer is done.
    fn has(&self, pointer: u32) -> bool
        requires done { DoneWithin (pointers_of self.now.pointers) self.now.done }
        requires pointer { pointer < length (pointers_of self.now.pointers) }
        ensures { result ≡ has_place (done_places (pointers_of self.now.pointers) self.now.done)
            (get_or (pointers_of self.now.pointers) pointer []) }
    {
        self.done.has(pointer)
    }

    /// Goes on past a place without a fault: it is done, and what it leads to is next.
    fn pass(
        &mut self,
        alloc: Global,
        file: &File<'a>,
        waiting: &mut Vec<Place<'a>>,
        place: Place<'a>,
    ) -> Result<(), SchemaFault>
        requires within { place.pointer < length (pointers_of self.old.pointers) }
        requires first { has_place (done_places (pointers_of self.old.pointers) self.old.done)
            (get_or (pointers_of self.old.pointers) place.pointer []) ≡ false }
        requires light { self.old.weight ≤ 2147483647 }
        requires kept { Kept (root_of file.now) (pointers_of self.old.pointers) self.old.done waiting.old.items }
        ensures ok { OnOk result (Passed (root_of file.now) self.old.weight self.new.weight
            (place_view (pointers_of self.old.pointers) place.entry)
            (done_places (pointers_of self.old.pointers) self.old.done)
            (done_places (pointers_of self.new.pointers) self.new.done)
            (stack_view (pointers_of self.old.pointers) waiting.old.items)
            (stack_view (pointers_of self.new.pointers) waiting.new.items)) }
        ensures kept { OnOk result
            (Kept (root_of file.now) (pointers_of self.new.pointers) self.new.done waiting.new.items) }
        ensures fault { IfErr result (λ f. Tells (fault_with rules (root_of file.now) self.old.weight
            (place_view (pointers_of self.old.pointers) place.entry)) f) }
    {
        let found = visit(alloc, file, &mut self.pointers, &place)?;
        let weight = self.weight_with(alloc, &place)?;
        self.done.push(
            place.pointer,
            Done {
                value: place.value,
                target: found.target,
            },
        )?;
        stack_up(waiting, found.places)?;
        self.weight = weight;
        Ok(())
    }

    /// The weight with the place, which may not be too much.
    fn weight_with(&self, alloc: Global, place: &Place<'a>) -> Result<u64, SchemaFault>
        requires light { self.now.weight ≤ 2147483647 }
        requires within { place.now.pointer < length (pointers_of self.now.pointers) }
        ensures ok { IfOk result (λ after.
            (after ≡ self.now.weight + W.weight (place_view (pointers_of self.now.pointers) place.now))
            × (after ≤ 2147483647)) }
        ensures fault { IfErr result (λ f. Tells
            (too_large self.now.weight (place_view (pointers_of self.now.pointers) place.now)) f) }
    {
        let after = self.weight.saturating_add(weight(place.value));
        if after > MOST_WEIGHT {
            return Err(SchemaFault::TooLarge(self.pointers.pointer(alloc, place.pointer)?));
        }
        Ok(after)
    }
}

/// Puts the places on the stack, the first on top.
fn stack_up<'a>(waiting: &mut Vec<Place<'a>>, found: Vec<Place<'a>>) -> Result<(), Memory>
    ensures { OnOk result (waiting.new.items ≡ waiting.old.items ++ reverse found.entry.items) }
{
    let mut found = found;
    while let Some(place) = found.pop() {
        waiting.push(place)?;
    }
    Ok(())
}
