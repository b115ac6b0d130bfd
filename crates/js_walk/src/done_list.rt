//! The places that are done, in the order in which they were met, each found by the number of its pointer.
//!
//! Numbers of pointers are dense, so a list by them says where a place is: a pointer's place is done exactly where an
//! entry with that pointer is where the list says. A look-up is two looks, and takes no hashing.

ghost use Rattle.std.specs.Prelude.{◌≡◌, ◌<◌, ◌++◌, ◌∷◌, [], ℕ, false, length, get_or, Some, slice_get, is_some, nat_eq, position, OnOk};
ghost use Rattle.std.specs.Map.{keys_of, lookup};

use crate::place::Done;
use js_doc::Memory;
use std::alloc::Global;
use std::marker::Model;

/// How many places are kept. Beyond, it is memory that is wanting.
const MOST: usize = 4_294_967_295;

/// Places in their order, no two of them with the same pointer.
#[derive(Drop)]
pub(crate) struct DoneList<'a> {
    entries: Vec<(u32, Done<'a>)>,
    noted: Vec<u32>,
}

impl<'a> Model for DoneList<'a> {
    ghost use Rattle.std.specs.Prelude.{ℕ, List};
    ghost use Rattle.std.specs.Coded.{codes};
    ghost use Rattle.std.specs.Map.{keys_of};
    ghost use Rattle.js_doc.specs.contracts.json.Json as json;
    ghost use Rattle.js_walk.specs.declared.place.Done.{Done};
    ghost use Rattle.js_walk.specs.Noted.{AreNoted};

    ghost Value = { List (ℕ × Done) };

    ghost coded = { Prim.hlevel (codes, json.the_row.coded) };

    ghost view = { λ l. l.entries.items };

    ghost invariant = { λ l. AreNoted (keys_of l.entries.items) l.noted.items };
}

impl<'a> DoneList<'a> {
    pub(crate) fn new(alloc: Global) -> DoneList<'a>
        ensures { result ≡ [] }
    {
        DoneList {
            entries: Vec::new(alloc),
            noted: Vec::new(alloc),
        }
    }

    pub(crate) fn len(&self) -> usize
        ensures { result ≡ length self.now }
    {
        self.entries.len()
    }

    /// The entry that is there.
    pub(crate) fn entry(&self, number: usize) -> &(u32, Done<'a>)
        requires { number < length self.now }
        ensures { Some result.now ≡ slice_get self.now number }
    {
        &self.entries[number]
    }

    /// Where the entry with that pointer is.
    pub(crate) fn number(&self, pointer: u32) -> Option<usize>
        ensures { result ≡ position (nat_eq pointer) (keys_of self.now) }
    {
        let index = pointer as usize;
        if index >= self.noted.len() {
            return None;
        }
        let place = self.noted[index] as usize;
        if place >= self.entries.len() {
            return None;
        }
        if self.entries[place].0 != pointer {
            return None;
        }
        Some(place)
    }

    /// Whether the place with that pointer is done.
    pub(crate) fn has(&self, pointer: u32) -> bool
        ensures { result ≡ is_some (lookup (nat_eq pointer) self.now) }
    {
        self.number(pointer).is_some()
    }

    /// Notes a place as done, after the others. It takes the memory of an entry, and room up to the pointer's number,
    /// by doubling, and fails only where memory is wanting.
    pub(crate) fn push(&mut self, pointer: u32, done: Done<'a>) -> Result<(), Memory>
        requires { is_some (lookup (nat_eq pointer) self.old) ≡ false }
        ensures { OnOk result (self.new ≡ self.old ++ (pointer, done.entry) ∷ []) }
    {
        let number = self.entries.len();
        if number >= MOST {
            return Err(Memory);
        }
        let index = pointer as usize;
        make_room(&mut self.noted, index)?;
        self.entries.push((pointer, done))?;
        self.noted[index] = number as u32;
        Ok(())
    }
}

/// Makes room for what is noted at that index.
fn make_room(noted: &mut Vec<u32>, index: usize) -> Result<(), Memory>
    requires { index < 4294967296 }
    ensures room { OnOk result (index < length noted.new.items) }
    ensures stays { (i : ℕ) → i < length noted.old.items
        → (i < length noted.new.items) × (get_or noted.new.items i 0 ≡ get_or noted.old.items i 0) }
{
    if noted.len() <= index {
        noted.resize(index + 1, 0)?;
    }
    Ok(())
}
