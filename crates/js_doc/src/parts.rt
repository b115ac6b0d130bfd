//! Shared documents: tables of parts, in which an array and an object name their elements and members by the numbers
//! of parts below. So what is at many places of a document is kept once.
//!
//! Contracts see a number as it is, lists of numbers and members as lists, and a table as the list of its parts, by
//! `part_view` of `specs/PartView.antt`. That each part names only parts below its own, and that the names of an object
//! rise, is true of every table.

ghost use Rattle.std.specs.Prelude.{◌≡◌, ◌<◌, ◌↔◌, ◌++◌, ◌∷◌, [], true, map, length, option_map, nat_le, Some, None, Err, IfOk, OnOk, OnErr};
ghost use Rattle.std.specs.List.{find};
ghost use Rattle.shared_documents.specs.Part.{first_forward, names_rise};
ghost use Rattle.js_doc.specs.PartMembers.{number_of};
ghost use Rattle.js_doc.specs.PartView.{part_view};

use crate::text::{Memory, Str};
use std::alloc::{AllocFailed, Global};
use std::marker::Model;

/// The number of a part in its table, from 0.
#[derive(Clone, Copy, PartialEq, Eq, Debug)]
pub struct PartId(pub u32);

impl PartId {
    /// The number as an index into `Parts::as_slice`.
    pub fn index(self) -> usize
        ensures { result ≡ self.0 }
    {
        self.0 as usize
    }
}

/// A document whose elements and members are numbers of parts.
#[derive(Drop)]
pub enum Part {
    Null,
    Bool(bool),
    Num(i128),
    Text(Str),
    List(PartIds),
    Members(PartMap),
}

/// The elements of an array, in order.
#[derive(Drop)]
pub struct PartIds {
    items: Vec<PartId>,
}

impl Model for PartIds {
    ghost use Rattle.std.specs.Prelude.{ℕ, List, map};

    ghost Value = { List ℕ };

    ghost use Rattle.js_doc.specs.PartMembers.{number_of};

    ghost view = { λ l. map number_of l.items.items };
}

impl PartIds {
    ghost use Rattle.js_doc.specs.PartMembers.{number_of};

    /// Takes the vector over, without a copy.
    pub fn from_vec(items: Vec<PartId>) -> PartIds
        ensures { result ≡ map number_of items.items }
    {
        PartIds { items }
    }

    /// Gives the vector back, without a copy.
    pub fn into_vec(self) -> Vec<PartId>
        ensures { map number_of result.items ≡ self }
    {
        let PartIds { items } = self;
        items
    }

    /// The elements in order, lent without a copy.
    pub fn as_slice(&self) -> &[PartId]
        ensures { map number_of result.now ≡ self.now }
    {
        self.items.as_slice()
    }

    /// The first number that isn't below `count`.
    fn first_from(&self, count: u32) -> Option<PartId>
        ensures { option_map number_of result ≡ find (λ i. nat_le count i) self.now }
    {
        for id in self.as_slice() {
            if count <= id.0 {
                return Some(*id);
            }
        }
        None
    }
}

/// A member of an object: its name, and the part that is its value.
#[derive(Drop)]
pub struct PartMember {
    pub name: Str,
    pub part: PartId,
}

/// The members of an object, each name once, in ascending order of scalar values.
#[derive(Drop)]
pub struct PartMap {
    members: Vec<PartMember>,
}

impl Model for PartMap {
    ghost use Rattle.std.specs.Prelude.{◌≡◌, ℕ, List, map, true};
    ghost use Rattle.shared_documents.specs.Part.{members_rise};

    ghost Value = { List (List ℕ × ℕ) };

    ghost use Rattle.js_doc.specs.PartMembers.{member_view};

    ghost view = { λ m. map member_view m.members.items };

    ghost invariant = { λ m. members_rise (map member_view m.members.items) ≡ true };
}

impl PartMap {
    ghost use Rattle.shared_documents.specs.Part.{members_rise};
    ghost use Rattle.js_doc.specs.PartMembers.{member_view, number_of};

    /// The members must come in ascending order of their names, each name once.
    pub fn from_vec(members: Vec<PartMember>) -> PartMap
        requires { members_rise (map member_view members.items) ≡ true }
        ensures { result ≡ map member_view members.items }
    {
        PartMap { members }
    }

    /// The members in ascending order of their names, lent without a copy.
    pub fn as_slice(&self) -> &[PartMember]
        ensures list { map member_view result.now ≡ self.now }
        ensures rising { members_rise self.now ≡ true }
    {
        self.members.as_slice()
    }

    /// The first number of a part that isn't below `count`.
    fn first_from(&self, count: u32) -> Option<PartId>
        ensures first { option_map number_of result ≡ find (λ i. nat_le count i) (map (λ m. m.1) self.now) }
        ensures rising { members_rise self.now ≡ true }
    {
        for member in self.as_slice() {
            if count <= member.part.0 {
                return Some(member.part);
            }
        }
        None
    }
}

/// Why a part was not taken into a table.
#[derive(Clone, Copy, PartialEq, Eq, Debug)]
pub enum PartsFault {
    Memory,
    /// The part names this number first of those that aren't below its own.
    ForwardPart(PartId),
}

impl<T: Drop> From<AllocFailed<T>> for PartsFault {
    ghost use Rattle.js_doc.specs.declared.parts.PartsFault.TheVariants as fault;

    ghost from_gives = { λ _ e. e ≡ fault.Memory };

    fn from(_: AllocFailed<T>) -> PartsFault {
        PartsFault::Memory
    }
}

/// The first number that the part names which isn't below `count`.
fn first_forward(part: &Part, count: u32) -> Option<PartId>
    ensures first { option_map number_of result ≡ first_forward count (part_view part.now) }
    ensures rising { names_rise (part_view part.now) ≡ true }
{
    match part {
        Part::List(ids) => ids.first_from(count),
        Part::Members(members) => members.first_from(count),
        Part::Null | Part::Bool(_) | Part::Num(_) | Part::Text(_) => None,
    }
}

/// A table of parts, numbered from 0, each of which names only parts below its own.
#[derive(Drop)]
pub struct Parts {
    parts: Vec<Part>,
}

impl Model for Parts {
    ghost use Rattle.std.specs.Prelude.{List, map};
    ghost use Rattle.shared_documents.specs.Part.{Part};

    ghost Value = { List Part };

    ghost use Rattle.js_doc.specs.PartView.{part_view, AreParts};

    ghost view = { λ t. map part_view t.parts.items };

    ghost invariant = { λ t. AreParts (map part_view t.parts.items) };
}

impl Parts {
    ghost use Rattle.shared_documents.specs.Part.{IsPart, is_table, part_at, first_forward};
    ghost use Rattle.js_doc.specs.PartView.{part_view};

    /// A table without parts, which takes no memory.
    pub fn new(alloc: Global) -> Parts
        ensures { result ≡ [] }
    {
        Parts {
            parts: Vec::new(alloc),
        }
    }

    /// How many parts there are, in constant time. It is the number that the next part gets.
    pub fn len(&self) -> u32
        ensures value { result ≡ length self.now }
        ensures table { is_table self.now ≡ true }
    {
        self.parts.len() as u32
    }

    /// The part of that number, lent in constant time.
    pub fn get(&self, id: PartId) -> &Part
        requires { id.0 < length self.now }
        ensures value { part_view result.now ≡ part_at self.now id.0 }
        ensures part { IsPart id.0 (part_view result.now) }
        ensures table { is_table self.now ≡ true }
    {
        &self.parts[id.index()]
    }

    /// The parts, lowest first.
    pub fn as_slice(&self) -> &[Part]
        ensures list { map part_view result.now ≡ self.now }
        ensures table { is_table self.now ≡ true }
    {
        self.parts.as_slice()
    }

    /// Takes the part as the last one, and gives its number. `ForwardPart` names the first number, in the part's order,
    /// that isn't below the part's own. After a fault the table is as before.
    pub fn push(&mut self, part: Part) -> Result<PartId, PartsFault>
        requires { length self.old < 4294967295 }
        ensures number { IfOk result (λ id. id.0 ≡ length self.old) }
        ensures taken { OnOk result (self.new ≡ self.old ++ part_view part ∷ []) }
        ensures below { OnOk result (first_forward (length self.old) (part_view part) ≡ None) }
        ensures forward { (id : PartId) → (result ≡ Err (PartsFault.ForwardPart id))
            ↔ (first_forward (length self.old) (part_view part) ≡ Some id.0) }
        ensures err { OnErr result (self.new ≡ self.old) }
    {
        let count = self.parts.len() as u32;
        if let Some(id) = first_forward(&part, count) {
            return Err(PartsFault::ForwardPart(id));
        }
        self.parts.push(part)?;
        Ok(PartId(count))
    }
}
