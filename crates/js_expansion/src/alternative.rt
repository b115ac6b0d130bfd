//! Alternatives of a goal: what one builds, and of which goals.

ghost use Rattle.std.specs.Prelude.{◌≡◌, ◌<◌, ◌^◌};
ghost use Rattle.alternatives.specs.Alternative.{places_of};
ghost use Rattle.js_expansion.specs.AlternativeView.{alternative_view};

use crate::lists::{FillerList, PlacedList};
use js_algebra::{BranchId, Goal};

/// What an alternative builds; `shape_view` is the shape that it stands for.
#[derive(Clone, Copy, PartialEq, Eq, Debug)]
pub enum Shape {
    Null,
    Bool(bool),
    Num(i128),
    /// The first word of cell 0 of its branch.
    Text,
    /// An array of its members and fillers.
    List,
    /// An object of its members and fillers.
    Members,
}

/// Where something is; `slot_view` is the slot that it stands for.
#[derive(Clone, Copy, PartialEq, Eq, Debug)]
pub enum Slot {
    /// An index of an array.
    Index(u32),
    /// A cell of names, and a place among the words of the cell.
    Name(u32, u32),
}

/// An element or a member, which is to meet a goal.
#[derive(Drop)]
pub struct Placed {
    pub slot: Slot,
    pub goal: Goal,
}

/// Documents of one goal, of which as many may be added as there is room for, from a slot on.
#[derive(Drop)]
pub struct Filler {
    pub goal: Goal,
    pub room: u32,
    /// The first free one.
    pub slot: Slot,
}

/// One way to build a document of a goal; `alternative_view` is the alternative that it stands for.
#[derive(Drop)]
pub struct Alternative {
    pub branch: BranchId,
    pub shape: Shape,
    pub members: PlacedList,
    /// How many fillers must be added.
    pub need: u32,
    pub fillers: FillerList,
}

impl Alternative {
    /// One for itself, and one for each of its members and fillers.
    pub fn places(&self) -> u128
        ensures value { result ≡ places_of (alternative_view self.now) }
        ensures bound { result < 2 ^ 65 }
    {
        1 + self.members.as_slice().len() as u128 + self.fillers.as_slice().len() as u128
    }
}
