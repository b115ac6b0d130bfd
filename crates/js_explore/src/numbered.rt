//! Alternatives with numbers of explored goals in place of goals.

ghost use Rattle.std.specs.Prelude.{◌≡◌, map};
ghost use Rattle.js_explore.specs.View.{placed_view, filler_view};

use js_algebra::BranchId;
use js_expansion::{Shape, Slot};
use std::marker::Model;

/// An element or a member, which is to meet the goal of that number.
#[derive(Clone, Copy, PartialEq, Eq, Debug)]
pub struct NumberedPlaced {
    pub slot: Slot,
    pub goal: u32,
}

/// Documents of the goal of that number, of which as many may be added as there is room for, from a slot on.
#[derive(Clone, Copy, PartialEq, Eq, Debug)]
pub struct NumberedFiller {
    pub goal: u32,
    pub room: u32,
    /// The first free one.
    pub slot: Slot,
}

/// One way to build a document of a goal; `numbered_view` is the alternative that it stands for.
#[derive(Drop)]
pub struct Numbered {
    pub branch: BranchId,
    pub shape: Shape,
    pub members: NumberedPlacedList,
    /// How many fillers must be added.
    pub need: u32,
    pub fillers: NumberedFillerList,
}

/// The members of an alternative, in order.
#[derive(Drop)]
pub struct NumberedPlacedList {
    items: Vec<NumberedPlaced>,
}

impl Model for NumberedPlacedList {
    ghost use Rattle.std.specs.Prelude.{List, map};
    ghost use Rattle.search.specs.Rounds.{NumberedPlaced};

    ghost Value = { List NumberedPlaced };

    ghost use Rattle.js_explore.specs.View.{placed_view};

    ghost view = { λ l. map placed_view l.items.items };
}

impl NumberedPlacedList {
    /// Takes the vector over, without a copy.
    pub fn from_vec(items: Vec<NumberedPlaced>) -> NumberedPlacedList
        ensures { result ≡ map placed_view items.items }
    {
        NumberedPlacedList { items }
    }

    /// The elements in order, lent without a copy.
    pub fn as_slice(&self) -> &[NumberedPlaced]
        ensures { map placed_view result.now ≡ self.now }
    {
        self.items.as_slice()
    }
}

/// The fillers of an alternative, in order.
#[derive(Drop)]
pub struct NumberedFillerList {
    items: Vec<NumberedFiller>,
}

impl Model for NumberedFillerList {
    ghost use Rattle.std.specs.Prelude.{List, map};
    ghost use Rattle.search.specs.Rounds.{NumberedFiller};

    ghost Value = { List NumberedFiller };

    ghost use Rattle.js_explore.specs.View.{filler_view};

    ghost view = { λ l. map filler_view l.items.items };
}

impl NumberedFillerList {
    /// Takes the vector over, without a copy.
    pub fn from_vec(items: Vec<NumberedFiller>) -> NumberedFillerList
        ensures { result ≡ map filler_view items.items }
    {
        NumberedFillerList { items }
    }

    /// The elements in order, lent without a copy.
    pub fn as_slice(&self) -> &[NumberedFiller]
        ensures { map filler_view result.now ≡ self.now }
    {
        self.items.as_slice()
    }
}
