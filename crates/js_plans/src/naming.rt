//! How the slots of an alternative are named.

ghost use Rattle.std.specs.Prelude.{◌≡◌, ◌<◌, ◌≤◌, ◌^◌, length, reverse};
ghost use Rattle.frames.specs.Frame as F;
ghost use Rattle.alternatives.specs.Alternative as A;
ghost use Rattle.js_expansion.specs.View.{slot_view, shape_view};
ghost use Rattle.js_plans.specs.Named.{naming_view, filling_slot};

use crate::choices::count;
use js_expansion::{Shape, Slot};

/// Elements have an index, and members a name of their cell; `naming_view` is the naming that it stands for.
#[derive(Clone, Copy, PartialEq, Eq, Debug)]
pub enum Naming {
    ByIndex,
    ByName,
}

impl Naming {
    pub(crate) fn shape(self) -> Shape
        ensures { shape_view result ≡ (naming_view self).shape }
    {
        match self {
            Naming::ByIndex => Shape::List,
            Naming::ByName => Shape::Members,
        }
    }

    /// The slot of what is placed in a cell, after others in these cells.
    pub(crate) fn slot(self, before: &[u32], cell: u32) -> Slot
        requires { length before.now < 2 ^ 32 }
        ensures { slot_view result ≡ (naming_view self).slot (length before.now) (reverse before.now) (F.In cell) }
    {
        match self {
            Naming::ByIndex => Slot::Index(before.len() as u32),
            Naming::ByName => Slot::Name(cell, count(before, cell) as u32),
        }
    }

    /// The slot of a filler, where so much is placed and the cell has so many members.
    pub(crate) fn filling(self, placed: usize, cell: u32, members: usize) -> Slot
        requires placed { placed < 2 ^ 32 }
        requires members { members < 2 ^ 32 }
        ensures { slot_view result ≡ filling_slot self placed cell members }
    {
        match self {
            Naming::ByIndex => Slot::Index(placed as u32),
            Naming::ByName => Slot::Name(cell, members as u32),
        }
    }
}
