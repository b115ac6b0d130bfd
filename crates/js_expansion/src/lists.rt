//! Lists that contracts see as lists of what their elements stand for. Each is made of a `Vec` and gives it back
//! without taking memory.

ghost use Rattle.std.specs.Prelude.{◌≡◌, map};
ghost use Rattle.alternatives.specs.Alternative.{places};
ghost use Rattle.js_expansion.specs.View.{placed_view, filler_view};

use crate::alternative::{Alternative, Filler, Placed};
use std::marker::Model;

/// The members of an alternative, in order.
#[derive(Drop)]
pub struct PlacedList {
    items: Vec<Placed>,
}

impl Model for PlacedList {
    ghost use Rattle.std.specs.Prelude.{List, map};
    ghost use Rattle.alternatives.specs.Alternative.{Placed};

    ghost Value = { List Placed };

    ghost use Rattle.js_expansion.specs.View.{placed_view};

    ghost view = { λ l. map placed_view l.items.items };
}

impl PlacedList {
    /// Takes the vector over, without a copy.
    pub fn from_vec(items: Vec<Placed>) -> PlacedList
        ensures { result ≡ map placed_view items.items }
    {
        PlacedList { items }
    }

    /// Gives the vector back, without a copy.
    pub fn into_vec(self) -> Vec<Placed>
        ensures { map placed_view result.items ≡ self }
    {
        let PlacedList { items } = self;
        items
    }

    /// The elements in order, lent without a copy.
    pub fn as_slice(&self) -> &[Placed]
        ensures { map placed_view result.now ≡ self.now }
    {
        self.items.as_slice()
    }
}

/// The fillers of an alternative, in order.
#[derive(Drop)]
pub struct FillerList {
    items: Vec<Filler>,
}

impl Model for FillerList {
    ghost use Rattle.std.specs.Prelude.{List, map};
    ghost use Rattle.alternatives.specs.Alternative.{Filler};

    ghost Value = { List Filler };

    ghost use Rattle.js_expansion.specs.View.{filler_view};

    ghost view = { λ l. map filler_view l.items.items };
}

impl FillerList {
    /// Takes the vector over, without a copy.
    pub fn from_vec(items: Vec<Filler>) -> FillerList
        ensures { result ≡ map filler_view items.items }
    {
        FillerList { items }
    }

    /// Gives the vector back, without a copy.
    pub fn into_vec(self) -> Vec<Filler>
        ensures { map filler_view result.items ≡ self }
    {
        let FillerList { items } = self;
        items
    }

    /// The elements in order, lent without a copy.
    pub fn as_slice(&self) -> &[Filler]
        ensures { map filler_view result.now ≡ self.now }
    {
        self.items.as_slice()
    }
}

/// Alternatives, in order.
#[derive(Drop)]
pub struct AlternativeList {
    items: Vec<Alternative>,
}

impl Model for AlternativeList {
    ghost use Rattle.std.specs.Prelude.{List, map};
    ghost use Rattle.alternatives.specs.Alternative.{Alternative};

    ghost Value = { List Alternative };

    ghost use Rattle.js_expansion.specs.AlternativeView.{alternative_view};

    ghost view = { λ l. map alternative_view l.items.items };
}

impl AlternativeList {
    ghost use Rattle.js_expansion.specs.AlternativeView.{alternative_view};

    /// Takes the vector over, without a copy.
    pub fn from_vec(items: Vec<Alternative>) -> AlternativeList
        ensures { result ≡ map alternative_view items.items }
    {
        AlternativeList { items }
    }

    /// Gives the vector back, without a copy.
    pub fn into_vec(self) -> Vec<Alternative>
        ensures { map alternative_view result.items ≡ self }
    {
        let AlternativeList { items } = self;
        items
    }

    /// The elements in order, lent without a copy.
    pub fn as_slice(&self) -> &[Alternative]
        ensures { map alternative_view result.now ≡ self.now }
    {
        self.items.as_slice()
    }

    /// The places of all of them.
    pub fn places(&self) -> u128
        ensures { result ≡ places self.now }
    {
        let mut sum = 0;
        for alternative in self.items.as_slice() {
            sum += alternative.places();
        }
        sum
    }
}
