//! Signed positions that may still need a choice, the least first.

ghost use Rattle.std.specs.Prelude.{◌≡◌, List, [], ◌∷◌, IfOk, OnOk, MatchOption, true};
ghost use Rattle.documents.specs.Tests.{every};
ghost use Rattle.goals.specs.Signed.{add, comes_before};
ghost use Rattle.js_algebra.specs.View.{signed_view};

use js_algebra::Signed;
use js_doc::Memory;
use std::alloc::Global;
use std::collections::BTreeSet;
use std::marker::Model;

/// A set of signed positions, seen as a rising list.
#[derive(Drop)]
pub struct Waiting {
    numbers: BTreeSet<u64>,
}

impl Model for Waiting {
    ghost use Rattle.std.specs.Prelude.{◌≡◌, List, map, true};
    ghost use Rattle.goals.specs.Signed.{Signed};
    ghost use Rattle.js_algebra.specs.Numbers.{signed_at, are_numbers};

    ghost Value = { List Signed };

    ghost view = { λ w. map signed_at w.numbers.keys };

    ghost invariant = { λ w. are_numbers w.numbers.keys ≡ true };
}

impl Waiting {
    /// The empty set, which takes no memory.
    pub fn new(alloc: Global) -> Waiting
        ensures { result ≡ [] }
    {
        Waiting {
            numbers: BTreeSet::new(alloc),
        }
    }

    /// Puts `x` in, in time that is logarithmic in the size of the set. A member stays as it is.
    pub fn add(&mut self, x: Signed) -> Result<(), Memory>
        ensures { OnOk result (self.new ≡ add (signed_view x) self.old) }
    {
        self.numbers.insert(x.order())?;
        Ok(())
    }

    /// Takes all out.
    pub fn clear(&mut self)
        ensures { self.new ≡ [] }
    {
        self.numbers.clear();
    }

    /// Takes the least out.
    pub fn pop(&mut self) -> Option<Signed>
        ensures { MatchOption result (self.old ≡ [])
            (λ x. (self.old ≡ signed_view x ∷ self.new) × (every (comes_before (signed_view x)) self.new ≡ true)) }
    {
        let number = self.numbers.pop_first()?;
        Some(Signed::from_order(number))
    }
}
