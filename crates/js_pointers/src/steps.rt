//! Steps by number, and the number of each step.

ghost use Rattle.std.specs.Prelude.{◌≡◌, ◌<◌, ℕ, [], length, get_or, position, nat_eq, ◌&&◌, IfOk, OnOk, OnErr};
ghost use Rattle.std.specs.List.{position_or_len};
ghost use Rattle.indexmap.specs.IndexSet.{insert_key};
ghost use Rattle.js_pointers.specs.Numbered.{same_step};

use crate::places::Places;
use js_doc::Memory;
use std::alloc::Global;
use std::marker::Model;

/// How many steps are kept. Beyond, it is memory that is wanting.
const MOST: usize = 4_294_967_294;

/// Pairs of numbers, no two of them the same, numbered from 0 in the order in which they were added.
#[derive(Drop)]
pub struct Steps {
    steps: Vec<(u32, u32)>,
    places: Places,
}

impl Model for Steps {
    ghost use Rattle.std.specs.Prelude.{◌<◌, ℕ, List, length};
    ghost use Rattle.js_pointers.specs.Numbered.{IsNumbered};
    ghost use Rattle.js_pointers.specs.PlacesView.{found};

    ghost Value = { List (ℕ × ℕ) };

    ghost view = { λ s. s.steps.items };

    ghost invariant = { λ s. (length s.steps.items < 4294967295) × IsNumbered s.steps.items (found s.places) };
}

impl Steps {
    /// No steps: nothing leads on from any number.
    pub fn new(alloc: Global) -> Steps
        ensures { result ≡ [] }
    {
        Steps {
            steps: Vec::new(alloc),
            places: Places::new(alloc),
        }
    }

    /// How many there are.
    pub fn len(&self) -> usize
        ensures count { result ≡ length self.now }
        ensures few { result < 4294967295 }
    {
        self.steps.len()
    }

    /// The step with that number.
    pub fn step(&self, number: usize) -> (u32, u32)
        requires { number < length self.now }
        ensures { result ≡ get_or self.now number result }
    {
        self.steps[number]
    }

    /// The number of a step, where it is there. Where it and those by the lower tokens were added in turn it takes no
    /// look at the map, nor where all that go on from `of` were so added; else one, in time in proportion to the
    /// logarithm of what is there.
    pub fn number(&self, of: u32, token: u32) -> Option<usize>
        ensures index { result ≡ position (λ s. nat_eq of s.0 && nat_eq token s.1) self.now }
        ensures few { length self.now < 4294967295 }
    {
        self.places.number(of, token)
    }

    /// The number of a step, which is added after the others where it isn't there. Where those by the lower tokens were
    /// added just before, in turn, it takes no look at the map; else one, and one more where other steps out of turn go
    /// on from `of`. It takes the memory of the step, and room up to the number `of`, by doubling. An error is memory
    /// that is wanting, as it is where there would be more than 2^32 - 2 steps.
    pub fn add(&mut self, of: u32, token: u32) -> Result<usize, Memory>
        ensures keys { OnOk result (self.new ≡ insert_key same_step self.old (of, token)) }
        ensures index { IfOk result (λ i. i ≡ position_or_len (λ s. nat_eq of s.0 && nat_eq token s.1) self.old) }
        ensures within { IfOk result (λ i. i < length self.new) }
        ensures few { length self.new < 4294967295 }
        ensures err { OnErr result (self.new ≡ self.old) }
    {
        if let Some(number) = self.places.number(of, token) {
            return Ok(number);
        }
        let number = self.steps.len();
        if number >= MOST {
            return Err(Memory);
        }
        self.steps.push((of, token))?;
        if let Err(wanting) = self.places.note(of, token, number as u32) {
            self.steps.truncate(number);
            return Err(wanting);
        }
        Ok(number)
    }
}
