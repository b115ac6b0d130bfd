//! What a set of signed positions requires of whole numbers.

ghost use Rattle.std.specs.Prelude.{◌≡◌, true, OnOk};
ghost use Rattle.positions.specs.Position.{in_range};
ghost use Rattle.number_finder.specs.SetGroup.{any_number, both, group_of, greater, lesser};
ghost use Rattle.js_numbers.specs.View as N;
ghost use Rattle.js_algebra.specs.View.{node_view};
ghost use Rattle.js_scalars.specs.SoFar.{group_so_far, asked};

use js_algebra::Node;
use js_doc::{Memory, NumList};
use js_numbers::NumGroup;
use std::alloc::Global;

/// The bounds, divisors and lists of some signed positions. Lists are borrowed from the table.
#[derive(Drop)]
pub(crate) struct Asked<'a> {
    lo: Option<i128>,
    hi: Option<i128>,
    multiples: Vec<u64>,
    not_multiples: Vec<u64>,
    sets: Vec<&'a NumList>,
    not_sets: Vec<&'a NumList>,
}

impl<'a> Asked<'a> {
    /// The requirements of no literal, which every number meets.
    pub fn new(alloc: Global) -> Asked<'a>
        ensures { group_so_far result ≡ any_number }
    {
        Asked {
            lo: None,
            hi: None,
            multiples: Vec::new(alloc),
            not_multiples: Vec::new(alloc),
            sets: Vec::new(alloc),
            not_sets: Vec::new(alloc),
        }
    }

    /// Adds what the position with that sign requires.
    pub fn add(&mut self, node: &'a Node, plus: bool) -> Result<(), Memory>
        requires { in_range (node_view node.now) ≡ true }
        ensures { OnOk result (group_so_far self.new
            ≡ both (group_so_far self.old) (group_of (asked plus (node_view node.now)))) }
    {
        match node {
            Node::NumMin(n) if plus => self.raise(*n),
            Node::NumMin(n) => self.lower(*n - 1),
            Node::NumMax(n) if plus => self.lower(*n),
            Node::NumMax(n) => self.raise(*n + 1),
            Node::Multiple(m) if plus => self.multiples.push(*m)?,
            Node::Multiple(m) => self.not_multiples.push(*m)?,
            Node::NumIn(ns) if plus => self.sets.push(ns)?,
            Node::NumIn(ns) => self.not_sets.push(ns)?,
            _ => {}
        }
        Ok(())
    }

    /// At least `n`.
    fn raise(&mut self, n: i128)
        ensures { self.new ≡ record self.old { lo = greater self.old.lo (Some n) } }
    {
        self.lo = match self.lo {
            Some(low) if n < low => Some(low),
            _ => Some(n),
        };
    }

    /// At most `n`.
    fn lower(&mut self, n: i128)
        ensures { self.new ≡ record self.old { hi = lesser self.old.hi (Some n) } }
    {
        self.hi = match self.hi {
            Some(high) if high < n => Some(high),
            _ => Some(n),
        };
    }

    /// The group of all that was added.
    pub fn group(&self) -> NumGroup<'_>
        ensures { N.group_of result ≡ group_so_far self.now }
    {
        NumGroup {
            lo: self.lo,
            hi: self.hi,
            multiples: self.multiples.as_slice(),
            not_multiples: self.not_multiples.as_slice(),
            sets: self.sets.as_slice(),
            not_sets: self.not_sets.as_slice(),
        }
    }
}
