//! What is kept of the answers of branches.
//!
//! Places are counted once for each answer; that those of all together are within the limit holds of every value.

ghost use Rattle.std.specs.Prelude.{◌≡◌, ◌++◌, map, Some, Ok, OnOk};
ghost use Rattle.documents.specs.Tests.{some};
ghost use Rattle.alternatives.specs.Alternative.{named, named_by};
ghost use Rattle.alternatives.specs.Expansion as E;
ghost use Rattle.js_expansion.specs.View.{placed_view, filler_view, limit_view};
ghost use Rattle.js_expansion.specs.AlternativeView.{alternative_view};
ghost use Rattle.js_expansion.specs.ExpansionView.{expansion_view};
ghost use Rattle.js_expander.specs.Answers.{answer_view};

use js_algebra::Goal;
use js_doc::Memory;
use js_expansion::{Alternative, AlternativeList, Expansion, Filler, Leaf, LimitKind, Placed};
use std::alloc::Global;
use std::marker::Model;

/// The alternatives of a branch, or the limit that it passes; `answer_view` is what it stands for.
pub(crate) type Answer = Result<Leaf, LimitKind>;

/// The most places of the alternatives of one goal.
const MOST_PLACES: u128 = 1_048_576;

/// The most signed positions of a goal that an alternative names.
const MOST_WIDTH: usize = 65_536;

/// The expansion by the answers so far.
#[derive(Drop)]
pub(crate) struct Kept {
    alternatives: Vec<Alternative>,
    /// How many places the kept alternatives have together.
    places: u128,
    hole: Option<LimitKind>,
}

impl Model for Kept {
    ghost use Rattle.std.specs.Prelude.{map, option_map};
    ghost use Rattle.alternatives.specs.Expansion.{Expansion, expansion_of};
    ghost use Rattle.js_expansion.specs.View.{limit_view};
    ghost use Rattle.js_expansion.specs.AlternativeView.{alternative_view};
    ghost use Rattle.js_expander.specs.Places.{AreCounted};

    ghost Value = { Expansion };

    ghost view = { λ k. expansion_of (map alternative_view k.alternatives.items) (option_map limit_view k.hole) };

    ghost invariant = { λ k. AreCounted (map alternative_view k.alternatives.items) k.places };
}

impl Kept {
    /// Before any answer: nothing is kept, and no limit was passed.
    pub fn new(alloc: Global) -> Kept
        ensures { result ≡ E.nothing }
    {
        Kept {
            alternatives: Vec::new(alloc),
            places: 0,
            hole: None,
        }
    }

    /// Takes the answer of one more branch.
    pub fn keep(&mut self, answer: Answer) -> Result<(), Memory>
        ensures { OnOk result (self.new ≡ E.keep self.old (answer_view answer)) }
    {
        match answer {
            Ok(leaf) => self.add(leaf.alternatives)?,
            Err(limit) => self.pass(limit),
        }
        Ok(())
    }

    /// Notes a limit that a branch passes. The first one stays.
    pub fn pass(&mut self, limit: LimitKind)
        ensures { self.new ≡ E.with_limit self.old (limit_view limit) }
    {
        if self.hole.is_none() {
            self.hole = Some(limit);
        }
    }

    /// Takes all alternatives of a branch, or none of them where a limit would be passed.
    fn add(&mut self, more: AlternativeList) -> Result<(), Memory>
        ensures { OnOk result (self.new ≡ E.keep self.old (Ok more)) }
    {
        if are_wide(more.as_slice()) {
            self.pass(LimitKind::Width);
            return Ok(());
        }
        let places = more.places();
        if places > MOST_PLACES - self.places {
            self.pass(LimitKind::Places);
            return Ok(());
        }
        let mut more = more.into_vec();
        self.alternatives.append(&mut more)?;
        self.places += places;
        Ok(())
    }

    /// What was kept, with the first limit that was passed, if any.
    pub fn into_expansion(self) -> Expansion
        ensures { expansion_view result ≡ self }
    {
        let Kept {
            alternatives,
            hole,
            ..
        } = self;
        Expansion {
            alternatives: AlternativeList::from_vec(alternatives),
            hole,
        }
    }
}

fn is_wide(goal: &Goal) -> bool
    ensures { result ≡ E.is_wide goal.now }
{
    goal.as_slice().len() > MOST_WIDTH
}

/// Whether one of the alternatives names a goal that is too wide.
fn are_wide(alternatives: &[Alternative]) -> bool
    ensures { result ≡ some E.is_wide (named (map alternative_view alternatives.now)) }
{
    for alternative in alternatives {
        if names_wide(alternative) {
            return true;
        }
    }
    false
}

fn names_wide(alternative: &Alternative) -> bool
    ensures { result ≡ some E.is_wide (named_by (alternative_view alternative.now)) }
{
    has_wide_member(alternative.members.as_slice())
        || has_wide_filler(alternative.fillers.as_slice())
}

fn has_wide_member(members: &[Placed]) -> bool
    ensures { result ≡ some E.is_wide (map (λ m. m.goal) (map placed_view members.now)) }
{
    for member in members {
        if is_wide(&member.goal) {
            return true;
        }
    }
    false
}

fn has_wide_filler(fillers: &[Filler]) -> bool
    ensures { result ≡ some E.is_wide (map (λ f. f.goal) (map filler_view fillers.now)) }
{
    for filler in fillers {
        if is_wide(&filler.goal) {
            return true;
        }
    }
    false
}
