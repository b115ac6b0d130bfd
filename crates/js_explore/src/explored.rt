//! What was found of goals so far: it grows by mentions of goals, and by answers for goals that are taken.

ghost use Rattle.std.specs.Prelude.{◌≡◌, ◌<◌, ◌≤◌, ◌+◌, ◌^◌, [], ◌∷◌, ℕ, List, None, Some, IfOk, OnOk, length, map, not, nat_lt, option_map, slice_get, true, false};
ghost use Rattle.documents.specs.Tests.{every};
ghost use Rattle.goals.specs.Signed.{Signed};
ghost use Rattle.alternatives.specs.Alternative.{named, named_by, places};
ghost use Rattle.alternatives.specs.Expansion as X;
ghost use Rattle.search.specs.Explored as S;
ghost use Rattle.search.specs.Rounds.{alternatives_of, hole_of};
ghost use Rattle.js_expansion.specs.View.{limit_view};
ghost use Rattle.js_expansion.specs.AlternativeView.{alternative_view};
ghost use Rattle.js_expansion.specs.ExpansionView.{expansion_view};
ghost use Rattle.js_explore.specs.NumberedView.{numbered_view};
ghost use Rattle.js_explore.specs.Exploration.{exploration, alternatives_at, hole_at, with_answer, Explores, GoesOn};

use crate::numbered::Numbered;
use crate::numbering::{number, number_alternatives};
use indexmap::IndexSet;
use js_algebra::Goal;
use js_doc::Memory;
use js_expansion::{Alternative, Expander, Expansion, LimitKind};
use std::alloc::Global;

/// What was answered for a goal that was taken.
#[derive(Drop)]
struct Answer {
    alternatives: Vec<Numbered>,
    hole: Option<LimitKind>,
    ghost few: { length alternatives.items < 2 ^ 32 },
}

/// Explored goals, with the alternatives of those that were taken; `explored_view` is what it stands for.
#[derive(Drop)]
pub struct Explored {
    goals: IndexSet<Goal>,
    answers: Vec<Answer>,
    /// Of all goals that were taken.
    places: u64,
    over: Option<LimitKind>,
    ghost few: { length goals.keys < 2 ^ 32 },
    ghost fewer: { length answers.items < 2 ^ 32 },
}

impl Explored {
    ghost use Rattle.js_explore.specs.ExploredView.{explored_view, found_view};

    /// How many goals have a number; the root has number 0.
    pub fn len(&self) -> u32
        ensures { result ≡ length (explored_view self.now).found.goals }
    {
        self.goals.len() as u32
    }

    /// The goal of that number.
    pub fn goal(&self, n: u32) -> &Goal
        requires { n < length (explored_view self.now).found.goals }
        ensures { slice_get (explored_view self.now).found.goals n ≡ Some result.now }
    {
        &self.goals[n as usize]
    }

    /// The number of a goal, if it was mentioned when there was one left. It costs a hash.
    pub fn number(&self, goal: &Goal) -> Option<u32>
        ensures { result ≡ S.number_in (explored_view self.now).found.goals goal.now }
    {
        number(&self.goals, goal)
    }

    /// How many goals were taken: those of the numbers below.
    pub fn taken(&self) -> u32
        ensures { result ≡ (explored_view self.now).found.taken }
    {
        self.answers.len() as u32
    }

    /// The alternatives of a goal in order, without those of which a member has a goal without number, and without
    /// such fillers. A goal that wasn't taken has none.
    pub fn alternatives(&self, n: u32) -> &[Numbered]
        ensures value { map numbered_view result.now ≡ alternatives_at (explored_view self.now) n }
        ensures explored { (expansion : List Signed → X.Expansion) → Explores expansion (explored_view self.now)
            → map numbered_view result.now ≡ alternatives_of expansion (explored_view self.now).found n }
        ensures few { length result.now < 2 ^ 32 }
    {
        match self.answers.get(n as usize) {
            Some(answer) => answer.alternatives.as_slice(),
            None => &[],
        }
    }

    /// The first limit that left alternatives of a goal out. A goal that wasn't taken has none.
    pub fn hole(&self, n: u32) -> Option<LimitKind>
        ensures value { option_map limit_view result ≡ hole_at (explored_view self.now) n }
        ensures explored { (expansion : List Signed → X.Expansion) → Explores expansion (explored_view self.now)
            → option_map limit_view result ≡ hole_of expansion (explored_view self.now).found n }
    {
        match self.answers.get(n as usize) {
            Some(answer) => answer.hole,
            None => None,
        }
    }

    /// `Goals` or `Total`, whichever was passed first.
    pub fn over(&self) -> Option<LimitKind>
        ensures { option_map limit_view result ≡ (explored_view self.now).found.over }
    {
        self.over
    }

    /// The root alone.
    pub(crate) fn new(alloc: Global, root: Goal) -> Result<Explored, Memory>
        ensures { IfOk result (λ e. explored_view e ≡ exploration (S.found (root ∷ []) 0 0 None) []) }
    {
        let mut goals = IndexSet::new(alloc);
        goals.insert(root)?;
        Ok(Explored {
            goals,
            answers: Vec::new(alloc),
            places: 0,
            over: None,
        })
    }

    /// A goal is mentioned.
    fn mention(&mut self, goal: &Goal, most_goals: u32) -> Result<(), Memory>
        ensures found { OnOk result (found_view self.new ≡ S.mention most_goals (found_view self.old) goal.now) }
        ensures answers { self.new.answers ≡ self.old.answers }
        ensures places { self.new.places ≡ self.old.places }
    {
        if !self.goals.contains(goal) {
            if self.goals.len() < most_goals as usize {
                self.goals.insert(goal.clone()?)?;
            } else {
                self.pass(LimitKind::Goals);
            }
        }
        Ok(())
    }

    /// A limit is passed.
    fn pass(&mut self, kind: LimitKind)
        ensures over { option_map limit_view self.new.over
            ≡ X.first_limit (option_map limit_view self.old.over) (limit_view kind) }
        ensures goals { self.new.goals ≡ self.old.goals }
        ensures answers { self.new.answers ≡ self.old.answers }
        ensures places { self.new.places ≡ self.old.places }
    {
        if self.over.is_none() {
            self.over = Some(kind);
        }
    }

    /// The goals that an alternative names are mentioned.
    fn mention_named(&mut self, alternative: &Alternative, most_goals: u32) -> Result<(), Memory>
        ensures found { OnOk result (found_view self.new
            ≡ S.mention_goals most_goals (found_view self.old) (named_by (alternative_view alternative.now))) }
        ensures answers { self.new.answers ≡ self.old.answers }
        ensures places { self.new.places ≡ self.old.places }
    {
        for member in alternative.members.as_slice() {
            self.mention(&member.goal, most_goals)?;
        }
        for filler in alternative.fillers.as_slice() {
            self.mention(&filler.goal, most_goals)?;
        }
        Ok(())
    }

    /// The goals that alternatives name are mentioned.
    fn mention_all(&mut self, alternatives: &[Alternative], most_goals: u32) -> Result<(), Memory>
        ensures found { OnOk result (found_view self.new
            ≡ S.mention_goals most_goals (found_view self.old) (named (map alternative_view alternatives.now))) }
        ensures answers { self.new.answers ≡ self.old.answers }
        ensures places { self.new.places ≡ self.old.places }
    {
        for alternative in alternatives {
            self.mention_named(alternative, most_goals)?;
        }
        Ok(())
    }

    /// Takes the answer for the goal that comes next. False says that nothing is taken, since places would be too many.
    pub(crate) fn take(
        &mut self,
        alloc: Global,
        expansion: &Expansion,
        most_goals: u32,
        most_total: u32,
    ) -> Result<bool, Memory>
        requires within { (found_view self.old).places ≤ most_total }
        requires next { (found_view self.old).taken < length (found_view self.old).goals }
        ensures taken { OnOk result (explored_view self.new
            ≡ with_answer most_goals most_total (explored_view self.old) (expansion_view expansion.now)) }
        ensures fits { IfOk result (λ b. b ≡ not (nat_lt most_total
            ((found_view self.old).places + places (expansion_view expansion.now).alternatives))) }
    {
        let places = expansion.alternatives.places();
        if u128::from(u64::from(most_total) - self.places) < places {
            self.pass(LimitKind::Total);
            return Ok(false);
        }
        let alternatives = expansion.alternatives.as_slice();
        self.mention_all(alternatives, most_goals)?;
        let numbered = number_alternatives(alloc, &self.goals, alternatives)?;
        self.answers.push(Answer {
            alternatives: numbered,
            hole: expansion.hole,
        })?;
        self.places += places as u64;
        Ok(true)
    }

    /// Requests the goal that comes next, and takes the answer. False says that another step changes nothing.
    pub(crate) fn step<E: Expander>(
        &mut self,
        alloc: Global,
        expander: &E,
        most_goals: u32,
        most_total: u32,
    ) -> Result<bool, Memory>
        requires { GoesOn most_goals most_total (E.takes expander.now) (E.expansion expander.now)
            (explored_view self.old) }
        ensures step { OnOk result (found_view self.new
            ≡ S.step most_goals most_total (E.expansion expander.now) (found_view self.old)) }
        ensures ended { IfOk result (λ b. b ≡ false
            → S.step most_goals most_total (E.expansion expander.now) (found_view self.new) ≡ found_view self.new) }
        ensures goes_on { OnOk result
            (GoesOn most_goals most_total (E.takes expander.now) (E.expansion expander.now) (explored_view self.new)) }
    {
        let expansion = match self.goals.get_index(self.answers.len()) {
            Some(goal) => expander.expand(alloc, goal)?,
            None => return Ok(false),
        };
        self.take(alloc, &expansion, most_goals, most_total)
    }
}
