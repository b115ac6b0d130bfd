//! The step of a tree at the set of a walk.
//!
//! Where the set had no clash and nothing wrong before its new members came, a clash or a wrong literal is among these.
//! So a step looks at the new members, and then takes waiting ones until one has no choice in the set.

ghost use Rattle.std.specs.Prelude.{◌≡◌, ◌<◌, ◌≤◌, ◌*◌, ◌++◌, ◌&&◌, ℕ, List, [], ◌∷◌, map, take, drop, length, IfOk, OnOk, true, false, Option, Some, None, option_map, not, cond};
ghost use Rattle.documents.specs.Tests.{every, some};
ghost use Rattle.goals.specs.Signed.{has, opposite};
ghost use Rattle.goals.specs.Choices.{choices, is_wrong, one_plus, two_plus};
ghost use Rattle.goals.specs.Tree.{next, choice_list, has_choice};
ghost use Rattle.js_algebra.specs.View.{signed_view, kind_view, with_sign, places, is_in_table, are_in_table};
ghost use Rattle.js_algebra.specs.SignedSets.{set_of};
ghost use Rattle.js_tableau.specs.Walks.{IsCovered, is_clean, are_settled, step_view, is_clash, Follows, SettlesAfter, Extends, IsLeast};
ghost use Rattle.js_tableau.specs.Least.{better, least_from};

use crate::members::has_choice;
use crate::walk::{Step, Walk};
use js_algebra::{Core, JsonKind, Signed};
use js_doc::Memory;

impl Walk {
    /// The step at the set, of which the members after the first `from` are new.
    pub fn next_step(&mut self, core: &Core, kind: JsonKind, from: usize) -> Result<Step, Memory>
        requires in_table { are_in_table core.now.positions self.old.trail ≡ true }
        requires clean { is_clean core.now.positions (kind_view kind) (take from self.old.trail) ≡ true }
        requires settled { are_settled core.now.positions (kind_view kind) self.old.trail
            (map signed_view self.old.settled.items) ≡ true }
        requires covered { IsCovered self.old }
        ensures step { IfOk result (λ s. step_view core.now.positions (kind_view kind)
            (set_of self.old.trail) s ≡ next core.now.positions (kind_view kind)
            (set_of self.old.trail)) }
        ensures follows { IfOk result (λ s. Follows core.now.positions (kind_view kind) self.old.trail
            (map signed_view self.new.settled.items) s) }
        ensures trail { OnOk result (self.new.trail ≡ self.old.trail) }
        ensures more { OnOk result (Extends self.old.settled.items self.new.settled.items) }
        ensures covered { OnOk result (IsCovered self.new) }
    {
        if let Some(x) = self.least_clash(from) {
            return Ok(Step::Clash(x));
        }
        if let Some(x) = self.least_wrong(core, kind, from) {
            return Ok(Step::Wrong(x));
        }
        match self.least_unsettled(core, kind)? {
            Some(x) => Ok(Step::Rule(x, choice_count(core, kind, x))),
            None => Ok(Step::Saturated),
        }
    }

    /// The least of the new members whose opposite is a member.
    fn least_clash(&self, from: usize) -> Option<Signed>
        ensures { option_map signed_view result ≡ least_from (is_clash self.now.trail) None
            (drop from self.now.trail) }
    {
        let mut best = None;
        for i in from..self.trail.len() {
            let x = self.trail.at(i);
            best = better(self.trail.has(x.opposite()), best, x);
        }
        best
    }

    /// The least of the new members that is wrong at the kind.
    fn least_wrong(&self, core: &Core, kind: JsonKind, from: usize) -> Option<Signed>
        requires { are_in_table core.now.positions self.now.trail ≡ true }
        ensures { option_map signed_view result ≡ least_from (is_wrong core.now.positions (kind_view kind)) None
            (drop from self.now.trail) }
    {
        let mut best = None;
        for i in from..self.trail.len() {
            let x = self.trail.at(i);
            best = better(core.is_wrong(x, kind), best, x);
        }
        best
    }

    /// The least member without a choice in the set.
    fn least_unsettled(&mut self, core: &Core, kind: JsonKind) -> Result<Option<Signed>, Memory>
        requires in_table { are_in_table core.now.positions self.old.trail ≡ true }
        requires settled { are_settled core.now.positions (kind_view kind) self.old.trail
            (map signed_view self.old.settled.items) ≡ true }
        requires covered { IsCovered self.old }
        ensures least { IfOk result (λ o. IsLeast (λ y.
            not (has_choice self.old.trail (choices core.now.positions (kind_view kind) y)))
            self.old.trail (option_map signed_view o)) }
        ensures settled { IfOk result (λ o. SettlesAfter core.now.positions (kind_view kind) self.old.trail
            (map signed_view self.new.settled.items) (option_map signed_view o)) }
        ensures trail { OnOk result (self.new.trail ≡ self.old.trail) }
        ensures more { OnOk result (Extends self.old.settled.items self.new.settled.items) }
        ensures covered { OnOk result (IsCovered self.new) }
    {
        while let Some(x) = self.waiting.pop() {
            if self.needs_choice(core, kind, x)? {
                return Ok(Some(x));
            }
        }
        Ok(None)
    }

    /// Whether `x` is a member without a choice in the set. A member is noted, as settled from here or from its choice
    /// on.
    fn needs_choice(&mut self, core: &Core, kind: JsonKind, x: Signed) -> Result<bool, Memory>
        requires { are_in_table core.now.positions self.old.trail ≡ true }
        ensures needs { IfOk result (λ b. b ≡ (has (signed_view x) self.old.trail
            && not (has_choice self.old.trail (choices core.now.positions (kind_view kind) (signed_view x))))) }
        ensures settled { OnOk result (self.new.settled.items ≡ cond (has (signed_view x) self.old.trail)
            (self.old.settled.items ++ x ∷ []) self.old.settled.items) }
        ensures trail { OnOk result (self.new.trail ≡ self.old.trail) }
        ensures waiting { OnOk result (self.new.waiting ≡ self.old.waiting) }
    {
        if !self.trail.has(x) {
            return Ok(false);
        }
        self.settled.push(x)?;
        Ok(!has_choice(&self.trail, core, kind, x))
    }
}

/// The lesser of what was found and `x`, where `x` passes.
fn better(passes: bool, best: Option<Signed>, x: Signed) -> Option<Signed>
    ensures { option_map signed_view result ≡ better passes (option_map signed_view best) (signed_view x) }
{
    if !passes {
        return best;
    }
    match best {
        Some(y) if y.order() <= x.order() => Some(y),
        _ => Some(x),
    }
}

fn choice_count(core: &Core, kind: JsonKind, x: Signed) -> u128
    requires { is_in_table core.now.positions (signed_view x) ≡ true }
    ensures { result ≡ length (choice_list (choices core.now.positions (kind_view kind) (signed_view x))) }
{
    core.rule(x, kind).count()
}
