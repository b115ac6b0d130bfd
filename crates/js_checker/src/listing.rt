//! The goals that a certificate lists.

ghost use Rattle.std.specs.Prelude.{◌≡◌, map, true, Some, Ok, IfOk, IfErr, OnOk};
ghost use Rattle.verdicts.specs.Rules.{no_goal};
ghost use Rattle.verdicts.specs.RowLines.{if_so};
ghost use Rattle.verdicts.specs.Verdict.{is_goal, same_goal, root_is_listed};
ghost use Rattle.js_algebra.specs.View.{signed_view, are_in_table};
ghost use Rattle.js_rules.specs.Told.{Breaks};

use js_algebra::{Core, Goal, Signed, contains, form};
use js_rules::{Rule, RuleFault};
use std::alloc::Global;

/// Whether the root clashes, or contains a listed goal.
pub(crate) fn root_is_listed(root: &Option<Goal>, goals: &[Goal]) -> bool
    ensures { result ≡ root_is_listed root.now goals.now }
{
    let Some(root) = root else {
        return true;
    };
    for goal in goals {
        if contains(root, goal) {
            return true;
        }
    }
    false
}

/// The goal of a list that is its own goal.
pub(crate) fn goal_of(alloc: Global, core: &Core, list: &[Signed]) -> Result<Goal, RuleFault>
    ensures taken { IfOk result (λ goal. if_so no_goal (is_goal core.now.positions (map signed_view list.now))
        (map signed_view list.now) ≡ Ok goal) }
    ensures broken { IfErr result (Breaks (if_so no_goal (is_goal core.now.positions (map signed_view list.now))
        (map signed_view list.now))) }
    ensures in_table { IfOk result (λ goal. are_in_table core.now.positions goal ≡ true) }
{
    if !are_in_table(core, list) {
        return Err(RuleFault::Breaks(Rule::NoGoal));
    }
    let Some(goal) = form(alloc, core, list)? else {
        return Err(RuleFault::Breaks(Rule::NoGoal));
    };
    if !same(list, goal.as_slice()) {
        return Err(RuleFault::Breaks(Rule::NoGoal));
    }
    Ok(goal)
}

fn same(list: &[Signed], goal: &[Signed]) -> bool
    ensures { result ≡ same_goal (map signed_view list.now) (Some (map signed_view goal.now)) }
{
    list == goal
}

fn are_in_table(core: &Core, list: &[Signed]) -> bool
    ensures { result ≡ are_in_table core.now.positions (map signed_view list.now) }
{
    for x in list {
        if x.pos.0 >= core.len() {
            return false;
        }
    }
    true
}
