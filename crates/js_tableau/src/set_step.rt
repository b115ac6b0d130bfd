//! The step of a tree at a set.

ghost use Rattle.std.specs.Prelude.{◌≡◌, map, true, not, IfOk, IfSome, option_map};
ghost use Rattle.goals.specs.Signed.{has, opposite, is_rising};
ghost use Rattle.goals.specs.Choices.{choices, is_wrong};
ghost use Rattle.goals.specs.Tree.{next, first, choice_list, has_choice};
ghost use Rattle.js_algebra.specs.View.{signed_view, kind_view, is_in_table, are_in_table};
ghost use Rattle.js_tableau.specs.SetStep.{set_step_view};

use crate::members::{Members, has_choice};
use crate::rising::Rising;
use js_algebra::{Choices, Core, JsonKind, Pos, Signed, rule_choices};
use js_doc::Memory;
use std::alloc::Global;

/// What a tree has at a set.
#[derive(Drop)]
pub enum TableauStep {
    /// An end, closed by a position with both signs.
    Clash(Pos),
    /// An end, closed by a literal that no document of the kind meets.
    Kind(Signed),
    /// A signed position of which no choice is in the set, with its choices; without choices it is a closed end.
    Rule(Signed, Choices),
    /// An end that is a branch.
    Saturated,
}

/// The step of a tree at a set, a strictly rising list by position with plus before minus. It costs of the set its size
/// times a logarithm, with the members of the rules of which a choice is in the set, and the choices of its own rule.
pub fn next_step(
    alloc: Global,
    core: &Core,
    set: &[Signed],
    kind: JsonKind,
) -> Result<TableauStep, Memory>
    requires in_table { are_in_table core.now.positions (map signed_view set.now) ≡ true }
    requires rising { is_rising (map signed_view set.now) ≡ true }
    ensures step { IfOk result (λ s. set_step_view (map signed_view set.now) s
        ≡ next core.now.positions (kind_view kind) (map signed_view set.now)) }
{
    let members = Rising { items: set };
    if let Some(x) = first_clash(&members) {
        return Ok(TableauStep::Clash(x.pos));
    }
    if let Some(x) = first_wrong(core, kind, set) {
        return Ok(TableauStep::Kind(x));
    }
    match first_unsettled(core, kind, &members) {
        Some(x) => Ok(TableauStep::Rule(x, listed(alloc, core, kind, x)?)),
        None => Ok(TableauStep::Saturated),
    }
}

/// The first member whose opposite is a member.
fn first_clash(set: &Rising<'_>) -> Option<Signed>
    requires { is_rising (map signed_view set.now.items.now) ≡ true }
    ensures { option_map signed_view result ≡ first (λ x. has (opposite x) (map signed_view set.now.items.now))
        (map signed_view set.now.items.now) }
{
    for x in set.items {
        if set.has(x.opposite()) {
            return Some(*x);
        }
    }
    None
}

/// The first that is wrong at the kind.
fn first_wrong(core: &Core, kind: JsonKind, set: &[Signed]) -> Option<Signed>
    requires { are_in_table core.now.positions (map signed_view set.now) ≡ true }
    ensures { option_map signed_view result ≡ first (is_wrong core.now.positions (kind_view kind))
        (map signed_view set.now) }
{
    for x in set {
        if core.is_wrong(*x, kind) {
            return Some(*x);
        }
    }
    None
}

/// The first member of which no choice is in the set.
fn first_unsettled(core: &Core, kind: JsonKind, set: &Rising<'_>) -> Option<Signed>
    requires in_table { are_in_table core.now.positions (map signed_view set.now.items.now) ≡ true }
    requires rising { is_rising (map signed_view set.now.items.now) ≡ true }
    ensures first { option_map signed_view result ≡ first (λ x. not (has_choice (map signed_view set.now.items.now)
        (choices core.now.positions (kind_view kind) x))) (map signed_view set.now.items.now) }
    ensures in_table { IfSome result (λ x. is_in_table core.now.positions (signed_view x) ≡ true) }
{
    for x in set.items {
        if !has_choice(set, core, kind, *x) {
            return Some(*x);
        }
    }
    None
}

/// The choices of `x`; a literal has none.
fn listed(alloc: Global, core: &Core, kind: JsonKind, x: Signed) -> Result<Choices, Memory>
    requires { is_in_table core.now.positions (signed_view x) ≡ true }
    ensures { IfOk result (λ cs. cs ≡ choice_list (choices core.now.positions (kind_view kind) (signed_view x))) }
{
    match rule_choices(alloc, core, x, kind)? {
        Some(choices) => Ok(choices),
        None => Ok(Choices::from_vec(Vec::new(alloc))),
    }
}
