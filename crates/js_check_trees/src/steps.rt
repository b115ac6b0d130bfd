//! What each line does to a set of signed positions at a kind.

ghost use Rattle.std.specs.Prelude.{◌≡◌, ◌&&◌, List, true, false, IfOk, is_none};
ghost use Rattle.documents.specs.Kind.{Kind};
ghost use Rattle.positions.specs.Position.{Position};
ghost use Rattle.goals.specs.Signed as G;
ghost use Rattle.goals.specs.Signed.{has};
ghost use Rattle.goals.specs.Choices.{choices, is_wrong};
ghost use Rattle.certificate_lines.specs.Line as L;
ghost use Rattle.verdicts.specs.Duties.{after_set, by_bounds};
ghost use Rattle.js_algebra.specs.View.{signed_view, kind_view, is_in_table, are_in_table};
ghost use Rattle.js_algebra.specs.SignedSets.{set_of};
ghost use Rattle.js_lines.specs.View.{line_view};
ghost use Rattle.js_check_trees.specs.Told.{told, splits_in_table};
ghost use Rattle.js_check_trees.specs.Taking.{begins_leaf};

use crate::scalars::{has_no_number, has_no_truth};
use crate::step::{Step, end_where};
use js_algebra::{Core, JsonKind, Pos, Signed, SignedSet};
use js_bounds::crossed;
use js_doc::Memory;
use js_lines::CertLine;
use js_rules::Rule;
use std::alloc::Global;

/// What a line that doesn't begin a leaf of the kind does to the set.
pub(crate) fn step(
    alloc: Global,
    core: &Core,
    kind: JsonKind,
    set: &SignedSet,
    line: &CertLine,
) -> Result<Step, Memory>
    requires in_table { are_in_table core.now.positions set.now ≡ true }
    requires leaf { begins_leaf (kind_view kind) (line_view line.now) ≡ false }
    ensures told { IfOk result (λ s. after_set core.now.positions (kind_view kind) (set_of set.now) (line_view line.now)
        ≡ told core.now.positions (kind_view kind) (set_of set.now) s) }
    ensures splits { IfOk result (λ s. splits_in_table core.now.positions s ≡ true) }
{
    match line {
        CertLine::Rule(x) => Ok(rule_step(core, kind, set, *x)),
        CertLine::Clash(p) => Ok(clash_step(set, *p)),
        CertLine::Kind(x) => Ok(kind_step(core, kind, set, *x)),
        CertLine::Count => count_step(alloc, core, kind, set),
        CertLine::Bool => truth_step(alloc, core, kind, set),
        CertLine::Number => number_step(alloc, core, kind, set),
        CertLine::Strings(_) => Ok(Step::Breaks(Rule::OtherLeaf)),
        CertLine::Array => Ok(Step::Breaks(Rule::OtherLeaf)),
        CertLine::Object(_, _) => Ok(Step::Breaks(Rule::OtherLeaf)),
        _ => Ok(Step::Breaks(Rule::OutOfPlace)),
    }
}

fn rule_step(core: &Core, kind: JsonKind, set: &SignedSet, x: Signed) -> Step
    requires in_table { are_in_table core.now.positions set.now ≡ true }
    ensures told { after_set core.now.positions (kind_view kind) (set_of set.now) (L.Rule (signed_view x))
        ≡ told core.now.positions (kind_view kind) (set_of set.now) result }
    ensures splits { splits_in_table core.now.positions result ≡ true }
{
    if !set.has(x) {
        return Step::Breaks(Rule::NoChoices);
    }
    if is_literal(core, kind, x) {
        return Step::Breaks(Rule::NoChoices);
    }
    Step::Splits(x)
}

fn is_literal(core: &Core, kind: JsonKind, x: Signed) -> bool
    requires { is_in_table core.now.positions (signed_view x) ≡ true }
    ensures { result ≡ is_none (choices core.now.positions (kind_view kind) (signed_view x)) }
{
    core.rule(x, kind).is_literal()
}

fn clash_step(set: &SignedSet, p: Pos) -> Step
    ensures told { (T : List Position) (t : Kind) → after_set T t (set_of set.now) (L.Clash p.0)
        ≡ told T t (set_of set.now) result }
    ensures splits { (T : List Position) → splits_in_table T result ≡ true }
{
    end_where(has_both(set, p), Rule::NoClash)
}

fn has_both(set: &SignedSet, p: Pos) -> bool
    ensures { result ≡ (has (G.Plus p.0) set.now && has (G.Minus p.0) set.now) }
{
    set.has(Signed::plus(p)) && set.has(Signed::minus(p))
}

fn kind_step(core: &Core, kind: JsonKind, set: &SignedSet, x: Signed) -> Step
    requires in_table { are_in_table core.now.positions set.now ≡ true }
    ensures told { after_set core.now.positions (kind_view kind) (set_of set.now) (L.OfKind (signed_view x))
        ≡ told core.now.positions (kind_view kind) (set_of set.now) result }
    ensures splits { splits_in_table core.now.positions result ≡ true }
{
    end_where(has_wrong(core, kind, set, x), Rule::NotWrong)
}

fn has_wrong(core: &Core, kind: JsonKind, set: &SignedSet, x: Signed) -> bool
    requires { are_in_table core.now.positions set.now ≡ true }
    ensures { result ≡ (has (signed_view x) set.now && is_wrong core.now.positions (kind_view kind) (signed_view x)) }
{
    set.has(x) && core.is_wrong(x, kind)
}

fn count_step(alloc: Global, core: &Core, kind: JsonKind, set: &SignedSet) -> Result<Step, Memory>
    requires in_table { are_in_table core.now.positions set.now ≡ true }
    ensures told { IfOk result (λ s. after_set core.now.positions (kind_view kind) (set_of set.now) L.Count
        ≡ told core.now.positions (kind_view kind) (set_of set.now) s) }
    ensures splits { IfOk result (λ s. splits_in_table core.now.positions s ≡ true) }
{
    let members = set.to_list(alloc)?;
    Ok(bounds_step(crossed(core, kind, members.as_slice())))
}

fn bounds_step(crossed: Option<bool>) -> Step
    ensures told { (T : List Position) (t : Kind) (S : List G.Signed) → told T t S result ≡ by_bounds crossed }
    ensures splits { (T : List Position) → splits_in_table T result ≡ true }
{
    match crossed {
        None => Step::Breaks(Rule::OtherLeaf),
        Some(crossed) => end_where(crossed, Rule::BoundsMeet),
    }
}

fn truth_step(alloc: Global, core: &Core, kind: JsonKind, set: &SignedSet) -> Result<Step, Memory>
    requires in_table { are_in_table core.now.positions set.now ≡ true }
    ensures told { IfOk result (λ s. after_set core.now.positions (kind_view kind) (set_of set.now) L.NoTruth
        ≡ told core.now.positions (kind_view kind) (set_of set.now) s) }
    ensures splits { IfOk result (λ s. splits_in_table core.now.positions s ≡ true) }
{
    if kind != JsonKind::Boolean {
        return Ok(Step::Breaks(Rule::OtherLeaf));
    }
    let members = set.to_list(alloc)?;
    Ok(end_where(has_no_truth(alloc, core, members)?, Rule::TruthLeft))
}

fn number_step(alloc: Global, core: &Core, kind: JsonKind, set: &SignedSet) -> Result<Step, Memory>
    requires in_table { are_in_table core.now.positions set.now ≡ true }
    ensures told { IfOk result (λ s. after_set core.now.positions (kind_view kind) (set_of set.now) L.NoNumber
        ≡ told core.now.positions (kind_view kind) (set_of set.now) s) }
    ensures splits { IfOk result (λ s. splits_in_table core.now.positions s ≡ true) }
{
    if kind != JsonKind::Number {
        return Ok(Step::Breaks(Rule::OtherLeaf));
    }
    let members = set.to_list(alloc)?;
    Ok(end_where(has_no_number(alloc, core, members)?, Rule::NumberLeft))
}
