//! The line of a limit.

ghost use Rattle.std.specs.Prelude.{◌≡◌, ◌++◌, map, string_bytes, IfOk, OnOk};
ghost use Rattle.certificate_lines.specs.Text.{signed_text, list_text};
ghost use Rattle.js_algebra.specs.View.{signed_view};
ghost use Rattle.js_expansion.specs.View.{limit_view};
ghost use Rattle.js_top.specs.Report as R;

use js_algebra::{Goal, Signed};
use js_doc::Memory;
use js_expansion::LimitKind;
use std::alloc::Global;

/// The line of a limit, with the goal that passes it.
pub(crate) fn limit_line(
    alloc: Global,
    kind: LimitKind,
    goal: &Option<Goal>,
) -> Result<String, Memory>
    ensures { IfOk result (λ s. string_bytes s ≡ R.limit_line (limit_view kind) goal.now) }
{
    let mut text = String::from_str(alloc, "limit ")?;
    text.push_str(limit_word(kind))?;
    append_goal(&mut text, goal)?;
    text.push_str("\n")?;
    Ok(text)
}

fn append_goal(text: &mut String, goal: &Option<Goal>) -> Result<(), Memory>
    ensures { OnOk result (string_bytes text.new ≡ string_bytes text.old ++ R.goal_text goal.now) }
{
    match goal {
        Some(goal) => append_list(text, goal.as_slice()),
        None => Ok(()),
    }
}

/// Signed positions, each after a blank.
fn append_list(text: &mut String, list: &[Signed]) -> Result<(), Memory>
    ensures { OnOk result
        (string_bytes text.new ≡ string_bytes text.old ++ list_text signed_text (map signed_view list.now)) }
{
    for x in list {
        text.push(' ')?;
        append_signed(text, *x)?;
    }
    Ok(())
}

fn append_signed(text: &mut String, x: Signed) -> Result<(), Memory>
    ensures { OnOk result (string_bytes text.new ≡ string_bytes text.old ++ signed_text (signed_view x)) }
{
    let place = x.pos.0;
    if x.plus {
        write!(text, "+{place}")?;
    } else {
        write!(text, "-{place}")?;
    }
    Ok(())
}

fn limit_word(kind: LimitKind) -> &'static str
    ensures { result.now ≡ R.limit_word (limit_view kind) }
{
    match kind {
        LimitKind::Branches => "branches",
        LimitKind::Positions => "positions",
        LimitKind::Classes => "classes",
        LimitKind::States => "states",
        LimitKind::Counts => "counts",
        LimitKind::Multiples => "multiples",
        LimitKind::Candidates => "candidates",
        LimitKind::Plans => "plans",
        LimitKind::Width => "width",
        LimitKind::Places => "places",
        LimitKind::Goals => "goals",
        LimitKind::Total => "total",
    }
}
