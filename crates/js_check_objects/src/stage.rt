//! The stages of what is still to be shown at objects: rows, bounds of cells, and plans.

ghost use Rattle.std.specs.Prelude.{◌≡◌, [], ◌∷◌, map, length, Ok, IfOk};
ghost use Rattle.verdicts.specs.Duties.{ForCells, run, after_row, after_bound, next_bounds, next_rows};
ghost use Rattle.verdicts.specs.Verdict.{cites};
ghost use Rattle.js_algebra.specs.View.{signed_view};
ghost use Rattle.js_lines.specs.View.{line_view};
ghost use Rattle.js_check_rows.specs.RowsView.{count_of, table_of};
ghost use Rattle.js_check_objects.specs.Bounds.{bounds_in};
ghost use Rattle.js_check_objects.specs.OpenView.{rows_duty, bounds_duty, plan_duties_of};
ghost use Rattle.js_check_objects.specs.StageView.{stage_table, stage_duties, Answers};

use crate::open_bounds::OpenBounds;
use crate::open_plan::OpenPlan;
use crate::open_rows::{OpenRows, state_row};
use js_algebra::Goal;
use js_doc::Memory;
use js_lines::CertLine;
use js_rules::{Rule, RuleFault};
use std::alloc::Global;

/// How far the lines at an object are. `Over` is left behind by a line that isn't taken.
#[derive(Drop)]
pub(crate) enum Stage<'a> {
    Rows(OpenRows<'a>),
    Bounds(OpenBounds<'a>),
    Plans(OpenPlan<'a>),
    Over,
}

/// The stage after a line.
pub(crate) fn step<'a>(
    alloc: Global,
    stage: Stage<'a>,
    goals: &[Goal],
    line: &CertLine,
) -> Result<Stage<'a>, RuleFault>
    ensures { Answers (stage_table stage.entry) (run (stage_table stage.entry) (cites goals.now)
        (stage_duties stage.entry) (line_view line.now ∷ [])) result }
{
    match stage {
        Stage::Rows(from) => row_line(alloc, from, goals, line),
        Stage::Bounds(from) => bound_line(alloc, from, goals, line),
        Stage::Plans(from) => plan_line(alloc, from, goals, line),
        Stage::Over => Err(RuleFault::Breaks(Rule::OutOfPlace)),
    }
}

/// The stage after a line where rows are to be stated.
fn row_line<'a>(
    alloc: Global,
    from: OpenRows<'a>,
    goals: &[Goal],
    line: &CertLine,
) -> Result<Stage<'a>, RuleFault>
    ensures { Answers from.entry.core.now.positions (run from.entry.core.now.positions (cites goals.now)
        (rows_duty from.entry ∷ []) (line_view line.now ∷ [])) result }
{
    match line {
        CertLine::Row(targets) => with_row(alloc, from, targets.as_slice()),
        _ => Err(RuleFault::Breaks(Rule::OutOfPlace)),
    }
}

/// The stage after a line where bounds are to be stated.
fn bound_line<'a>(
    alloc: Global,
    from: OpenBounds<'a>,
    goals: &[Goal],
    line: &CertLine,
) -> Result<Stage<'a>, RuleFault>
    ensures { Answers from.entry.core.now.positions (run from.entry.core.now.positions (cites goals.now)
        (bounds_duty from.entry ∷ []) (line_view line.now ∷ [])) result }
{
    match line {
        CertLine::Cap(cell, labels) => with_bound(alloc, from, *cell, labels.as_slice()),
        _ => Err(RuleFault::Breaks(Rule::OutOfPlace)),
    }
}

/// The stage after a line of a plan.
fn plan_line<'a>(
    alloc: Global,
    from: OpenPlan<'a>,
    goals: &[Goal],
    line: &CertLine,
) -> Result<Stage<'a>, RuleFault>
    ensures { Answers from.entry.frame.core.now.positions (run from.entry.frame.core.now.positions (cites goals.now)
        (plan_duties_of from.entry) (line_view line.now ∷ [])) result }
{
    let from = from.take(alloc, goals, line)?;
    Ok(Stage::Plans(from))
}

/// The stage after the targets of the next row.
fn with_row<'a>(
    alloc: Global,
    mut from: OpenRows<'a>,
    targets: &[u32],
) -> Result<Stage<'a>, RuleFault>
    ensures { Answers from.entry.core.now.positions (after_row from.entry.core.now.positions
        (ForCells from.entry.bounds) (map signed_view from.entry.set.items) (count_of from.entry.rows)
        (table_of from.entry.rows) targets.now) result }
{
    state_row(alloc, &mut from.rows, targets)?;
    Ok(after_rows(alloc, from)?)
}

/// The stage where these rows were stated.
fn after_rows<'a>(alloc: Global, from: OpenRows<'a>) -> Result<Stage<'a>, Memory>
    ensures table { IfOk result (λ stage. stage_table stage ≡ from.entry.core.now.positions) }
    ensures next { IfOk result (λ stage. stage_duties stage ≡ next_rows from.entry.core.now.positions
        (ForCells from.entry.bounds) (map signed_view from.entry.set.items) (count_of from.entry.rows)
        (table_of from.entry.rows) ∷ []) }
{
    if !from.rows.is_whole() {
        return Ok(Stage::Rows(from));
    }
    let from = OpenBounds::new(alloc, from)?;
    after_bounds(alloc, from)
}

/// The stage after the bound of a cell.
fn with_bound<'a>(
    alloc: Global,
    from: OpenBounds<'a>,
    cell: u32,
    labels: &[u32],
) -> Result<Stage<'a>, RuleFault>
    ensures { Answers from.entry.core.now.positions (after_bound from.entry.core.now.positions
        (map signed_view from.entry.set.items) (table_of from.entry.rows) from.entry.left
        (bounds_in from.entry.stated.items) (cell, labels.now)) result }
{
    if !from.is_right(alloc, cell, labels)? {
        return Err(RuleFault::Breaks(Rule::WrongBound));
    }
    let from = from.state(alloc, cell, labels)?;
    Ok(after_bounds(alloc, from)?)
}

/// The stage where these bounds were stated.
fn after_bounds<'a>(alloc: Global, from: OpenBounds<'a>) -> Result<Stage<'a>, Memory>
    ensures table { IfOk result (λ stage. stage_table stage ≡ from.entry.core.now.positions) }
    ensures next { IfOk result (λ stage. stage_duties stage ≡ next_bounds from.entry.core.now.positions
        (map signed_view from.entry.set.items) (table_of from.entry.rows) from.entry.left
        (bounds_in from.entry.stated.items) ∷ []) }
{
    if from.left > 0 {
        return Ok(Stage::Bounds(from));
    }
    let from = OpenPlan::new(alloc, from)?;
    Ok(Stage::Plans(from))
}
