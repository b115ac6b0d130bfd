//! Lines of one plan.

ghost use Rattle.std.specs.Prelude.{◌≡◌, ◌++◌, ◌∷◌, [], map, OnOk, IfOk, ◌≤◌, length};
ghost use Rattle.certificate_lines.specs.Line as L;
ghost use Rattle.refutations.specs.PlanTreeLines.{at_line, entry_at, kept_unless, complete_line};
ghost use Rattle.js_lines.specs.View.{line_view, end_view, entry_view};
ghost use Rattle.js_plans.specs.Servers.{cells_of};
ghost use Rattle.js_plans.specs.Serving.{plan_after};
ghost use Rattle.js_plan_lines.specs.FormView.{form_view};
ghost use Rattle.js_plan_lines.specs.Reach.{IsPath, AreExtents};
ghost use Rattle.js_plan_lines.specs.Cited.{entry_in};

use crate::extent::Placed;
use crate::form::PlanForm;
use crate::placed::{first_cited, goal_of};
use js_doc::Memory;
use js_expansion::Dead;
use js_lines::{CertEnd, CertLine, ShortEntry, ShortEntryList};
use js_plans::{Extent, Place, PlanFrame, Server, count};
use std::alloc::Global;

/// The number, where a line can have it.
fn narrow(number: u64) -> Result<u32, Memory>
    ensures { IfOk result (λ n. n ≡ number) }
{
    match u32::try_from(number) {
        Ok(number) => Ok(number),
        Err(_) => Err(Memory),
    }
}

fn add_member(number: u64, end: CertEnd, lines: &mut Vec<CertLine>) -> Result<(), Memory>
    ensures { OnOk result (map line_view lines.new.items
        ≡ map line_view lines.old.items ++ L.OfMember number (end_view end) ∷ []) }
{
    let number = narrow(number)?;
    lines.push(CertLine::Member(number, end))?;
    Ok(())
}

fn add_index(number: u64, end: CertEnd, lines: &mut Vec<CertLine>) -> Result<(), Memory>
    ensures { OnOk result (map line_view lines.new.items
        ≡ map line_view lines.old.items ++ L.OfIndex number (end_view end) ∷ []) }
{
    let number = narrow(number)?;
    lines.push(CertLine::Index(number, end))?;
    Ok(())
}

fn add_tail(number: u64, end: CertEnd, lines: &mut Vec<CertLine>) -> Result<(), Memory>
    ensures { OnOk result (map line_view lines.new.items
        ≡ map line_view lines.old.items ++ L.OfTail number (end_view end) ∷ []) }
{
    let number = narrow(number)?;
    lines.push(CertLine::Tail(number, end))?;
    Ok(())
}

/// Adds the line that names what is placed, by its number.
pub(crate) fn add_at<F: PlanFrame>(
    frame: &F,
    form: PlanForm,
    path: &[Server],
    extents: &[Extent],
    number: u64,
    end: CertEnd,
    lines: &mut Vec<CertLine>,
) -> Result<(), Memory>
    requires path { IsPath (F.frame frame.now) path.now }
    requires extents { AreExtents [] path.now extents.now }
    ensures { OnOk result (map line_view lines.new.items ≡ map line_view lines.old.items
        ++ at_line (form_view form) (F.frame frame.now) (plan_after (F.frame frame.now) path.now) number
        (end_view end) ∷ []) }
{
    match form {
        PlanForm::OfObjects => add_member(number, end, lines),
        PlanForm::OfArrays => {
            let heads = Placed::of(frame, path, extents).heads;
            if number < heads {
                add_index(number, end, lines)
            } else {
                add_tail(number - heads, end, lines)
            }
        }
    }
}

fn kept_unless(number: Option<u32>) -> ShortEntry
    ensures { entry_view result ≡ kept_unless (λ g. number) number }
{
    match number {
        Some(number) => ShortEntry::Goal(number),
        None => ShortEntry::Kept,
    }
}

/// The entry of a cell with such members.
fn entry<F: PlanFrame, D: Dead>(
    alloc: Global,
    frame: &F,
    dead: &D,
    members: &[u32],
    cell: u32,
) -> Result<ShortEntry, Memory>
    ensures { IfOk result (λ e. entry_view e ≡ entry_in (D.number_of dead.now) (F.table frame.now) (F.frame frame.now)
        members.now cell) }
{
    if frame.room(cell, count(members, cell)) == 0 {
        return Ok(ShortEntry::Kept);
    }
    match goal_of(alloc, frame, Place::In(cell), &[])? {
        Some(goal) => Ok(kept_unless(dead.number(&goal))),
        None => Ok(ShortEntry::Clash),
    }
}

fn entries<F: PlanFrame, D: Dead>(
    alloc: Global,
    frame: &F,
    dead: &D,
    members: &[u32],
) -> Result<Vec<ShortEntry>, Memory>
    ensures { IfOk result (λ v. map entry_view v.items ≡ map (entry_in (D.number_of dead.now) (F.table frame.now)
        (F.frame frame.now) members.now) (F.frame frame.now).cells) }
{
    let mut entries = Vec::new(alloc);
    for cell in frame.cells() {
        entries.push(entry(alloc, frame, dead, members, *cell)?)?;
    }
    Ok(entries)
}

/// Adds the line that says which fillers a plan may have.
fn add_short<F: PlanFrame, D: Dead>(
    alloc: Global,
    frame: &F,
    dead: &D,
    path: &[Server],
    members: &[u32],
    lines: &mut Vec<CertLine>,
) -> Result<(), Memory>
    requires few { length path.now ≤ length (F.frame frame.now).demands }
    requires members { members.now ≡ cells_of path.now }
    ensures { OnOk result (map line_view lines.new.items ≡ map line_view lines.old.items
        ++ L.Short (map (entry_at (D.number_of dead.now) (F.table frame.now) (F.frame frame.now)
        (plan_after (F.frame frame.now) path.now)) (F.frame frame.now).cells) ∷ []) }
{
    let entries = entries(alloc, frame, dead, members)?;
    lines.push(CertLine::Short(ShortEntryList::from_vec(entries)))?;
    Ok(())
}

/// Adds the line of a complete plan.
pub(crate) fn add_complete<F: PlanFrame, D: Dead>(
    alloc: Global,
    frame: &F,
    form: PlanForm,
    dead: &D,
    path: &[Server],
    extents: &[Extent],
    members: &[u32],
    lines: &mut Vec<CertLine>,
) -> Result<(), Memory>
    requires path { IsPath (F.frame frame.now) path.now }
    requires extents { AreExtents [] path.now extents.now }
    requires members { members.now ≡ cells_of path.now }
    ensures { OnOk result (map line_view lines.new.items ≡ map line_view lines.old.items
        ++ complete_line (D.number_of dead.now) (form_view form) (F.table frame.now) (F.frame frame.now)
        (plan_after (F.frame frame.now) path.now) ∷ []) }
{
    match first_cited(alloc, frame, dead, path, extents)? {
        Some((number, cited)) => {
            let end = CertEnd::Goal(cited);
            add_at(frame, form, path, extents, number, end, lines)
        }
        None => add_short(alloc, frame, dead, path, members, lines),
    }
}
