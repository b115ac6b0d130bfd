//! The lines of all plans, in pre-order.
//!
//! Plans still to be visited are in a list, the next one last, each as what serves the next demand after the first part
//! of the path.

ghost use Rattle.std.specs.Prelude.{◌≡◌, ◌++◌, ◌∷◌, [], ◌<◌, ◌≤◌, length, map, reverse, take, IfOk, OnOk};
ghost use Rattle.certificate_lines.specs.Line as L;
ghost use Rattle.refutations.specs.PlanTreeLines.{plan_lines};
ghost use Rattle.js_lines.specs.View.{line_view};
ghost use Rattle.js_plans.specs.Choosing.{choices_after};
ghost use Rattle.js_plans.specs.Servers.{cells_of};
ghost use Rattle.js_plan_lines.specs.FormView.{form_view};
ghost use Rattle.js_plan_lines.specs.Reach.{IsPath, AreExtents};
ghost use Rattle.js_plan_lines.specs.Kept.{WasClear};
ghost use Rattle.js_plan_lines.specs.Left.{entry, Visits};

use crate::extent::{extent_of, is_over};
use crate::form::PlanForm;
use crate::lines::{add_at, add_complete};
use crate::placed::first_clash;
use js_doc::Memory;
use js_expansion::Dead;
use js_lines::{CertEnd, CertLine};
use js_plans::{Extent, PlanFrame, Server, add_cell, choices_at};
use std::alloc::Global;

/// A plan to come: the first `level` of the path serve as before, and `server` serves the next demand.
#[derive(Clone, Copy)]
struct Pending {
    level: usize,
    server: Server,
}

/// Adds the lines that show that nothing is arranged by the plans of the frame, where goals with a number have no
/// document. Where a number of what is placed needs more than 32 bits, that is want of memory.
pub fn add_plan_lines<F: PlanFrame, D: Dead>(
    alloc: Global,
    frame: &F,
    form: PlanForm,
    dead: &D,
    lines: &mut Vec<CertLine>,
) -> Result<(), Memory>
    ensures { OnOk result (map line_view lines.new.items ≡ map line_view lines.old.items
        ++ plan_lines (D.number_of dead.now) (form_view form) (F.table frame.now) (F.frame frame.now)) }
{
    let mut path = Vec::new(alloc);
    let mut extents = Vec::new(alloc);
    let mut members = Vec::new(alloc);
    let mut pending = Vec::new(alloc);
    visit(
        alloc,
        frame,
        form,
        dead,
        path.as_slice(),
        extents.as_slice(),
        members.as_slice(),
        &mut pending,
        lines,
    )?;
    while let Some(next) = pending.pop() {
        go_to(next, &mut path, &mut extents, &mut members)?;
        visit(
            alloc,
            frame,
            form,
            dead,
            path.as_slice(),
            extents.as_slice(),
            members.as_slice(),
            &mut pending,
            lines,
        )?;
    }
    Ok(())
}

/// The path to a plan to come, how far the plans along it reach, and the cells of its members.
fn go_to(
    next: Pending,
    path: &mut Vec<Server>,
    extents: &mut Vec<Extent>,
    members: &mut Vec<u32>,
) -> Result<(), Memory>
    requires level { next.level ≤ length path.old.items }
    requires extents { AreExtents [] path.old.items extents.old.items }
    requires members { members.old.items ≡ cells_of path.old.items }
    ensures path { OnOk result (path.new.items ≡ take next.level path.old.items ++ next.server ∷ []) }
    ensures extents { OnOk result (AreExtents [] path.new.items extents.new.items) }
    ensures members { OnOk result (members.new.items ≡ cells_of path.new.items) }
{
    path.truncate(next.level);
    extents.truncate(next.level);
    let before = extent_of(path.as_slice(), extents.as_slice());
    members.truncate(before.members);
    path.push(next.server)?;
    extents.push(before.with(next.server))?;
    add_cell(members, next.server)?;
    Ok(())
}

/// Adds the line of the plan of the path. Its options are still to be visited.
fn visit<F: PlanFrame, D: Dead>(
    alloc: Global,
    frame: &F,
    form: PlanForm,
    dead: &D,
    path: &[Server],
    extents: &[Extent],
    members: &[u32],
    pending: &mut Vec<Pending>,
    lines: &mut Vec<CertLine>,
) -> Result<(), Memory>
    requires extents { AreExtents [] path.now extents.now }
    requires members { members.now ≡ cells_of path.now }
    requires path { IsPath (F.frame frame.now) path.now }
    requires clear { WasClear (F.table frame.now) (F.frame frame.now) path.now }
    ensures { OnOk result (Visits (D.number_of dead.now) (form_view form) (F.table frame.now) (F.frame frame.now)
        path.now pending.old.items pending.new.items (map line_view lines.old.items)
        (map line_view lines.new.items)) }
{
    if is_over(frame, path, extents) {
        lines.push(CertLine::Count)?;
        return Ok(());
    }
    if let Some(number) = first_clash(alloc, frame, path, extents)? {
        return add_at(frame, form, path, extents, number, CertEnd::Clash, lines);
    }
    if path.len() < frame.demands().len() {
        return split(alloc, frame, path, members, pending, lines);
    }
    add_complete(alloc, frame, form, dead, path, extents, members, lines)
}

/// Adds the line of a plan that is split into its options, which are still to be visited.
fn split<F: PlanFrame>(
    alloc: Global,
    frame: &F,
    path: &[Server],
    members: &[u32],
    pending: &mut Vec<Pending>,
    lines: &mut Vec<CertLine>,
) -> Result<(), Memory>
    requires left { length path.now < length (F.frame frame.now).demands }
    requires members { members.now ≡ cells_of path.now }
    ensures pending { OnOk result (reverse pending.new.items
        ≡ map (entry (length path.now)) (choices_after (F.frame frame.now) path.now) ++ reverse pending.old.items) }
    ensures lines { OnOk result (map line_view lines.new.items ≡ map line_view lines.old.items ++ L.Split ∷ []) }
{
    let options = options(alloc, frame, path, members)?;
    add_pending(path.len(), options, pending)?;
    lines.push(CertLine::Split)?;
    Ok(())
}

/// What may serve the next demand after the path, whose members stand in these cells.
fn options<F: PlanFrame>(
    alloc: Global,
    frame: &F,
    path: &[Server],
    members: &[u32],
) -> Result<Vec<Server>, Memory>
    requires left { length path.now < length (F.frame frame.now).demands }
    requires members { members.now ≡ cells_of path.now }
    ensures { IfOk result (λ v. v.items ≡ choices_after (F.frame frame.now) path.now) }
{
    choices_at(alloc, frame, path.len(), members)
}

/// Adds plans to come, the first one next.
fn add_pending(level: usize, servers: Vec<Server>, pending: &mut Vec<Pending>) -> Result<(), Memory>
    ensures { OnOk result (reverse pending.new.items ≡ map (entry level) servers.items ++ reverse pending.old.items) }
{
    let mut servers = servers;
    while let Some(server) = servers.pop() {
        pending.push(Pending { level, server })?;
    }
    Ok(())
}
