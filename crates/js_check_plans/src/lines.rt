//! Lines that end the plan at hand.

ghost use Rattle.std.specs.Prelude.{◌≡◌, [], Ok, Err, map, false, OnOk, IfErr};
ghost use Rattle.certificate_lines.specs.Line as L;
ghost use Rattle.frames.specs.Frame.{is_at_end};
ghost use Rattle.frames.specs.Plan.{size};
ghost use Rattle.js_plans.specs.Serving.{plan_after};
ghost use Rattle.js_rules.specs.Told.{Breaks};
ghost use Rattle.js_lines.specs.View.{line_view, end_view, entry_view};
ghost use Rattle.js_check_plans.specs.FormView.{form_view};
ghost use Rattle.js_check_plans.specs.Reach.{IsPath};
ghost use Rattle.js_check_plans.specs.OpenDuties.{after_line, after_at, is_split};

use crate::check_frame::CheckFrame;
use crate::extent::{heads_placed, is_at_end, size};
use crate::form::PlanForm;
use crate::path::Path;
use crate::placed::is_refuted_at;
use crate::rooms::falls_short;
use js_algebra::Goal;
use js_lines::{CertEnd, CertLine, ShortEntry};
use js_rules::{Rule, RuleFault};
use std::alloc::Global;

pub(crate) fn is_split(line: &CertLine) -> bool
    ensures { result ≡ is_split (line_view line.now) }
{
    match line {
        CertLine::Split => true,
        _ => false,
    }
}

/// Whether the plan has too many.
fn is_over<F: CheckFrame>(frame: &F, path: &Path) -> bool
    requires { IsPath (F.frame frame.now) path.now.servers.items }
    ensures { result ≡ is_at_end (size (F.frame frame.now) (plan_after (F.frame frame.now) path.now.servers.items))
        (F.frame frame.now).below }
{
    is_at_end(size(frame, path.extent()), frame.below())
}

/// The plan has too many.
fn over<F: CheckFrame>(
    form: PlanForm,
    frame: &F,
    path: &Path,
    goals: &[Goal],
) -> Result<(), RuleFault>
    requires { IsPath (F.frame frame.now) path.now.servers.items }
    ensures ended { OnOk result (after_line (F.table frame.now) goals.now (form_view form) (F.frame frame.now)
        path.now.servers.items L.Count ≡ Ok []) }
    ensures broken { IfErr result (λ fault. Breaks (after_line (F.table frame.now) goals.now (form_view form)
        (F.frame frame.now) path.now.servers.items L.Count) fault) }
{
    if is_over(frame, path) {
        Ok(())
    } else {
        Err(RuleFault::Breaks(Rule::PlanLeft))
    }
}

/// What is placed by that number is refuted.
fn refuted<F: CheckFrame>(
    alloc: Global,
    frame: &F,
    path: &Path,
    goals: &[Goal],
    number: u64,
    end: CertEnd,
) -> Result<(), RuleFault>
    requires { IsPath (F.frame frame.now) path.now.servers.items }
    ensures ended { OnOk result (after_at (F.table frame.now) goals.now (F.frame frame.now) path.now.servers.items
        number (end_view end) ≡ Ok []) }
    ensures broken { IfErr result (λ fault. Breaks (after_at (F.table frame.now) goals.now (F.frame frame.now)
        path.now.servers.items number (end_view end)) fault) }
{
    if is_refuted_at(alloc, frame, path, goals, number, end)? {
        Ok(())
    } else {
        Err(RuleFault::Breaks(Rule::NotRefuted))
    }
}

/// The member of that number is refuted.
fn member<F: CheckFrame>(
    alloc: Global,
    form: PlanForm,
    frame: &F,
    path: &Path,
    goals: &[Goal],
    number: u32,
    end: CertEnd,
) -> Result<(), RuleFault>
    requires { IsPath (F.frame frame.now) path.now.servers.items }
    ensures ended { OnOk result (after_line (F.table frame.now) goals.now (form_view form) (F.frame frame.now)
        path.now.servers.items (L.OfMember number (end_view end)) ≡ Ok []) }
    ensures broken { IfErr result (λ fault. Breaks (after_line (F.table frame.now) goals.now (form_view form)
        (F.frame frame.now) path.now.servers.items (L.OfMember number (end_view end))) fault) }
{
    match form {
        PlanForm::OfObjects => refuted(alloc, frame, path, goals, u64::from(number), end),
        PlanForm::OfArrays => Err(RuleFault::Breaks(Rule::OutOfPlace)),
    }
}

/// The element at that first place is refuted.
fn index<F: CheckFrame>(
    alloc: Global,
    form: PlanForm,
    frame: &F,
    path: &Path,
    goals: &[Goal],
    number: u32,
    end: CertEnd,
) -> Result<(), RuleFault>
    requires { IsPath (F.frame frame.now) path.now.servers.items }
    ensures ended { OnOk result (after_line (F.table frame.now) goals.now (form_view form) (F.frame frame.now)
        path.now.servers.items (L.OfIndex number (end_view end)) ≡ Ok []) }
    ensures broken { IfErr result (λ fault. Breaks (after_line (F.table frame.now) goals.now (form_view form)
        (F.frame frame.now) path.now.servers.items (L.OfIndex number (end_view end))) fault) }
{
    match form {
        PlanForm::OfArrays => {
            if u64::from(number) < heads_placed(frame, path.extent()) {
                refuted(alloc, frame, path, goals, u64::from(number), end)
            } else {
                Err(RuleFault::Breaks(Rule::NotRefuted))
            }
        }
        PlanForm::OfObjects => Err(RuleFault::Breaks(Rule::OutOfPlace)),
    }
}

/// The element of that number behind the first places is refuted.
fn tail<F: CheckFrame>(
    alloc: Global,
    form: PlanForm,
    frame: &F,
    path: &Path,
    goals: &[Goal],
    number: u32,
    end: CertEnd,
) -> Result<(), RuleFault>
    requires { IsPath (F.frame frame.now) path.now.servers.items }
    ensures ended { OnOk result (after_line (F.table frame.now) goals.now (form_view form) (F.frame frame.now)
        path.now.servers.items (L.OfTail number (end_view end)) ≡ Ok []) }
    ensures broken { IfErr result (λ fault. Breaks (after_line (F.table frame.now) goals.now (form_view form)
        (F.frame frame.now) path.now.servers.items (L.OfTail number (end_view end))) fault) }
{
    match form {
        PlanForm::OfArrays => {
            let heads = heads_placed(frame, path.extent());
            refuted(alloc, frame, path, goals, heads + u64::from(number), end)
        }
        PlanForm::OfObjects => Err(RuleFault::Breaks(Rule::OutOfPlace)),
    }
}

/// No demand is left, and the fillers have too little room.
fn short<F: CheckFrame>(
    alloc: Global,
    form: PlanForm,
    frame: &F,
    path: &Path,
    goals: &[Goal],
    entries: &[ShortEntry],
) -> Result<(), RuleFault>
    requires { IsPath (F.frame frame.now) path.now.servers.items }
    ensures ended { OnOk result (after_line (F.table frame.now) goals.now (form_view form) (F.frame frame.now)
        path.now.servers.items (L.Short (map entry_view entries.now)) ≡ Ok []) }
    ensures broken { IfErr result (λ fault. Breaks (after_line (F.table frame.now) goals.now (form_view form)
        (F.frame frame.now) path.now.servers.items (L.Short (map entry_view entries.now))) fault) }
{
    if path.len() < frame.demands().len() {
        return Err(RuleFault::Breaks(Rule::PlanLeft));
    }
    if falls_short(alloc, frame, path, goals, entries)? {
        Ok(())
    } else {
        Err(RuleFault::Breaks(Rule::PlanLeft))
    }
}

/// The line, which isn't a split, ends the plan of the path.
pub(crate) fn ends<F: CheckFrame>(
    alloc: Global,
    form: PlanForm,
    frame: &F,
    path: &Path,
    goals: &[Goal],
    line: &CertLine,
) -> Result<(), RuleFault>
    requires path { IsPath (F.frame frame.now) path.now.servers.items }
    requires other { is_split (line_view line.now) ≡ false }
    ensures ended { OnOk result (after_line (F.table frame.now) goals.now (form_view form) (F.frame frame.now)
        path.now.servers.items (line_view line.now) ≡ Ok []) }
    ensures broken { IfErr result (λ fault. Breaks (after_line (F.table frame.now) goals.now (form_view form)
        (F.frame frame.now) path.now.servers.items (line_view line.now)) fault) }
{
    match line {
        CertLine::Count => over(form, frame, path, goals),
        CertLine::Member(number, end) => member(alloc, form, frame, path, goals, *number, *end),
        CertLine::Index(number, end) => index(alloc, form, frame, path, goals, *number, *end),
        CertLine::Tail(number, end) => tail(alloc, form, frame, path, goals, *number, *end),
        CertLine::Short(entries) => short(alloc, form, frame, path, goals, entries.as_slice()),
        _ => Err(RuleFault::Breaks(Rule::OutOfPlace)),
    }
}
