//! The plans that are still to be shown empty, in the order in which lines come to them.
//!
//! Plans to come are in a list, the next ones last: those with the choices that are left of a demand are one entry,
//! after the first part of the path. So plans share what they have in common, and a split adds the same however many
//! options there are.

ghost use Rattle.std.specs.Prelude.{◌≡◌, List, [], ◌∷◌, Ok, Err, true, IfErr, OnOk};
ghost use Rattle.goals.specs.Signed as G;
ghost use Rattle.certificate_lines.specs.Line as L;
ghost use Rattle.frames.specs.Frame.{Frame};
ghost use Rattle.frames.specs.ArrayFrame.{is_empty};
ghost use Rattle.verdicts.specs.Duties.{Form, plan_duty, run};
ghost use Rattle.verdicts.specs.Verdict.{cites};
ghost use Rattle.js_rules.specs.Told.{Breaks};
ghost use Rattle.js_lines.specs.View.{line_view};
ghost use Rattle.js_check_plans.specs.FormView.{form_view};
ghost use Rattle.js_check_plans.specs.OpenDuties.{IsOpen, duties, others};

use crate::check_frame::CheckFrame;
use crate::choices::{Slot, first_choice};
use crate::form::PlanForm;
use crate::lines::{ends, is_split};
use crate::path::Path;
use js_algebra::Goal;
use js_doc::Memory;
use js_lines::CertLine;
use js_rules::{Rule, RuleFault};
use std::alloc::Global;
use std::mem;

/// Plans to come: the first `level` of the path serve as before, and each choice from `next` on serves the demand after
/// them.
#[derive(Clone, Copy)]
struct Pending {
    level: usize,
    next: Slot,
}

/// The plans of a frame that are still to be shown empty; `duties` is what contracts see of them. All calls are to be
/// given the same frame.
#[derive(Drop)]
pub struct OpenPlans {
    /// What serves each demand so far, in the plan at hand.
    path: Path,
    pending: Vec<Pending>,
    has_plan: bool,
}

impl OpenPlans {
    /// The plan that serves nothing, of whatever frame is given.
    pub fn new(alloc: Global) -> OpenPlans
        ensures plans { (frame : Frame) → IsOpen frame result }
        ensures duties { (form : Form) (frame : Frame) → duties form frame result ≡ plan_duty form frame ∷ [] }
    {
        OpenPlans {
            path: Path::new(alloc),
            pending: Vec::new(alloc),
            has_plan: true,
        }
    }

    /// Whether no plan is left.
    pub fn is_done(&self) -> bool
        ensures { (form : Form) (frame : Frame) → result ≡ is_empty (duties form frame self.now) }
    {
        !self.has_plan
    }

    /// The plans that the line leaves, or the rule that it breaks; then the plans are of no more use.
    pub fn take<F: CheckFrame>(
        &mut self,
        alloc: Global,
        form: PlanForm,
        frame: &F,
        goals: &[Goal],
        line: &CertLine,
    ) -> Result<(), RuleFault>
        requires { IsOpen (F.frame frame.now) self.old }
        ensures plans { IsOpen (F.frame frame.now) self.new }
        ensures taken { OnOk result (run (F.table frame.now) (cites goals.now)
            (duties (form_view form) (F.frame frame.now) self.old) (line_view line.now ∷ [])
            ≡ Ok (duties (form_view form) (F.frame frame.now) self.new)) }
        ensures broken { IfErr result (λ fault. Breaks (run (F.table frame.now) (cites goals.now)
            (duties (form_view form) (F.frame frame.now) self.old) (line_view line.now ∷ [])) fault) }
    {
        match self.judge(alloc, form, frame, goals, line) {
            Ok(()) => Ok(()),
            Err(fault) => {
                self.clear(alloc);
                Err(fault)
            }
        }
    }

    /// Plans of whatever frame, after a fault.
    fn clear(&mut self, alloc: Global)
        ensures { (frame : Frame) → IsOpen frame self.new }
    {
        self.path = Path::new(alloc);
        self.pending.clear();
    }

    /// The plans that the line leaves, or the rule that it breaks; then the state may be anything.
    fn judge<F: CheckFrame>(
        &mut self,
        alloc: Global,
        form: PlanForm,
        frame: &F,
        goals: &[Goal],
        line: &CertLine,
    ) -> Result<(), RuleFault>
        requires { IsOpen (F.frame frame.now) self.old }
        ensures plans { OnOk result (IsOpen (F.frame frame.now) self.new) }
        ensures taken { OnOk result (run (F.table frame.now) (cites goals.now)
            (duties (form_view form) (F.frame frame.now) self.old) (line_view line.now ∷ [])
            ≡ Ok (duties (form_view form) (F.frame frame.now) self.new)) }
        ensures broken { IfErr result (λ fault. Breaks (run (F.table frame.now) (cites goals.now)
            (duties (form_view form) (F.frame frame.now) self.old) (line_view line.now ∷ [])) fault) }
    {
        if !self.has_plan {
            return Err(RuleFault::Breaks(Rule::OutOfPlace));
        }
        if is_split(line) {
            return self.split(alloc, frame);
        }
        ends(alloc, form, frame, &self.path, goals, line)?;
        self.go_on(alloc, frame)?;
        Ok(())
    }

    /// The options of the plan at hand come in its place, the first one next.
    fn split<F: CheckFrame>(&mut self, alloc: Global, frame: &F) -> Result<(), RuleFault>
        requires plans { IsOpen (F.frame frame.now) self.old }
        requires left { self.old.has_plan ≡ true }
        ensures plans { OnOk result (IsOpen (F.frame frame.now) self.new) }
        ensures taken { OnOk result ((form : Form) (gs : List (List G.Signed)) → run (F.table frame.now) (cites gs)
            (duties form (F.frame frame.now) self.old) (L.Split ∷ [])
            ≡ Ok (duties form (F.frame frame.now) self.new)) }
        ensures broken { IfErr result (λ fault. (form : Form) (gs : List (List G.Signed))
            → Breaks (run (F.table frame.now) (cites gs) (duties form (F.frame frame.now) self.old) (L.Split ∷ []))
            fault) }
    {
        if self.path.len() == frame.demands().len() {
            return Err(RuleFault::Breaks(Rule::NoDemand));
        }
        let level = self.path.len();
        self.pending.push(Pending {
            level,
            next: Slot::Head(0),
        })?;
        self.go_on(alloc, frame)?;
        Ok(())
    }

    /// The next plan comes in the place of the one at hand.
    fn go_on<F: CheckFrame>(&mut self, alloc: Global, frame: &F) -> Result<(), Memory>
        requires plans { IsOpen (F.frame frame.now) self.old }
        requires left { self.old.has_plan ≡ true }
        ensures plans { OnOk result (IsOpen (F.frame frame.now) self.new) }
        ensures duties { OnOk result ((form : Form) → duties form (F.frame frame.now) self.new
            ≡ others form (F.frame frame.now) self.old) }
    {
        let mut path = mem::replace(&mut self.path, Path::new(alloc));
        while let Some(last) = self.pending.pop() {
            path = path.cut(last.level)?;
            if let Some(choice) = first_choice(frame, &path, last.next) {
                self.pending.push(Pending {
                    next: choice.rest,
                    ..last
                })?;
                self.path = path.with(choice.server)?;
                return Ok(());
            }
        }
        self.has_plan = false;
        Ok(())
    }
}
