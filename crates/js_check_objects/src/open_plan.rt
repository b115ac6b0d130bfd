//! The plans of an object's frame that are still to be shown empty.

ghost use Rattle.js_check_plans.specs.OpenDuties.{IsOpen, IsOpen-prop};
ghost use Rattle.js_check_objects.specs.FrameView.{frame_view};

use crate::object_frame::ObjectFrame;
use crate::open_bounds::OpenBounds;
use js_algebra::Goal;
use js_check_plans::{OpenPlans, PlanForm};
use js_doc::Memory;
use js_lines::CertLine;
use js_rules::RuleFault;
use std::alloc::Global;

/// The frame of a set with the bounds that were stated, and the plans of it that are left.
#[derive(Drop)]
pub(crate) struct OpenPlan<'a> {
    pub frame: ObjectFrame<'a>,
    pub plans: OpenPlans,
    ghost are_open: { IsOpen (frame_view frame) plans } by { IsOpen-prop (frame_view frame) plans },
}

impl<'a> OpenPlan<'a> {
    ghost use Rattle.std.specs.Prelude.{◌≡◌, [], ◌∷◌, map, Ok, IfOk, IfErr};
    ghost use Rattle.frames.specs.ArrayFrame.{is_empty};
    ghost use Rattle.verdicts.specs.Duties.{OfObjects, plan_duty, run};
    ghost use Rattle.verdicts.specs.Leaves.{stated_frame};
    ghost use Rattle.verdicts.specs.Verdict.{cites};
    ghost use Rattle.js_algebra.specs.View.{signed_view};
    ghost use Rattle.js_lines.specs.View.{line_view};
    ghost use Rattle.js_rules.specs.Told.{Breaks};
    ghost use Rattle.js_check_rows.specs.RowsView.{table_of};
    ghost use Rattle.js_check_objects.specs.Bounds.{bounds_in};
    ghost use Rattle.js_check_objects.specs.OpenView.{plan_duties_of};

    /// The plan that serves nothing, over the cells with the bounds that were stated.
    pub(crate) fn new(alloc: Global, from: OpenBounds<'a>) -> Result<OpenPlan<'a>, Memory>
        ensures table { IfOk result (λ made. made.frame.core.now.positions ≡ from.entry.core.now.positions) }
        ensures plan { IfOk result (λ made. plan_duties_of made ≡ plan_duty OfObjects
            (stated_frame from.entry.core.now.positions (map signed_view from.entry.set.items)
            (table_of from.entry.rows) (bounds_in from.entry.stated.items)) ∷ []) }
    {
        let frame = ObjectFrame::new(alloc, from.core, from.set, from.cells, from.caps)?;
        Ok(OpenPlan {
            frame,
            plans: OpenPlans::new(alloc),
        })
    }

    /// Whether no plan is left.
    pub(crate) fn is_done(&self) -> bool
        ensures { result ≡ is_empty (plan_duties_of self.now) }
    {
        self.plans.is_done()
    }

    /// Takes a line of the plan at hand.
    pub(crate) fn take(
        self,
        alloc: Global,
        goals: &[Goal],
        line: &CertLine,
    ) -> Result<OpenPlan<'a>, RuleFault>
        ensures table { IfOk result (λ made. made.frame.core.now.positions ≡ self.entry.frame.core.now.positions) }
        ensures taken { IfOk result (λ made. run self.entry.frame.core.now.positions (cites goals.now)
            (plan_duties_of self.entry) (line_view line.now ∷ []) ≡ Ok (plan_duties_of made)) }
        ensures broken { IfErr result (λ fault. Breaks (run self.entry.frame.core.now.positions (cites goals.now)
            (plan_duties_of self.entry) (line_view line.now ∷ [])) fault) }
    {
        let OpenPlan { frame, mut plans } = self;
        plans.take(alloc, PlanForm::OfObjects, &frame, goals, line)?;
        Ok(OpenPlan { frame, plans })
    }
}
