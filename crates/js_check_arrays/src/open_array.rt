//! The arrays of a set, as lines show them empty.

ghost use Rattle.js_check_plans.specs.OpenDuties.{IsOpen, IsOpen-prop};
ghost use Rattle.js_check_arrays.specs.FrameView.{frame_view};

use crate::array_frame::ArrayFrame;
use js_algebra::{Core, Goal, Signed};
use js_check_plans::{OpenPlans, PlanForm};
use js_doc::Memory;
use js_lines::CertLine;
use js_rules::RuleFault;
use std::alloc::Global;

/// What is still to be shown of the arrays of a set: plans of its frame. `duties_of` is what contracts see of it, and
/// `table_of` is the table.
#[derive(Drop)]
pub struct OpenArray<'a> {
    frame: ArrayFrame<'a>,
    plans: OpenPlans,
    ghost are_plans: { IsOpen (frame_view frame) plans } by { IsOpen-prop (frame_view frame) plans },
}

impl<'a> OpenArray<'a> {
    ghost use Rattle.std.specs.Prelude.{◌≡◌, [], ◌∷◌, map, true, Ok, IfOk, IfErr, OnOk};
    ghost use Rattle.frames.specs.ArrayFrame.{array_frame, is_empty};
    ghost use Rattle.verdicts.specs.Duties.{OfArrays, plan_duty, run};
    ghost use Rattle.verdicts.specs.Verdict.{cites};
    ghost use Rattle.js_algebra.specs.View.{signed_view, are_in_table};
    ghost use Rattle.js_rules.specs.Told.{Breaks};
    ghost use Rattle.js_lines.specs.View.{line_view};
    ghost use Rattle.js_check_arrays.specs.ArrayDuties.{table_of, duties_of};

    /// The plan of the set's frame that serves nothing. An error is want of memory, or a list of 2³² first elements or
    /// more.
    pub fn new(alloc: Global, core: &'a Core, set: &[Signed]) -> Result<OpenArray<'a>, Memory>
        requires { are_in_table core.now.positions (map signed_view set.now) ≡ true }
        ensures duties { IfOk result (λ a. duties_of a
            ≡ plan_duty OfArrays (array_frame core.now.positions (map signed_view set.now)) ∷ []) }
        ensures table { IfOk result (λ a. table_of a ≡ core.now.positions) }
    {
        let frame = ArrayFrame::new(alloc, core, set)?;
        Ok(OpenArray {
            frame,
            plans: OpenPlans::new(alloc),
        })
    }

    /// Whether nothing is left.
    pub fn is_done(&self) -> bool
        ensures { result ≡ is_empty (duties_of self.now) }
    {
        self.plans.is_done()
    }

    /// What the line leaves, or the rule that it breaks; then this is of no more use.
    pub fn take(&mut self, alloc: Global, goals: &[Goal], line: &CertLine) -> Result<(), RuleFault>
        ensures table { table_of self.new ≡ table_of self.old }
        ensures taken { OnOk result (run (table_of self.old) (cites goals.now) (duties_of self.old)
            (line_view line.now ∷ []) ≡ Ok (duties_of self.new)) }
        ensures broken { IfErr result (λ fault. Breaks (run (table_of self.old) (cites goals.now) (duties_of self.old)
            (line_view line.now ∷ [])) fault) }
    {
        self.plans
            .take(alloc, PlanForm::OfArrays, &self.frame, goals, line)
    }
}
