//! What is still to be shown at objects.

use crate::open_rows::OpenRows;
use crate::stage::{Stage, step};
use js_algebra::{Core, Goal, Signed};
use js_lines::CertLine;
use js_rules::RuleFault;
use std::alloc::Global;
use std::mem;

/// What is still to be shown at objects: rows, bounds of cells, and then plans. Contracts see it by `duties_of`, over
/// the table `table_of`.
///
/// It keeps its own copy of the set. After a line that isn't taken it stands for nothing.
#[derive(Drop)]
pub struct OpenObject<'a> {
    stage: Stage<'a>,
}

impl<'a> OpenObject<'a> {
    ghost use Rattle.std.specs.Prelude.{◌≡◌, [], ◌∷◌, map, true, Ok, IfOk, OnOk, IfErr};
    ghost use Rattle.frames.specs.ArrayFrame.{is_empty};
    ghost use Rattle.verdicts.specs.Duties.{ForCells, begin_rows, run};
    ghost use Rattle.verdicts.specs.Verdict.{cites};
    ghost use Rattle.js_algebra.specs.View.{signed_view, are_in_table};
    ghost use Rattle.js_lines.specs.View.{line_view};
    ghost use Rattle.js_rules.specs.Told.{Breaks};
    ghost use Rattle.js_check_objects.specs.View.{table_of, duties_of};

    /// So many rows of the names of a set, of which none is stated, and so many bounds that are to follow.
    pub fn new(
        alloc: Global,
        core: &'a Core,
        set: &[Signed],
        rows: u32,
        bounds: u32,
    ) -> Result<OpenObject<'a>, RuleFault>
        requires { are_in_table core.now.positions (map signed_view set.now) ≡ true }
        ensures table { IfOk result (λ object. table_of object ≡ core.now.positions) }
        ensures begun { IfOk result (λ object. begin_rows core.now.positions (ForCells bounds)
            (map signed_view set.now) rows ≡ Ok (duties_of object)) }
        ensures broken { IfErr result (λ fault. Breaks (begin_rows core.now.positions (ForCells bounds)
            (map signed_view set.now) rows) fault) }
    {
        let from = OpenRows::new(alloc, core, set, rows, bounds)?;
        Ok(OpenObject {
            stage: Stage::Rows(from),
        })
    }

    /// Whether nothing is left to be shown.
    pub fn is_done(&self) -> bool
        ensures { result ≡ is_empty (duties_of self.now) }
    {
        match &self.stage {
            Stage::Rows(_) | Stage::Bounds(_) => false,
            Stage::Plans(from) => from.is_done(),
            Stage::Over => true,
        }
    }

    /// Takes the next line.
    pub fn take(&mut self, alloc: Global, goals: &[Goal], line: &CertLine) -> Result<(), RuleFault>
        ensures table { OnOk result (table_of self.new ≡ table_of self.old) }
        ensures taken { OnOk result (run (table_of self.old) (cites goals.now) (duties_of self.old)
            (line_view line.now ∷ []) ≡ Ok (duties_of self.new)) }
        ensures broken { IfErr result (λ fault. Breaks (run (table_of self.old) (cites goals.now) (duties_of self.old)
            (line_view line.now ∷ [])) fault) }
    {
        let stage = mem::replace(&mut self.stage, Stage::Over);
        self.stage = step(alloc, stage, goals, line)?;
        Ok(())
    }
}
