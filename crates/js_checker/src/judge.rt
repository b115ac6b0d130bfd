//! The stages of a certificate: its head, the goals that it lists, what is to be shown of them, and its end.

use crate::entry::EntryCheck;
use crate::listing::{goal_of, root_is_listed};
use crate::question::Question;
use js_algebra::{Core, Goal};
use js_lines::CertLine;
use js_rules::{Rule, RuleFault};
use std::alloc::Global;

/// Which lines may come next.
#[derive(Clone, Copy)]
pub(crate) enum Progress {
    Start,
    Counting,
    /// A goal, and then so many more.
    Listing(u32),
    Showing,
    Ended,
}

/// What the lines so far lead to. Contracts see it by `stage_of`.
///
/// `goals` are those that were listed, `entered` is the number of those whose entries have begun, and `entry` is what
/// is left of the last one.
#[derive(Drop)]
pub(crate) struct Judge<'a> {
    pub progress: Progress,
    pub goals: Vec<Goal>,
    pub entered: usize,
    pub entry: EntryCheck<'a>,
}

impl<'a> Judge<'a> {
    ghost use Rattle.std.specs.Prelude.{◌≡◌, ◌+◌, ◌<◌, ◌↔◌, length, true, false, Ok, OnOk, IfErr, IsTrue};
    ghost use Rattle.certificate_lines.specs.Line as L;
    ghost use Rattle.verdicts.specs.Verdict.{Start, Ended};
    ghost use Rattle.js_lines.specs.View.{line_view};
    ghost use Rattle.js_rules.specs.Told.{Breaks};
    ghost use Rattle.js_checker.specs.TreeView.{IsSteady};
    ghost use Rattle.js_checker.specs.EntryView.{is_busy};
    ghost use Rattle.js_checker.specs.JudgeView.{stage_of, after_line, after_goals, is_early, is_between, IsWell};
    ghost use Rattle.js_checker.specs.declared.judge.Progress.TheVariants as P;

    pub(crate) fn new(alloc: Global, core: &'a Core) -> Judge<'a>
        ensures stage { stage_of result ≡ Start }
        ensures well { IsWell core.now.positions result }
    {
        Judge {
            progress: Progress::Start,
            goals: Vec::new(alloc),
            entered: 0,
            entry: EntryCheck::new(alloc, core),
        }
    }

    pub(crate) fn is_ended(&self) -> bool
        ensures { IsTrue result ↔ (stage_of self.now ≡ Ended) }
    {
        match self.progress {
            Progress::Ended => true,
            _ => false,
        }
    }

    /// Whether an entry may come next.
    pub(crate) fn is_between(&self) -> bool
        requires { IsSteady self.now.entry.tree }
        ensures { result ≡ is_between self.now }
    {
        match self.progress {
            Progress::Showing => self.entry.is_done(),
            _ => false,
        }
    }

    /// The next entry was checked by itself.
    pub(crate) fn pass_entry(&mut self)
        requires { self.old.entered < length self.old.goals.items }
        ensures { self.new ≡ record self.old { entered = self.old.entered + 1 } }
    {
        self.entered += 1;
    }

    pub(crate) fn take(
        &mut self,
        alloc: Global,
        question: Question<'a>,
        line: &CertLine,
    ) -> Result<(), RuleFault>
        requires well { IsWell question.core.now.positions self.old }
        ensures taken { OnOk result (after_line question.entry (stage_of self.old) (line_view line.now)
            ≡ Ok (stage_of self.new)) }
        ensures broken { IfErr result (Breaks (after_line question.entry (stage_of self.old) (line_view line.now))) }
        ensures well { OnOk result (IsWell question.entry.core.now.positions self.new) }
    {
        match self.progress {
            Progress::Start => self.take_version(question, line),
            Progress::Counting => self.take_count(alloc, question, line),
            Progress::Listing(left) => self.take_goal(alloc, question, left, line),
            Progress::Showing => self.take_shown(alloc, question, line),
            Progress::Ended => Err(RuleFault::Breaks(Rule::OutOfPlace)),
        }
    }

    fn take_version(&mut self, question: Question<'a>, line: &CertLine) -> Result<(), RuleFault>
        requires well { IsWell question.core.now.positions self.old }
        requires progress { self.old.progress ≡ P.Start }
        ensures taken { OnOk result (after_line question.entry (stage_of self.old) (line_view line.now)
            ≡ Ok (stage_of self.new)) }
        ensures broken { IfErr result (Breaks (after_line question.entry (stage_of self.old) (line_view line.now))) }
        ensures well { OnOk result (IsWell question.entry.core.now.positions self.new) }
    {
        match line {
            CertLine::Certificate(_) => {
                self.progress = Progress::Counting;
                Ok(())
            }
            _ => Err(RuleFault::Breaks(Rule::OutOfPlace)),
        }
    }

    fn take_count(
        &mut self,
        alloc: Global,
        question: Question<'a>,
        line: &CertLine,
    ) -> Result<(), RuleFault>
        requires well { IsWell question.core.now.positions self.old }
        requires progress { self.old.progress ≡ P.Counting }
        ensures taken { OnOk result (after_line question.entry (stage_of self.old) (line_view line.now)
            ≡ Ok (stage_of self.new)) }
        ensures broken { IfErr result (Breaks (after_line question.entry (stage_of self.old) (line_view line.now))) }
        ensures well { OnOk result (IsWell question.entry.core.now.positions self.new) }
    {
        match line {
            CertLine::Goals(count) => self.list(alloc, question, *count),
            _ => Err(RuleFault::Breaks(Rule::OutOfPlace)),
        }
    }

    fn take_goal(
        &mut self,
        alloc: Global,
        question: Question<'a>,
        left: u32,
        line: &CertLine,
    ) -> Result<(), RuleFault>
        requires well { IsWell question.core.now.positions self.old }
        requires progress { self.old.progress ≡ P.Listing left }
        ensures taken { OnOk result (after_line question.entry (stage_of self.old) (line_view line.now)
            ≡ Ok (stage_of self.new)) }
        ensures broken { IfErr result (Breaks (after_line question.entry (stage_of self.old) (line_view line.now))) }
        ensures well { OnOk result (IsWell question.entry.core.now.positions self.new) }
    {
        match line {
            CertLine::Goal(list) => {
                let goal = goal_of(alloc, question.core, list.as_slice())?;
                self.goals.push(goal)?;
                self.list(alloc, question, left)
            }
            _ => Err(RuleFault::Breaks(Rule::OutOfPlace)),
        }
    }

    /// So many goals are to come. Where none is, the root has to be listed.
    fn list(&mut self, alloc: Global, question: Question<'a>, left: u32) -> Result<(), RuleFault>
        requires well { IsWell question.core.now.positions self.old }
        requires early { is_early self.old.progress ≡ true }
        ensures taken { OnOk result (after_goals question.entry left self.old.goals.items ≡ Ok (stage_of self.new)) }
        ensures broken { IfErr result (Breaks (after_goals question.entry left self.old.goals.items)) }
        ensures well { OnOk result (IsWell question.entry.core.now.positions self.new) }
    {
        if left > 0 {
            self.progress = Progress::Listing(left - 1);
            return Ok(());
        }
        let root = question.root(alloc)?;
        if !root_is_listed(&root, self.goals.as_slice()) {
            return Err(RuleFault::Breaks(Rule::RootNotListed));
        }
        self.progress = Progress::Showing;
        Ok(())
    }

    fn take_shown(
        &mut self,
        alloc: Global,
        question: Question<'a>,
        line: &CertLine,
    ) -> Result<(), RuleFault>
        requires well { IsWell question.core.now.positions self.old }
        requires progress { self.old.progress ≡ P.Showing }
        ensures taken { OnOk result (after_line question.entry (stage_of self.old) (line_view line.now)
            ≡ Ok (stage_of self.new)) }
        ensures broken { IfErr result (Breaks (after_line question.entry (stage_of self.old) (line_view line.now))) }
        ensures well { OnOk result (IsWell question.entry.core.now.positions self.new) }
    {
        if self.entry.is_done() {
            self.take_between(question, line)
        } else {
            self.take_inside(alloc, question, line)
        }
    }

    /// A line of the trees of the goal that was entered last.
    fn take_inside(
        &mut self,
        alloc: Global,
        question: Question<'a>,
        line: &CertLine,
    ) -> Result<(), RuleFault>
        requires well { IsWell question.core.now.positions self.old }
        requires progress { self.old.progress ≡ P.Showing }
        requires busy { is_busy self.old.entry ≡ true }
        ensures taken { OnOk result (after_line question.entry (stage_of self.old) (line_view line.now)
            ≡ Ok (stage_of self.new)) }
        ensures broken { IfErr result (Breaks (after_line question.entry (stage_of self.old) (line_view line.now))) }
        ensures well { OnOk result (IsWell question.entry.core.now.positions self.new) }
    {
        let goals = self.goals.as_slice();
        let goal = &goals[self.entered - 1];
        self.entry.take(alloc, question.core, goals, goal, line)
    }

    /// A line that enters the next goal, or the end.
    fn take_between(&mut self, question: Question<'a>, line: &CertLine) -> Result<(), RuleFault>
        requires well { IsWell question.core.now.positions self.old }
        requires progress { self.old.progress ≡ P.Showing }
        requires idle { is_busy self.old.entry ≡ false }
        ensures taken { OnOk result (after_line question.entry (stage_of self.old) (line_view line.now)
            ≡ Ok (stage_of self.new)) }
        ensures broken { IfErr result (Breaks (after_line question.entry (stage_of self.old) (line_view line.now))) }
        ensures well { OnOk result (IsWell question.entry.core.now.positions self.new) }
    {
        match line {
            CertLine::Entry(number) => self.enter(question, *number),
            CertLine::End => self.end(question),
            _ => Err(RuleFault::Breaks(Rule::OutOfPlace)),
        }
    }

    fn enter(&mut self, question: Question<'a>, number: u32) -> Result<(), RuleFault>
        requires well { IsWell question.core.now.positions self.old }
        requires progress { self.old.progress ≡ P.Showing }
        requires idle { is_busy self.old.entry ≡ false }
        ensures taken { OnOk result (after_line question.entry (stage_of self.old) (L.Entry number)
            ≡ Ok (stage_of self.new)) }
        ensures broken { IfErr result (Breaks (after_line question.entry (stage_of self.old) (L.Entry number))) }
        ensures well { OnOk result (IsWell question.entry.core.now.positions self.new) }
    {
        if self.entered >= self.goals.len() {
            return Err(RuleFault::Breaks(Rule::OutOfPlace));
        }
        if self.entered != number as usize {
            return Err(RuleFault::Breaks(Rule::OtherEntry));
        }
        self.entered += 1;
        self.entry.begin();
        Ok(())
    }

    fn end(&mut self, question: Question<'a>) -> Result<(), RuleFault>
        requires well { IsWell question.core.now.positions self.old }
        requires progress { self.old.progress ≡ P.Showing }
        requires idle { is_busy self.old.entry ≡ false }
        ensures taken { OnOk result (after_line question.entry (stage_of self.old) L.End
            ≡ Ok (stage_of self.new)) }
        ensures broken { IfErr result (Breaks (after_line question.entry (stage_of self.old) L.End)) }
        ensures well { OnOk result (IsWell question.entry.core.now.positions self.new) }
    {
        if self.entered < self.goals.len() {
            return Err(RuleFault::Breaks(Rule::OutOfPlace));
        }
        self.progress = Progress::Ended;
        Ok(())
    }
}
