//! The checker of certificates.

ghost use Rattle.std.specs.Prelude.{◌≡◌, ◌+◌, ◌≤◌, ◌^◌, ◌↔◌, ℕ, List, true, Ok, Some, None, IsTrue};
ghost use Rattle.certificate_lines.specs.Line.{Line};
ghost use Rattle.js_checker.specs.Standing.{LeadTo};
ghost use Rattle.js_checker.specs.declared.fault.CheckFault.TheVariants.{Rejected};
ghost use Rattle.js_checker.specs.JudgeView.{stage_of, IsWell};
ghost use Rattle.js_checker.specs.Props.{IsWellUnless-prop};

use crate::entries::find_entries;
use crate::fault::{CheckFault, fault_at};
use crate::judge::Judge;
use crate::piece::{Piece, cut_entries, lines_before_entries, lines_to_deal};
use crate::question::Question;
use js_algebra::{Core, Pos};
use js_doc::Memory;
use js_lines::CertLine;
use js_par::{Gate, Workers};
use js_rules::Rule;
use std::alloc::Global;
use std::thread::Threads;

/// The lines are a certificate.
#[derive(Clone, Copy, PartialEq, Eq, Debug)]
pub struct Accepted;

/// Judges the lines of a certificate, one after another. Contracts see by `StandsFor` for which lines it stands.
///
/// Some list of lines led to its stage, so what it accepts is right whoever calls it. A line that is rejected is the
/// next one after those that were taken.
#[derive(Drop)]
pub struct Checker<'a> {
    question: Question<'a>,
    lines: u64,
    fault: Option<CheckFault>,
    judge: Judge<'a>,
    ghost few: { lines ≤ 2 ^ 63 },
    ghost next: { (k r : ℕ) → fault ≡ Some (Rejected k r) → k ≡ lines + 1 },
    ghost well: { fault ≡ None → IsWell question.core.now.positions judge } by { IsWellUnless-prop question.core.now.positions judge fault },
    ghost reached: { fault ≡ None → ((ls : List Line)
        → LeadTo question.core.now.positions question.premise.0 question.conclusion.0 ls (stage_of judge) lines
        → ⊥) → ⊥ },
}

impl<'a> Checker<'a> {
    ghost use Rattle.std.specs.Prelude.{◌≡◌, ◌+◌, ◌<◌, ◌≤◌, ◌^◌, List, [], ◌∷◌, ◌++◌, suc, length, map, true, Some, None, Err, OnOk, OnErr, IfOk, IfErr, IfSome};
    ghost use Rattle.documents.specs.Document.{Document, is_document};
    ghost use Rattle.positions.specs.Holds.{holds};
    ghost use Rattle.certificate_lines.specs.Line.{Line};
    ghost use Rattle.verdicts.specs.Rules.{out_of_place};
    ghost use Rattle.verdicts.specs.Verdict as V;
    ghost use Rattle.verdicts.specs.Verdict.{judged, at_part, verdict};
    ghost use Rattle.js_lines.specs.View.{line_view};
    ghost use Rattle.js_checker.specs.Faults.{Tells, IsNextAfter};
    ghost use Rattle.js_checker.specs.Entries.{lines_in, joined, is_entry, Finds, AllFound};
    ghost use Rattle.js_checker.specs.JudgeView.{is_between};
    ghost use Rattle.js_checker.specs.CheckerView.{table_of, premise_of, conclusion_of, lines_of, fault_of, StandsFor, IsSameQuestion};

    /// No line was taken. It takes no memory.
    pub fn new(alloc: Global, core: &'a Core, a: Pos, b: Pos) -> Checker<'a>
        requires a { a.0 < length core.now.positions }
        requires b { b.0 < length core.now.positions }
        ensures table { table_of result ≡ core.now.positions }
        ensures premise { premise_of result ≡ a.0 }
        ensures conclusion { conclusion_of result ≡ b.0 }
        ensures lines { lines_of result ≡ 0 }
        ensures fault { fault_of result ≡ None }
        ensures stands { StandsFor result [] }
    {
        Checker {
            question: Question {
                core,
                premise: a,
                conclusion: b,
            },
            lines: 0,
            fault: None,
            judge: Judge::new(alloc, core),
        }
    }

    /// Takes the next line. Its cost is what the rule of the line names. After a fault it answers that one to every
    /// call.
    pub fn take(&mut self, alloc: Global, line: &CertLine) -> Result<(), CheckFault>
        requires { lines_of self.old < 2 ^ 63 }
        ensures stands { (ls : List Line) → StandsFor self.old ls → StandsFor self.new (ls ++ line_view line.now ∷ []) }
        ensures broken { IfErr result (λ fault. (ls more : List Line) → StandsFor self.old ls
            → Tells fault (verdict (table_of self.old) (premise_of self.old) (conclusion_of self.old)
            (ls ++ line_view line.now ∷ more))) }

        ensures going { OnOk result (fault_of self.new ≡ None) }
        ensures lines { OnOk result (lines_of self.new ≡ lines_of self.old + 1) }
        ensures stopped { IfErr result (λ fault. fault_of self.new ≡ Some fault) }
        ensures kept { OnErr result (lines_of self.new ≡ lines_of self.old) }
        ensures next { IfErr result (IsNextAfter (lines_of self.new)) }
        ensures again { IfSome (fault_of self.old) (λ fault. result ≡ Err fault) }

        ensures table { table_of self.new ≡ table_of self.old }
        ensures premise { premise_of self.new ≡ premise_of self.old }
        ensures conclusion { conclusion_of self.new ≡ conclusion_of self.old }
    {
        if let Some(fault) = self.fault {
            return Err(fault);
        }
        match self.judge.take(alloc, self.question, line) {
            Ok(()) => {
                self.lines += 1;
                Ok(())
            }
            Err(fault) => {
                let told = fault_at(self.lines + 1, fault);
                self.fault = Some(told);
                Err(told)
            }
        }
    }

    /// Takes lines as `take` does, one after another, up to the first fault. One worker does just that. Several check
    /// entries at once: the lines from the first one that enters a goal up to `end` are cut before each that enters
    /// one, the pieces are dealt, and what was found of them is joined in their order. From the first piece on that
    /// isn't a whole entry, lines are taken one after another. A last entry that may go on, and is longer than the
    /// lines before it, isn't dealt.
    pub fn take_all<R: Threads + Sync, G: Gate + Sync>(
        &mut self,
        workers: &Workers<'_, R, G>,
        alloc: Global,
        lines: &[CertLine],
    ) -> Result<(), CheckFault>
        requires { lines_of self.old + length lines.now ≤ 2 ^ 63 }
        ensures stands { (ls : List Line) → StandsFor self.old ls → StandsFor self.new (ls ++ map line_view lines.now) }
        ensures broken { IfErr result (λ fault. (ls more : List Line) → StandsFor self.old ls
            → Tells fault (verdict (table_of self.old) (premise_of self.old) (conclusion_of self.old)
            (ls ++ (map line_view lines.now ++ more)))) }

        ensures going { OnOk result (fault_of self.new ≡ None) }
        ensures lines { OnOk result (lines_of self.new ≡ lines_of self.old + length lines.now) }
        ensures stopped { IfErr result (λ fault. fault_of self.new ≡ Some fault) }
        ensures bound { lines_of self.new ≤ lines_of self.old + length lines.now }
        ensures next { IfErr result (IsNextAfter (lines_of self.new)) }
        ensures again { IfSome (fault_of self.old) (λ fault. result ≡ Err fault) }

        ensures table { table_of self.new ≡ table_of self.old }
        ensures premise { premise_of self.new ≡ premise_of self.old }
        ensures conclusion { conclusion_of self.new ≡ conclusion_of self.old }
    {
        if let Some(fault) = self.fault {
            return Err(fault);
        }
        if workers.count == 1 {
            return self.take_each(alloc, lines);
        }
        let (head, rest) = lines.split_at(lines_before_entries(lines));
        self.take_each(alloc, head)?;
        let (entries, tail) = rest.split_at(lines_to_deal(rest));
        self.take_entries(workers, alloc, entries)?;
        self.take_each(alloc, tail)
    }

    /// Takes lines one after another.
    fn take_each(&mut self, alloc: Global, lines: &[CertLine]) -> Result<(), CheckFault>
        requires going { fault_of self.old ≡ None }
        requires few { lines_of self.old + length lines.now ≤ 2 ^ 63 }
        ensures stands { (ls : List Line) → StandsFor self.old ls → StandsFor self.new (ls ++ map line_view lines.now) }
        ensures going { OnOk result (fault_of self.new ≡ None) }
        ensures lines { OnOk result (lines_of self.new ≡ lines_of self.old + length lines.now) }
        ensures stopped { IfErr result (λ fault. fault_of self.new ≡ Some fault) }
        ensures bound { lines_of self.new ≤ lines_of self.old + length lines.now }
        ensures question { IsSameQuestion self.old self.new }
    {
        for line in lines {
            self.take(alloc, line)?;
        }
        Ok(())
    }

    /// Takes lines that begin with an entry, and have no line `end`.
    fn take_entries<R: Threads + Sync, G: Gate + Sync>(
        &mut self,
        workers: &Workers<'_, R, G>,
        alloc: Global,
        lines: &[CertLine],
    ) -> Result<(), CheckFault>
        requires going { fault_of self.old ≡ None }
        requires few { lines_of self.old + length lines.now ≤ 2 ^ 63 }
        ensures stands { (ls : List Line) → StandsFor self.old ls → StandsFor self.new (ls ++ map line_view lines.now) }
        ensures going { OnOk result (fault_of self.new ≡ None) }
        ensures lines { OnOk result (lines_of self.new ≡ lines_of self.old + length lines.now) }
        ensures stopped { IfErr result (λ fault. fault_of self.new ≡ Some fault) }
        ensures bound { lines_of self.new ≤ lines_of self.old + length lines.now }
        ensures question { IsSameQuestion self.old self.new }
    {
        if lines.is_empty() || !self.judge.is_between() {
            return self.take_each(alloc, lines);
        }
        let Ok(pieces) = cut_entries(alloc, lines) else {
            return Err(self.refuse());
        };
        self.take_pieces(workers, alloc, pieces.as_slice())
    }

    /// Takes the lines of pieces.
    fn take_pieces<R: Threads + Sync, G: Gate + Sync>(
        &mut self,
        workers: &Workers<'_, R, G>,
        alloc: Global,
        pieces: &[Piece<'_>],
    ) -> Result<(), CheckFault>
        requires going { fault_of self.old ≡ None }
        requires between { is_between self.old.judge ≡ true }
        requires few { lines_of self.old + length (joined pieces.now) ≤ 2 ^ 63 }
        ensures stands { (ls : List Line) → StandsFor self.old ls
            → StandsFor self.new (ls ++ map line_view (joined pieces.now)) }
        ensures going { OnOk result (fault_of self.new ≡ None) }
        ensures lines { OnOk result (lines_of self.new ≡ lines_of self.old + length (joined pieces.now)) }
        ensures stopped { IfErr result (λ fault. fault_of self.new ≡ Some fault) }
        ensures bound { lines_of self.new ≤ lines_of self.old + length (joined pieces.now) }
        ensures question { IsSameQuestion self.old self.new }
    {
        let goals = self.judge.goals.as_slice();
        let Ok(found) = find_entries(workers, alloc, self.question.core, goals, pieces) else {
            return Err(self.refuse());
        };
        self.join(alloc, pieces, found.as_slice())
    }

    /// Takes the lines of pieces of which it was found whether they are entries.
    fn join(
        &mut self,
        alloc: Global,
        pieces: &[Piece<'_>],
        found: &[Result<bool, Memory>],
    ) -> Result<(), CheckFault>
        requires going { fault_of self.old ≡ None }
        requires between { is_between self.old.judge ≡ true }
        requires few { lines_of self.old + length (joined pieces.now) ≤ 2 ^ 63 }
        requires count { length found.now ≡ length pieces.now }
        requires found { AllFound (table_of self.old) self.old.judge.goals.items pieces.now found.now }
        ensures stands { (ls : List Line) → StandsFor self.old ls
            → StandsFor self.new (ls ++ map line_view (joined pieces.now)) }
        ensures going { OnOk result (fault_of self.new ≡ None) }
        ensures lines { OnOk result (lines_of self.new ≡ lines_of self.old + length (joined pieces.now)) }
        ensures stopped { IfErr result (λ fault. fault_of self.new ≡ Some fault) }
        ensures bound { lines_of self.new ≤ lines_of self.old + length (joined pieces.now) }
        ensures question { IsSameQuestion self.old self.new }
    {
        let mut all_entries = true;
        for i in 0..pieces.len() {
            all_entries = self.take_piece(alloc, &pieces[i], &found[i], all_entries)?;
        }
        Ok(())
    }

    /// Takes the lines of a piece of which it was found whether it is an entry: `after_entries` says that those before
    /// it were, and the answer that it is one too.
    fn take_piece(
        &mut self,
        alloc: Global,
        piece: &Piece<'_>,
        found: &Result<bool, Memory>,
        after_entries: bool,
    ) -> Result<bool, CheckFault>
        requires going { fault_of self.old ≡ None }
        requires between { after_entries ≡ true → is_between self.old.judge ≡ true }
        requires few { lines_of self.old + length piece.now.lines.now ≤ 2 ^ 63 }
        requires found { after_entries ≡ true
            → Finds (table_of self.old) self.old.judge.goals.items piece.now found.now }
        ensures stands { (ls : List Line) → StandsFor self.old ls → StandsFor self.new (ls ++ lines_in piece.now) }
        ensures going { OnOk result (fault_of self.new ≡ None) }
        ensures lines { OnOk result (lines_of self.new ≡ lines_of self.old + length piece.now.lines.now) }
        ensures stopped { IfErr result (λ fault. fault_of self.new ≡ Some fault) }
        ensures bound { lines_of self.new ≤ lines_of self.old + length piece.now.lines.now }
        ensures question { IsSameQuestion self.old self.new }
        ensures entry { IfOk result (λ b. b ≡ true → after_entries ≡ true) }
        ensures between { IfOk result (λ b. b ≡ true → is_between self.new.judge ≡ true) }
        ensures goals { IfOk result (λ b. b ≡ true → self.new.judge.goals.items ≡ self.old.judge.goals.items) }
    {
        if after_entries && is_found(found) && piece.number as usize == self.judge.entered {
            self.pass_entry(piece);
            Ok(true)
        } else {
            self.take_each(alloc, piece.lines)?;
            Ok(false)
        }
    }

    /// A piece that is the next entry.
    fn pass_entry(&mut self, piece: &Piece<'_>)
        requires going { fault_of self.old ≡ None }
        requires between { is_between self.old.judge ≡ true }
        requires few { lines_of self.old + length piece.now.lines.now ≤ 2 ^ 63 }
        requires next { piece.now.number ≡ self.old.judge.entered }
        requires entry { is_entry (table_of self.old) self.old.judge.goals.items piece.now.number (lines_in piece.now)
            ≡ true }
        ensures stands { (ls : List Line) → StandsFor self.old ls → StandsFor self.new (ls ++ lines_in piece.now) }
        ensures going { fault_of self.new ≡ None }
        ensures lines { lines_of self.new ≡ lines_of self.old + length piece.now.lines.now }
        ensures question { IsSameQuestion self.old self.new }
        ensures between { is_between self.new.judge ≡ true }
        ensures goals { self.new.judge.goals.items ≡ self.old.judge.goals.items }
    {
        self.lines += piece.lines.len() as u64;
        self.judge.pass_entry();
    }

    /// Memory was refused.
    fn refuse(&mut self) -> CheckFault
        ensures stands { (ls : List Line) → StandsFor self.new ls }
        ensures stopped { fault_of self.new ≡ Some result }
        ensures lines { lines_of self.new ≡ lines_of self.old }
        ensures question { IsSameQuestion self.old self.new }
    {
        self.fault = Some(CheckFault::Memory);
        CheckFault::Memory
    }

    /// No line follows. After a fault it answers that one to every call.
    pub fn finish(&mut self) -> Result<Accepted, CheckFault>
        ensures accepted { OnOk result ((ls : List Line) → StandsFor self.old ls
            → verdict (table_of self.old) (premise_of self.old) (conclusion_of self.old) ls ≡ V.Accepted) }
        ensures broken { IfErr result (λ fault. (ls : List Line) → StandsFor self.old ls
            → Tells fault (verdict (table_of self.old) (premise_of self.old) (conclusion_of self.old) ls)) }

        // What is accepted is right.
        ensures sound { OnOk result ((J : Document) → is_document J ≡ true
            → holds (table_of self.old) (premise_of self.old) J ≡ true
            → holds (table_of self.old) (conclusion_of self.old) J ≡ true) }

        // Where a part of a line follows.
        ensures behind_end { OnOk result ((ls : List Line) → StandsFor self.old ls
            → judged (table_of self.old) (premise_of self.old) (conclusion_of self.old) at_part V.Start 1 ls
            ≡ V.Rejected (suc (lines_of self.old)) out_of_place) }
        ensures before_end { IfErr result (λ fault. (ls : List Line) → StandsFor self.old ls
            → Tells fault (judged (table_of self.old) (premise_of self.old) (conclusion_of self.old) at_part V.Start 1
            ls)) }

        ensures going { OnOk result (fault_of self.new ≡ None) }
        ensures stopped { IfErr result (λ fault. fault_of self.new ≡ Some fault) }
        ensures next { IfErr result (IsNextAfter (lines_of self.new)) }
        ensures again { IfSome (fault_of self.old) (λ fault. result ≡ Err fault) }

        ensures lines { lines_of self.new ≡ lines_of self.old }
        ensures table { table_of self.new ≡ table_of self.old }
        ensures premise { premise_of self.new ≡ premise_of self.old }
        ensures conclusion { conclusion_of self.new ≡ conclusion_of self.old }
    {
        if let Some(fault) = self.fault {
            return Err(fault);
        }
        if self.judge.is_ended() {
            // The length comes with the fact that ranks fall, on which `sound` rests.
            let _length = self.question.core.len();
            return Ok(Accepted);
        }
        let told = CheckFault::Rejected(self.lines + 1, Rule::NoEnd.number());
        self.fault = Some(told);
        Err(told)
    }

    /// How many lines were taken.
    pub fn lines(&self) -> u64
        ensures { result ≡ lines_of self.now }
    {
        self.lines
    }
}

/// Whether it was found that a piece is an entry. Where memory was refused it wasn't.
fn is_found(found: &Result<bool, Memory>) -> bool
    ensures { IsTrue result ↔ (found.now ≡ Ok true) }
{
    match found {
        Ok(is_entry) => *is_entry,
        Err(_) => false,
    }
}
