//! The lines of bytes as they come, each handed to the batch as soon as it is whole, which one worker judges at once.

ghost use Rattle.std.specs.Prelude.{◌≡◌, ◌<◌, ◌^◌, ℕ, List, length, None, OnOk, IfOk, IfErr};

use crate::batch::Batch;
use crate::reading::read_part;
use js_algebra::{Core, Pos};
use js_checker::{Accepted, CheckFault};
use js_lines::LineReader;
use js_par::{Gate, Workers};
use js_rules::Rule;
use std::alloc::Global;
use std::thread::Threads;

/// The lines that bytes so far are, judged. Nothing is said of it after a fault.
///
/// `bytes` is how many were read; there are no more lines than bytes, so numbers of lines don't wrap.
#[derive(Drop)]
pub(crate) struct LineJudge<'a> {
    pub bytes: u64,
    pub reader: LineReader,
    pub batch: Batch<'a>,
}

impl<'a> LineJudge<'a> {
    ghost use Rattle.std.specs.Prelude.{◌≡◌, ◌+◌, ◌<◌, ◌≤◌, ◌^◌, ℕ, List, [], ◌++◌, length, take, true, Some, None, is_none, option_to_list, OnOk, OnErr, IfOk, IfErr};
    ghost use Rattle.documents.specs.Document.{Document, is_document};
    ghost use Rattle.positions.specs.Holds.{holds};
    ghost use Rattle.certificate_lines.specs.Line.{Line};
    ghost use Rattle.certificate_lines.specs.Reader.{given};
    ghost use Rattle.verdicts.specs.Verdict as V;
    ghost use Rattle.verdicts.specs.Verdict.{verdict_of_bytes};
    ghost use Rattle.js_certificate.specs.BatchView as B;
    ghost use Rattle.js_certificate.specs.BatchView.{lines_of, fault_of, FewWait, StandsFor, AreToldBy};
    ghost use Rattle.js_checker.specs.Faults.{Tells};
    ghost use Rattle.js_certificate.specs.Broken.{AreBroken};
    ghost use Rattle.js_certificate.specs.LinesView.{table_of, premise_of, conclusion_of, waiting_of, AreJudged, IsWell};

    pub(crate) fn new(alloc: Global, core: &'a Core, a: Pos, b: Pos) -> LineJudge<'a>
        requires a { a.0 < length core.now.positions }
        requires b { b.0 < length core.now.positions }
        ensures table { table_of result ≡ core.now.positions }
        ensures premise { premise_of result ≡ a.0 }
        ensures conclusion { conclusion_of result ≡ b.0 }
        ensures bytes { result.bytes ≡ 0 }
        ensures waiting { waiting_of result ≡ 0 }
        ensures well { IsWell result }
        ensures stands { AreJudged result [] }
    {
        LineJudge {
            bytes: 0,
            reader: LineReader::new(alloc),
            batch: Batch::new(alloc, core, a, b),
        }
    }

    /// Reads a piece, and judges the lines that end in it, up to the first fault. Some lines may wait to be judged.
    pub(crate) fn take<R: Threads + Sync, G: Gate + Sync>(
        &mut self,
        workers: &Workers<'_, R, G>,
        alloc: Global,
        piece: &[u8],
    ) -> Result<(), CheckFault>
        requires well { IsWell self.old }
        requires few { self.old.bytes + length piece.now < 2 ^ 63 }
        ensures stands { OnOk result ((bytes : List ℕ) → AreJudged self.old bytes
            → AreJudged self.new (bytes ++ piece.now)) }
        ensures broken { IfErr result (λ fault. (bytes : List ℕ) → AreJudged self.old bytes
            → AreBroken (table_of self.old) (premise_of self.old) (conclusion_of self.old) fault
            (bytes ++ piece.now)) }
        ensures well { OnOk result (IsWell self.new) }
        ensures waits { OnOk result (FewWait workers.now.count self.old.batch
            → FewWait workers.now.count self.new.batch) }
        ensures counted { OnOk result (self.new.bytes ≡ self.old.bytes + length piece.now) }
        ensures bound { self.new.bytes ≤ self.old.bytes + length piece.now }
        ensures table { table_of self.new ≡ table_of self.old }
        ensures premise { premise_of self.new ≡ premise_of self.old }
        ensures conclusion { conclusion_of self.new ≡ conclusion_of self.old }
    {
        let mut read = 0;
        while read < piece.len() {
            let count = self.take_part(workers, alloc, &piece[read..])?;
            read += count;
        }
        Ok(())
    }

    /// Reads a piece up to and with the first line feed, or all where there is none, and answers how many bytes these
    /// are. A line that ends there is judged, or waits.
    fn take_part<R: Threads + Sync, G: Gate + Sync>(
        &mut self,
        workers: &Workers<'_, R, G>,
        alloc: Global,
        piece: &[u8],
    ) -> Result<usize, CheckFault>
        requires some { 0 < length piece.now }
        requires well { IsWell self.old }
        requires few { self.old.bytes + length piece.now < 2 ^ 63 }
        ensures some { IfOk result (λ count. 0 < count) }
        ensures within { IfOk result (λ count. count ≤ length piece.now) }
        ensures stands { IfOk result (λ count. (bytes : List ℕ) → AreJudged self.old bytes
            → AreJudged self.new (bytes ++ take count piece.now)) }
        ensures broken { IfErr result (λ fault. (bytes : List ℕ) → AreJudged self.old bytes
            → AreBroken (table_of self.old) (premise_of self.old) (conclusion_of self.old) fault
            (bytes ++ piece.now)) }
        ensures well { OnOk result (IsWell self.new) }
        ensures waits { OnOk result (FewWait workers.now.count self.old.batch
            → FewWait workers.now.count self.new.batch) }
        ensures counted { IfOk result (λ count. self.new.bytes ≡ self.old.bytes + count) }
        ensures kept { IfErr result (λ fault. self.new.bytes ≡ self.old.bytes) }
        ensures table { table_of self.new ≡ table_of self.old }
        ensures premise { premise_of self.new ≡ premise_of self.old }
        ensures conclusion { conclusion_of self.new ≡ conclusion_of self.old }
    {
        match read_part(&mut self.reader, piece) {
            Ok(count) => {
                self.judge_line(workers, alloc)?;
                self.bytes += count as u64;
                Ok(count)
            }
            Err(fault) => {
                self.batch.hand_over(workers, alloc, self.bytes)?;
                Err(fault)
            }
        }
    }

    /// Judges the line that the reader gives, if it gives one, or lets it wait.
    fn judge_line<R: Threads + Sync, G: Gate + Sync>(
        &mut self,
        workers: &Workers<'_, R, G>,
        alloc: Global,
    ) -> Result<(), CheckFault>
        requires going { fault_of self.old.batch ≡ None }
        requires few { lines_of self.old.batch < 2 ^ 63 }
        ensures reader { self.new.reader ≡ given self.old.reader }
        ensures bytes { self.new.bytes ≡ self.old.bytes }
        ensures stands { OnOk result ((ls : List Line) → StandsFor self.old.batch ls
            → StandsFor self.new.batch (ls ++ option_to_list self.old.reader.waiting)) }
        ensures broken { IfErr result (λ fault. (ls : List Line) → StandsFor self.old.batch ls
            → AreToldBy (table_of self.old) (premise_of self.old) (conclusion_of self.old) fault
            (ls ++ option_to_list self.old.reader.waiting)) }
        ensures going { OnOk result (fault_of self.new.batch ≡ None) }
        ensures lines { OnOk result (lines_of self.new.batch ≤ lines_of self.old.batch + 1) }
        ensures waits { OnOk result (FewWait workers.now.count self.old.batch
            → FewWait workers.now.count self.new.batch) }
        ensures table { table_of self.new ≡ table_of self.old }
        ensures premise { premise_of self.new ≡ premise_of self.old }
        ensures conclusion { conclusion_of self.new ≡ conclusion_of self.old }
    {
        match self.reader.next_line() {
            Some(line) => self.batch.take(workers, alloc, line, self.bytes),
            None => Ok(()),
        }
    }

    /// Judges the lines that wait. Where none waits there is no fault.
    pub(crate) fn settle<R: Threads + Sync, G: Gate + Sync>(
        &mut self,
        workers: &Workers<'_, R, G>,
        alloc: Global,
    ) -> Result<(), CheckFault>
        requires well { IsWell self.old }
        ensures stands { OnOk result ((bytes : List ℕ) → AreJudged self.old bytes → AreJudged self.new bytes) }
        ensures broken { IfErr result (λ fault. (bytes : List ℕ) → AreJudged self.old bytes
            → AreBroken (table_of self.old) (premise_of self.old) (conclusion_of self.old) fault bytes) }
        ensures well { OnOk result (IsWell self.new) }
        ensures settled { self.new.batch.waiting.items ≡ [] }
        ensures some { OnErr result (0 < waiting_of self.old) }
        ensures bytes { self.new.bytes ≡ self.old.bytes }
        ensures table { table_of self.new ≡ table_of self.old }
        ensures premise { premise_of self.new ≡ premise_of self.old }
        ensures conclusion { conclusion_of self.new ≡ conclusion_of self.old }
    {
        self.batch.hand_over(workers, alloc, self.bytes)
    }

    /// No byte follows.
    pub(crate) fn finish<R: Threads + Sync, G: Gate + Sync>(
        &mut self,
        workers: &Workers<'_, R, G>,
        alloc: Global,
    ) -> Result<Accepted, CheckFault>
        requires well { IsWell self.old }
        ensures accepted { OnOk result ((bytes : List ℕ) → AreJudged self.old bytes
            → verdict_of_bytes (table_of self.old) (premise_of self.old) (conclusion_of self.old) bytes
            ≡ V.Accepted) }
        ensures broken { IfErr result (λ fault. (bytes : List ℕ) → AreJudged self.old bytes
            → Tells fault (verdict_of_bytes (table_of self.old) (premise_of self.old) (conclusion_of self.old)
            bytes)) }
        ensures sound { OnOk result ((J : Document) → is_document J ≡ true
            → holds (table_of self.old) (premise_of self.old) J ≡ true
            → holds (table_of self.old) (conclusion_of self.old) J ≡ true) }
        ensures well { OnOk result (IsWell self.new) }
        ensures bytes { self.new.bytes ≡ self.old.bytes }
        ensures table { table_of self.new ≡ table_of self.old }
        ensures premise { premise_of self.new ≡ premise_of self.old }
        ensures conclusion { conclusion_of self.new ≡ conclusion_of self.old }
    {
        self.settle(workers, alloc)?;
        let accepted = self.batch.checker.finish()?;
        match self.reader.finish() {
            Ok(()) => Ok(accepted),
            // A part of a line follows the line `end`.
            Err(_) => Err(CheckFault::Rejected(
                self.batch.checker.lines() + 1,
                Rule::OutOfPlace.number(),
            )),
        }
    }
}
