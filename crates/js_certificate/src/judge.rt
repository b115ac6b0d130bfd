//! The judge of a certificate's bytes.

ghost use Rattle.std.specs.Prelude.{◌≡◌, None};
ghost use Rattle.js_certificate.specs.LinesView.{IsWell};
ghost use Rattle.js_certificate.specs.Props.{IsWellUnless-prop};

use crate::lines::LineJudge;
use js_algebra::{Core, Pos};
use js_checker::{Accepted, CheckFault};
use js_par::{Gate, Workers};
use std::alloc::Global;
use std::thread::Threads;

/// Judges the bytes of a certificate, piece by piece. Contracts see by `StandsForBytes` for which bytes it stands.
#[derive(Drop)]
pub struct CertificateJudge<'a> {
    fault: Option<CheckFault>,
    lines: LineJudge<'a>,
    ghost well: { fault ≡ None → IsWell lines } by { IsWellUnless-prop lines fault },
}

impl<'a> CertificateJudge<'a> {
    ghost use Rattle.std.specs.Prelude.{◌≡◌, ◌+◌, ◌<◌, ◌≤◌, ◌^◌, ℕ, List, [], ◌++◌, length, true, Some, None, Err, OnOk, OnErr, IfErr, IfSome};
    ghost use Rattle.documents.specs.Document.{Document, is_document};
    ghost use Rattle.positions.specs.Holds.{holds};
    ghost use Rattle.verdicts.specs.Verdict as V;
    ghost use Rattle.verdicts.specs.Verdict.{verdict_of_bytes};
    ghost use Rattle.js_checker.specs.Faults.{Tells};
    ghost use Rattle.js_certificate.specs.ReadBehind.{most_waiting};
    ghost use Rattle.js_certificate.specs.JudgeView.{table_of, premise_of, conclusion_of, bytes_of, waiting_of, fault_of, StandsForBytes};

    /// No byte was read. It takes no memory.
    pub fn new(alloc: Global, core: &'a Core, a: Pos, b: Pos) -> CertificateJudge<'a>
        requires a { a.0 < length core.now.positions }
        requires b { b.0 < length core.now.positions }
        ensures table { table_of result ≡ core.now.positions }
        ensures premise { premise_of result ≡ a.0 }
        ensures conclusion { conclusion_of result ≡ b.0 }
        ensures bytes { bytes_of result ≡ 0 }
        ensures waiting { waiting_of result ≡ 0 }
        ensures fault { fault_of result ≡ None }
        ensures stands { StandsForBytes result [] }
    {
        CertificateJudge {
            fault: None,
            lines: LineJudge::new(alloc, core, a, b),
        }
    }

    /// Reads a piece, and judges the lines that end in it. One worker judges each as soon as it is whole, and reads
    /// nothing behind one that is rejected. For several, lines wait until there are entries enough for all, 65,536
    /// lines, or 16 MiB. After a fault it answers that one to every call.
    pub fn take<R: Threads + Sync, G: Gate + Sync>(
        &mut self,
        workers: &Workers<'_, R, G>,
        alloc: Global,
        piece: &[u8],
    ) -> Result<(), CheckFault>
        requires few { bytes_of self.old + length piece.now < 2 ^ 63 }
        ensures stands { (bytes : List ℕ) → StandsForBytes self.old bytes
            → StandsForBytes self.new (bytes ++ piece.now) }
        ensures broken { IfErr result (λ fault. (bytes more : List ℕ) → StandsForBytes self.old bytes
            → Tells fault (verdict_of_bytes (table_of self.old) (premise_of self.old) (conclusion_of self.old)
            (bytes ++ (piece.now ++ more)))) }

        ensures going { OnOk result (fault_of self.new ≡ None) }
        ensures waits { OnOk result (waiting_of self.old ≤ most_waiting workers.now.count
            → waiting_of self.new ≤ most_waiting workers.now.count) }
        ensures counted { OnOk result (bytes_of self.new ≡ bytes_of self.old + length piece.now) }
        ensures bound { bytes_of self.new ≤ bytes_of self.old + length piece.now }
        ensures stopped { IfErr result (λ fault. fault_of self.new ≡ Some fault) }
        ensures again { IfSome (fault_of self.old) (λ fault. result ≡ Err fault) }

        ensures table { table_of self.new ≡ table_of self.old }
        ensures premise { premise_of self.new ≡ premise_of self.old }
        ensures conclusion { conclusion_of self.new ≡ conclusion_of self.old }
    {
        if let Some(fault) = self.fault {
            return Err(fault);
        }
        match self.lines.take(workers, alloc, piece) {
            Ok(()) => Ok(()),
            Err(fault) => {
                self.fault = Some(fault);
                Err(fault)
            }
        }
    }

    /// Judges the lines that wait: where none waits there is no new fault. After a fault it answers that one to every
    /// call.
    pub fn settle<R: Threads + Sync, G: Gate + Sync>(
        &mut self,
        workers: &Workers<'_, R, G>,
        alloc: Global,
    ) -> Result<(), CheckFault>
        ensures stands { (bytes : List ℕ) → StandsForBytes self.old bytes → StandsForBytes self.new bytes }
        ensures broken { IfErr result (λ fault. (bytes more : List ℕ) → StandsForBytes self.old bytes
            → Tells fault (verdict_of_bytes (table_of self.old) (premise_of self.old) (conclusion_of self.old)
            (bytes ++ more))) }

        ensures some { fault_of self.old ≡ None → OnErr result (0 < waiting_of self.old) }
        ensures settled { OnOk result (waiting_of self.new ≡ 0) }
        ensures going { OnOk result (fault_of self.new ≡ None) }
        ensures stopped { IfErr result (λ fault. fault_of self.new ≡ Some fault) }
        ensures again { IfSome (fault_of self.old) (λ fault. result ≡ Err fault) }

        ensures bytes { bytes_of self.new ≡ bytes_of self.old }
        ensures table { table_of self.new ≡ table_of self.old }
        ensures premise { premise_of self.new ≡ premise_of self.old }
        ensures conclusion { conclusion_of self.new ≡ conclusion_of self.old }
    {
        if let Some(fault) = self.fault {
            return Err(fault);
        }
        match self.lines.settle(workers, alloc) {
            Ok(()) => Ok(()),
            Err(fault) => {
                self.fault = Some(fault);
                Err(fault)
            }
        }
    }

    /// No byte follows. After a fault it answers that one to every call.
    pub fn finish<R: Threads + Sync, G: Gate + Sync>(
        &mut self,
        workers: &Workers<'_, R, G>,
        alloc: Global,
    ) -> Result<Accepted, CheckFault>
        ensures accepted { OnOk result ((bytes : List ℕ) → StandsForBytes self.old bytes
            → verdict_of_bytes (table_of self.old) (premise_of self.old) (conclusion_of self.old) bytes
            ≡ V.Accepted) }
        ensures broken { IfErr result (λ fault. (bytes : List ℕ) → StandsForBytes self.old bytes
            → Tells fault (verdict_of_bytes (table_of self.old) (premise_of self.old) (conclusion_of self.old)
            bytes)) }

        // What is accepted is right.
        ensures sound { OnOk result ((J : Document) → is_document J ≡ true
            → holds (table_of self.old) (premise_of self.old) J ≡ true
            → holds (table_of self.old) (conclusion_of self.old) J ≡ true) }

        ensures going { OnOk result (fault_of self.new ≡ None) }
        ensures stopped { IfErr result (λ fault. fault_of self.new ≡ Some fault) }
        ensures again { IfSome (fault_of self.old) (λ fault. result ≡ Err fault) }

        ensures bytes { bytes_of self.new ≡ bytes_of self.old }
        ensures table { table_of self.new ≡ table_of self.old }
        ensures premise { premise_of self.new ≡ premise_of self.old }
        ensures conclusion { conclusion_of self.new ≡ conclusion_of self.old }
    {
        if let Some(fault) = self.fault {
            return Err(fault);
        }
        match self.lines.finish(workers, alloc) {
            Ok(accepted) => Ok(accepted),
            Err(fault) => {
                self.fault = Some(fault);
                Err(fault)
            }
        }
    }

    /// How many bytes were read. After a fault it may be fewer than came.
    pub fn bytes(&self) -> u64
        ensures { result ≡ bytes_of self.now }
    {
        self.lines.bytes
    }
}
