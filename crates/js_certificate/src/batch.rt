//! Lines that wait for the checker.

ghost use Rattle.std.specs.Prelude.{◌≡◌, [], ◌∷◌, ◌++◌, OnOk};

use js_algebra::{Core, Pos};
use js_checker::{CheckFault, Checker};
use js_doc::Memory;
use js_lines::CertLine;
use js_par::{Gate, Workers};
use std::alloc::Global;
use std::thread::Threads;

/// How many entries wait for each worker.
const ENTRIES_OF_A_WORKER: u32 = 4;

/// How many lines wait at most.
const MOST_LINES: usize = 65_536;

/// How many bytes are read, more or less, while lines wait.
const MOST_BYTES: u64 = 16_777_216;

/// A checker, and lines that wait for it. For one worker no line waits. Nothing is said of it after a fault.
#[derive(Drop)]
pub(crate) struct Batch<'a> {
    pub checker: Checker<'a>,
    pub waiting: Vec<CertLine>,
    /// How many of the lines that wait enter a goal.
    entries: u32,
    /// How many bytes had been read when lines were handed over last.
    handed_at: u64,
}

impl<'a> Batch<'a> {
    ghost use Rattle.std.specs.Prelude.{◌≡◌, ◌+◌, ◌<◌, ◌≤◌, ◌^◌, List, [], ◌∷◌, ◌++◌, length, true, false, None, OnOk, OnErr, IfErr, vec_len};
    ghost use Rattle.certificate_lines.specs.Line.{Line};
    ghost use Rattle.js_lines.specs.View.{line_view};
    ghost use Rattle.js_certificate.specs.BatchView.{
      table_of,
      premise_of,
      conclusion_of,
      lines_of,
      fault_of,
      FewWait,
      StandsFor,
      AreToldBy,
    };

    pub(crate) fn new(alloc: Global, core: &'a Core, a: Pos, b: Pos) -> Batch<'a>
        requires a { a.0 < length core.now.positions }
        requires b { b.0 < length core.now.positions }
        ensures table { table_of result ≡ core.now.positions }
        ensures premise { premise_of result ≡ a.0 }
        ensures conclusion { conclusion_of result ≡ b.0 }
        ensures lines { lines_of result ≡ 0 }
        ensures fault { fault_of result ≡ None }
        ensures waiting { vec_len result.waiting ≡ 0 }
        ensures stands { StandsFor result [] }
    {
        Batch {
            checker: Checker::new(alloc, core, a, b),
            waiting: Vec::new(alloc),
            entries: 0,
            handed_at: 0,
        }
    }

    /// Takes the next line, where so many bytes were read. Lines are handed to the checker when there are four whole
    /// entries for each worker, or 65,536 lines, or when 16 MiB were read since the last time.
    pub(crate) fn take<R: Threads + Sync, G: Gate + Sync>(
        &mut self,
        workers: &Workers<'_, R, G>,
        alloc: Global,
        line: CertLine,
        bytes: u64,
    ) -> Result<(), CheckFault>
        requires going { fault_of self.old ≡ None }
        requires few { lines_of self.old < 2 ^ 63 }
        ensures stands { OnOk result ((ls : List Line) → StandsFor self.old ls
            → StandsFor self.new (ls ++ line_view line ∷ [])) }
        ensures broken { IfErr result (λ fault. (ls : List Line) → StandsFor self.old ls
            → AreToldBy (table_of self.old) (premise_of self.old) (conclusion_of self.old) fault
            (ls ++ line_view line ∷ [])) }
        ensures going { OnOk result (fault_of self.new ≡ None) }
        ensures lines { OnOk result (lines_of self.new ≡ lines_of self.old + 1) }
        ensures waits { OnOk result (FewWait workers.now.count self.new) }
        ensures table { table_of self.new ≡ table_of self.old }
        ensures premise { premise_of self.new ≡ premise_of self.old }
        ensures conclusion { conclusion_of self.new ≡ conclusion_of self.old }
    {
        let enough = self.are_enough(workers.count, &line);
        self.hand_over_if(enough, workers, alloc, bytes)?;
        self.entries = entries_with(self.entries, &line);
        match add(&mut self.waiting, line) {
            Ok(()) => {
                let full = self.is_full(workers.count, bytes);
                self.hand_over_if(full, workers, alloc, bytes)
            }
            Err(Memory) => Err(CheckFault::Memory),
        }
    }

    /// Whether lines are handed over before that one is added: it begins an entry, and enough of them wait.
    fn are_enough(&self, workers: u32, line: &CertLine) -> bool
        requires { workers ≤ 64 }
    {
        match line {
            CertLine::Entry(_) => self.entries >= ENTRIES_OF_A_WORKER * workers,
            _ => false,
        }
    }

    /// Whether lines are handed over when a line was added.
    fn is_full(&self, workers: u32, bytes: u64) -> bool
        ensures { result ≡ false → FewWait workers self.now }
    {
        workers == 1
            || self.waiting.len() >= MOST_LINES
            || bytes.saturating_sub(self.handed_at) >= MOST_BYTES
    }

    /// Hands all lines that wait to the checker where it is time to.
    fn hand_over_if<R: Threads + Sync, G: Gate + Sync>(
        &mut self,
        is_time: bool,
        workers: &Workers<'_, R, G>,
        alloc: Global,
        bytes: u64,
    ) -> Result<(), CheckFault>
        requires going { fault_of self.old ≡ None }
        requires few { lines_of self.old ≤ 2 ^ 63 }
        ensures stands { OnOk result ((ls : List Line) → StandsFor self.old ls → StandsFor self.new ls) }
        ensures broken { IfErr result (λ fault. (ls : List Line) → StandsFor self.old ls
            → AreToldBy (table_of self.old) (premise_of self.old) (conclusion_of self.old) fault ls) }
        ensures going { OnOk result (fault_of self.new ≡ None) }
        ensures lines { OnOk result (lines_of self.new ≡ lines_of self.old) }
        ensures handed { OnOk result (is_time ≡ true → self.new.waiting.items ≡ []) }
        ensures kept { is_time ≡ false → self.new.waiting.items ≡ self.old.waiting.items }
        ensures table { table_of self.new ≡ table_of self.old }
        ensures premise { premise_of self.new ≡ premise_of self.old }
        ensures conclusion { conclusion_of self.new ≡ conclusion_of self.old }
    {
        if is_time {
            self.hand_over(workers, alloc, bytes)
        } else {
            Ok(())
        }
    }

    /// Hands all lines that wait to the checker, where so many bytes were read. Where none waits there is no fault.
    pub(crate) fn hand_over<R: Threads + Sync, G: Gate + Sync>(
        &mut self,
        workers: &Workers<'_, R, G>,
        alloc: Global,
        bytes: u64,
    ) -> Result<(), CheckFault>
        requires going { fault_of self.old ≡ None }
        requires few { lines_of self.old ≤ 2 ^ 63 }
        ensures stands { OnOk result ((ls : List Line) → StandsFor self.old ls → StandsFor self.new ls) }
        ensures broken { IfErr result (λ fault. (ls : List Line) → StandsFor self.old ls
            → AreToldBy (table_of self.old) (premise_of self.old) (conclusion_of self.old) fault ls) }
        ensures going { OnOk result (fault_of self.new ≡ None) }
        ensures lines { OnOk result (lines_of self.new ≡ lines_of self.old) }
        ensures waiting { self.new.waiting.items ≡ [] }
        ensures some { OnErr result (0 < vec_len self.old.waiting) }
        ensures table { table_of self.new ≡ table_of self.old }
        ensures premise { premise_of self.new ≡ premise_of self.old }
        ensures conclusion { conclusion_of self.new ≡ conclusion_of self.old }
    {
        if self.waiting.is_empty() {
            return Ok(());
        }
        let taken = self
            .checker
            .take_all(workers, alloc, self.waiting.as_slice());
        self.waiting.clear();
        self.entries = 0;
        self.handed_at = bytes;
        taken
    }
}

fn add(lines: &mut Vec<CertLine>, line: CertLine) -> Result<(), Memory>
    ensures { OnOk result (lines.new.items ≡ lines.old.items ++ line ∷ []) }
{
    lines.push(line)?;
    Ok(())
}

/// How many lines enter a goal, that one with them.
fn entries_with(entries: u32, line: &CertLine) -> u32 {
    match line {
        CertLine::Entry(_) => entries.saturating_add(1),
        _ => entries,
    }
}
