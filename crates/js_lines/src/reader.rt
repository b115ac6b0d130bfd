//! A reader that makes lines of bytes as they come, in pieces of any length.
//!
//! It holds the part of the line that is being read, the line that waits to be given, and a fault once one was met. So
//! it takes memory for one line and not for the text, and a line that comes in one piece isn't copied.

ghost use Rattle.std.specs.Prelude.{
  ◌≡◌,
  ℕ,
  ◌+◌,
  ◌<◌,
  ◌≤◌,
  ◌^◌,
  List,
  ◌++◌,
  take,
  false,
  cond,
  Some,
  None,
  Err,
  IfOk,
  option_map,
  option_to_list,
};
ghost use Rattle.certificate_lines.specs.Line.{Line};
ghost use Rattle.certificate_lines.specs.Cut.{Stands};
ghost use Rattle.certificate_lines.specs.Reader as R;
ghost use Rattle.certificate_lines.specs.Reader.{fresh, fed, read_count, ended, grown, stopped, given, at_end};
ghost use Rattle.certificate_lines.specs.Reading.{line_of};
ghost use Rattle.js_lines.specs.Bad.{bad_view};
ghost use Rattle.js_lines.specs.View.{line_view};
ghost use Rattle.js_lines.specs.Answers.{fault_view, answer, is_memory, IsAnswer, piece_answer};

use crate::fault::LineFault;
use crate::lines::CertLine;
use crate::pieces::split_once;
use crate::reading::read_line;
use js_doc::Memory;
use std::alloc::Global;
use std::marker::Model;

/// The most bytes of a line, without its line feed.
const LONGEST_LINE: usize = 1_048_576;

/// A fault that a line has, with the line's number.
#[derive(Clone, Copy, PartialEq, Eq, Debug)]
enum BadLine {
    NotALine(u64),
    TooLong(u64),
}

/// A reader of lines. Contracts see how many lines it took, the part of a line that it holds, the line that waits, and
/// the fault that it met.
#[derive(Drop)]
pub struct LineReader {
    alloc: Global,
    taken: u64,
    held: Vec<u8>,
    waiting: Option<CertLine>,
    bad: Option<BadLine>,
}

impl Model for LineReader {
    ghost use Rattle.std.specs.Prelude.{◌≤◌, length, option_map};
    ghost use Rattle.certificate_lines.specs.Reader.{Reader};
    ghost use Rattle.js_lines.specs.View.{line_view};
    ghost use Rattle.js_lines.specs.Bad.{bad_view};

    ghost Value = { Reader };

    ghost view = { λ r. record {
      taken = r.taken;
      held = r.held.items;
      waiting = option_map line_view r.waiting;
      fault = option_map bad_view r.bad;
    } };

    ghost invariant = { λ r. length r.held.items ≤ 1048576 };
}

impl LineReader {
    /// A reader that took nothing.
    pub fn new(alloc: Global) -> LineReader
        ensures { result ≡ fresh }
    {
        LineReader {
            alloc,
            taken: 0,
            held: Vec::new(alloc),
            waiting: None,
            bad: None,
        }
    }

    /// Takes the bytes of a piece up to and with the first line feed, or all where there is none, and answers how
    /// many. Where the line feed was taken, a line waits. A fault with a line is answered again by each later call.
    /// After a refusal of memory the reader is as before. Linear in the piece and in what is held of the line.
    pub fn feed(&mut self, piece: &[u8]) -> Result<usize, LineFault>
        requires idle { self.old.waiting ≡ None }
        requires few { self.old.taken < 2 ^ 63 }
        ensures answer { IsAnswer result (piece_answer self.old piece.now) }
        ensures state { self.new ≡ cond (is_memory result) self.old (fed self.old piece.now) }
        ensures cut { (bytes : List ℕ) (ls : List Line) → is_memory result ≡ false → Stands bytes ls self.old
            → Stands (bytes ++ take (read_count piece.now) piece.now) (ls ++ option_to_list self.new.waiting) self.new }
        ensures counted { self.new.taken ≤ self.old.taken + 1 }
        ensures again { (f : R.Fault) → self.old.fault ≡ Some f → result ≡ Err (fault_view f) }
    {
        if let Some(bad) = self.bad {
            return Err(fault_of(bad));
        }
        self.read(piece)
    }

    /// Gives the line that waits. Takes no memory.
    pub fn next_line(&mut self) -> Option<CertLine>
        ensures line { option_map line_view result ≡ self.old.waiting }
        ensures state { self.new ≡ given self.old }
    {
        self.waiting.take()
    }

    /// Whether the bytes may end here: not after a fault, and not within a line. Takes no memory.
    pub fn finish(&self) -> Result<(), LineFault>
        ensures { result ≡ answer tt (at_end self.now) }
    {
        match self.bad {
            Some(bad) => Err(fault_of(bad)),
            None if self.held.is_empty() => Ok(()),
            None => Err(LineFault::Unfinished),
        }
    }

    /// Takes the bytes of a piece up to and with the first line feed, where no fault was met.
    fn read(&mut self, piece: &[u8]) -> Result<usize, LineFault>
        requires sound { self.old.fault ≡ None }
        requires idle { self.old.waiting ≡ None }
        requires few { self.old.taken < 2 ^ 63 }
        ensures answer { IsAnswer result (piece_answer self.old piece.now) }
        ensures state { self.new ≡ cond (is_memory result) self.old (fed self.old piece.now) }
    {
        match split_once(piece, b'\n') {
            Some((front, _)) => {
                self.end_line(front)?;
                Ok(front.len() + 1)
            }
            None => {
                self.grow(piece)?;
                Ok(piece.len())
            }
        }
    }

    /// Ends the line that is read with some bytes: it waits, or it has a fault.
    fn end_line(&mut self, front: &[u8]) -> Result<(), LineFault>
        requires sound { self.old.fault ≡ None }
        requires few { self.old.taken < 2 ^ 63 }
        ensures answer { IsAnswer result (answer tt (ended self.old (self.old.held ++ front.now)).fault) }
        ensures state { self.new ≡ cond (is_memory result) self.old (ended self.old (self.old.held ++ front.now)) }
    {
        let number = self.taken + 1;
        if front.len() > LONGEST_LINE - self.held.len() {
            return Err(self.stop(BadLine::TooLong(number)));
        }
        match self.whole_line(front)? {
            Some(line) => {
                self.held.clear();
                self.waiting = Some(line);
                self.taken = number;
                Ok(())
            }
            None => Err(self.stop(BadLine::NotALine(number))),
        }
    }

    /// The line of the held part with some bytes behind it. The reader stays as it is.
    fn whole_line(&mut self, front: &[u8]) -> Result<Option<CertLine>, Memory>
        ensures line { IfOk result (λ o. option_map line_view o ≡ line_of (self.old.held ++ front.now)) }
        ensures state { self.new ≡ self.old }
    {
        if self.held.is_empty() {
            return read_line(self.alloc, front);
        }
        let start = self.held.len();
        self.held.extend_from_slice(front)?;
        let line = read_line(self.alloc, self.held.as_slice());
        self.held.truncate(start);
        line
    }

    /// Puts bytes without a line feed to the part that is held.
    fn grow(&mut self, piece: &[u8]) -> Result<(), LineFault>
        requires sound { self.old.fault ≡ None }
        requires idle { self.old.waiting ≡ None }
        requires few { self.old.taken < 2 ^ 63 }
        ensures answer { IsAnswer result (answer tt (grown self.old (self.old.held ++ piece.now)).fault) }
        ensures state { self.new ≡ cond (is_memory result) self.old (grown self.old (self.old.held ++ piece.now)) }
    {
        if piece.len() > LONGEST_LINE - self.held.len() {
            return Err(self.stop(BadLine::TooLong(self.taken + 1)));
        }
        self.held.extend_from_slice(piece)?;
        Ok(())
    }

    /// Keeps a fault, and lets go of the rest.
    fn stop(&mut self, bad: BadLine) -> LineFault
        ensures fault { result ≡ fault_view (bad_view bad) }
        ensures state { self.new ≡ stopped self.old (bad_view bad) }
    {
        self.held.clear();
        self.waiting = None;
        self.bad = Some(bad);
        fault_of(bad)
    }
}

fn fault_of(bad: BadLine) -> LineFault
    ensures { result ≡ fault_view (bad_view bad) }
{
    match bad {
        BadLine::NotALine(line) => LineFault::NotALine(line),
        BadLine::TooLong(line) => LineFault::LineTooLong(line),
    }
}
