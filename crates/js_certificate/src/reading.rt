//! A part of a piece is read, up to a line's end.

ghost use Rattle.std.specs.Prelude.{◌≡◌, ◌<◌, ◌≤◌, ◌+◌, ◌^◌, ℕ, List, ◌++◌, length, take, true, Some, None, is_none, option_to_list, OnOk, IfOk, IfErr};
ghost use Rattle.certificate_lines.specs.Line.{Line};
ghost use Rattle.certificate_lines.specs.Cut.{Stands};
ghost use Rattle.certificate_lines.specs.Reader.{fed, read_count};
ghost use Rattle.js_certificate.specs.Broken.{told, IsLineFault};

use js_checker::CheckFault;
use js_lines::{LineFault, LineReader};
use js_rules::Rule;

/// Reads the bytes of a piece up to and with the first line feed, or all where there is none, and answers how many.
pub(crate) fn read_part(reader: &mut LineReader, piece: &[u8]) -> Result<usize, CheckFault>
    requires idle { is_none reader.old.waiting ≡ true }
    requires sound { is_none reader.old.fault ≡ true }
    requires few { reader.old.taken < 2 ^ 63 }
    ensures count { IfOk result (λ count. count ≡ read_count piece.now) }
    ensures within { IfOk result (λ count. count ≤ length piece.now) }
    ensures sound { OnOk result (is_none reader.new.fault ≡ true) }
    ensures stands { OnOk result ((bytes : List ℕ) (ls : List Line) → Stands bytes ls reader.old
        → Stands (bytes ++ take (read_count piece.now) piece.now) (ls ++ option_to_list reader.new.waiting)
        reader.new) }
    ensures taken { OnOk result (reader.new.taken ≤ reader.old.taken + 1) }
    ensures broken { IfErr result (IsLineFault (fed reader.old piece.now).fault) }
{
    match reader.feed(piece) {
        Ok(count) => Ok(count),
        Err(fault) => Err(told(fault)),
    }
}

/// What is reported of a fault of a reader. That bytes end within a line isn't met while they are read.
fn told(fault: LineFault) -> CheckFault
    ensures { result ≡ told fault }
{
    match fault {
        LineFault::NotALine(line) => CheckFault::Rejected(line, Rule::NotALine.number()),
        LineFault::LineTooLong(line) => CheckFault::Rejected(line, Rule::TooLong.number()),
        LineFault::Unfinished | LineFault::Memory => CheckFault::Memory,
    }
}
