//! Lines cut into entries.

ghost use Rattle.std.specs.Prelude.{◌≡◌, ◌≤◌, length, IfOk};
ghost use Rattle.js_checker.specs.Entries.{joined};

use js_lines::CertLine;
use std::alloc::{AllocError, Global};

/// Lines of a certificate, one after another, and the number of the goal that the first of them enters.
#[derive(Clone, Copy)]
pub(crate) struct Piece<'a> {
    pub number: u32,
    pub lines: &'a [CertLine],
}

/// How many lines come before the first one that enters a goal.
pub(crate) fn lines_before_entries(lines: &[CertLine]) -> usize
    ensures { result ≤ length lines.now }
{
    for i in 0..lines.len() {
        if enters_goal(&lines[i]) {
            return i;
        }
    }
    lines.len()
}

/// How many lines are dealt to workers: those before the first line `end`. Where there is none, the last entry may go
/// on behind the lines, and then its lines are judged once more, one by one; so it is dealt only where it is no longer
/// than what comes before it.
pub(crate) fn lines_to_deal(lines: &[CertLine]) -> usize
    ensures { result ≤ length lines.now }
{
    let end = lines_before_end(lines);
    let last = lines_before_last_entry(lines);
    if end == lines.len() && end - last > last {
        last
    } else {
        end
    }
}

/// How many lines come before the first line `end`.
fn lines_before_end(lines: &[CertLine]) -> usize
    ensures { result ≤ length lines.now }
{
    for i in 0..lines.len() {
        if let CertLine::End = &lines[i] {
            return i;
        }
    }
    lines.len()
}

/// How many lines come before the last one that enters a goal; none, where there is no such line.
fn lines_before_last_entry(lines: &[CertLine]) -> usize
    ensures { result ≤ length lines.now }
{
    for i in (0..lines.len()).rev() {
        if enters_goal(&lines[i]) {
            return i;
        }
    }
    0
}

/// The lines, cut before each one that enters a goal.
pub(crate) fn cut_entries(alloc: Global, lines: &[CertLine]) -> Result<Vec<Piece<'_>>, AllocError>
    ensures { IfOk result (λ pieces. joined pieces.items ≡ lines.now) }
{
    let mut pieces = Vec::new(alloc);
    let mut begun = 0;
    for at in 1..lines.len() {
        if enters_goal(&lines[at]) {
            pieces.push(piece_of(&lines[begun..at]))?;
            begun = at;
        }
    }
    pieces.push(piece_of(&lines[begun..]))?;
    Ok(pieces)
}

/// The lines as a piece, with the number that the first of them states.
fn piece_of(lines: &[CertLine]) -> Piece<'_>
    ensures { result.lines.now ≡ lines.now }
{
    let number = match lines.first() {
        Some(CertLine::Entry(number)) => *number,
        _ => 0,
    };
    Piece { number, lines }
}

fn enters_goal(line: &CertLine) -> bool {
    match line {
        CertLine::Entry(_) => true,
        _ => false,
    }
}
