//! The verdict on a certificate's pieces.

ghost use Rattle.std.specs.Prelude.{◌<◌, length};

use crate::bytes::{Piece, piece_of};
use js_algebra::{Core, Pos};
use js_certificate::CertificateJudge;
use js_checker::CheckFault;
use js_doc::{Json, Memory};
use js_par::{OpenGate, Workers};
use std::alloc::Global;
use std::thread::Threads;

/// So many bytes at most are given to a judge, and at once.
const MOST: u64 = 1 << 62;

/// How many workers judge each certificate once more.
const SEVERAL: u32 = 4;

/// What ends the judging of pieces early.
enum Stop {
    Rejected(u64, u8),
    NoPiece,
    Memory,
}

impl From<Memory> for Stop {
    fn from(_: Memory) -> Stop {
        Stop::Memory
    }
}

impl From<CheckFault> for Stop {
    fn from(fault: CheckFault) -> Stop {
        match fault {
            CheckFault::Rejected(line, rule) => Stop::Rejected(line, rule),
            CheckFault::Memory => Stop::Memory,
        }
    }
}

/// What is printed of a certificate that is to show that every document of which `a` holds has `b` holding. Where
/// several workers come to another verdict than one, both are.
pub(crate) fn verdict_text<R: Threads + Sync>(
    rt: &R,
    alloc: Global,
    core: &Core,
    a: Pos,
    b: Pos,
    pieces: &[Json],
) -> Result<String, Memory>
    requires a { a.0 < length core.now.positions }
    requires b { b.0 < length core.now.positions }
{
    let one = Workers::new(rt, &OpenGate, 1);
    let mut text = text_by(&one, alloc, core, a, b, pieces)?;
    let several = Workers::new(rt, &OpenGate, SEVERAL);
    let other = text_by(&several, alloc, core, a, b, pieces)?;
    if text.as_str() != other.as_str() {
        let other = other.as_str();
        write!(text, ", by {SEVERAL} workers {other}")?;
    }
    Ok(text)
}

/// The verdict of so many workers.
fn text_by<R: Threads + Sync>(
    workers: &Workers<'_, R, OpenGate>,
    alloc: Global,
    core: &Core,
    a: Pos,
    b: Pos,
    pieces: &[Json],
) -> Result<String, Memory>
    requires a { a.0 < length core.now.positions }
    requires b { b.0 < length core.now.positions }
{
    let mut judge = CertificateJudge::new(alloc, core, a, b);
    let verdict = judge_pieces(workers, alloc, &mut judge, pieces);
    drop(judge);
    let mut text = String::new(alloc);
    match verdict {
        Ok(()) => text.push_str("accepted")?,
        Err(Stop::Rejected(line, rule)) => write!(text, "rejected {line} {rule}")?,
        Err(Stop::NoPiece) => text.push_str("refused")?,
        Err(Stop::Memory) => return Err(Memory),
    }
    Ok(text)
}

fn judge_pieces<R: Threads + Sync>(
    workers: &Workers<'_, R, OpenGate>,
    alloc: Global,
    judge: &mut CertificateJudge<'_>,
    pieces: &[Json],
) -> Result<(), Stop> {
    for json in pieces {
        match piece_of(alloc, json)? {
            Some(piece) => judge_piece(workers, alloc, judge, &piece)?,
            None => return Err(Stop::NoPiece),
        }
    }
    judge.finish(workers, alloc)?;
    Ok(())
}

fn judge_piece<R: Threads + Sync>(
    workers: &Workers<'_, R, OpenGate>,
    alloc: Global,
    judge: &mut CertificateJudge<'_>,
    piece: &Piece,
) -> Result<(), Stop> {
    for _ in 0..piece.times {
        if piece.bytes.len() as u64 >= MOST || judge.bytes() >= MOST {
            return Err(Stop::Memory);
        }
        judge.take(workers, alloc, &piece.bytes)?;
    }
    Ok(())
}
