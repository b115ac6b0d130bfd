//! Entries of a certificate, each checked by itself.

ghost use Rattle.std.specs.Prelude.{◌≡◌, map, length, true, IfOk, MatchBool};
ghost use Rattle.documents.specs.Kind.{all_kinds};
ghost use Rattle.documents.specs.Tests.{every};
ghost use Rattle.certificate_lines.specs.Line as L;
ghost use Rattle.js_algebra.specs.View.{are_in_table};
ghost use Rattle.js_lines.specs.View.{line_view};
ghost use Rattle.js_checker.specs.EntryView.{kind_duties};
ghost use Rattle.js_checker.specs.Entries.{do_all, is_entry, EntersNone, AllFound};

use crate::entry::EntryCheck;
use crate::piece::Piece;
use js_algebra::{Core, Goal};
use js_doc::Memory;
use js_lines::CertLine;
use js_par::{Answers, Gate, Task, Workers, map_items};
use std::alloc::Global;
use std::marker::PhantomData;
use std::thread::Threads;

/// Checks whether pieces are entries of the goals that a certificate lists. What it finds of one depends on nothing
/// before it. Lines live as long as `'l`.
#[derive(Drop)]
struct Entries<'a, 'l> {
    alloc: Global,
    core: &'a Core,
    goals: &'a [Goal],
    lines: PhantomData<&'l [CertLine]>,
}

impl<'l> Task for Entries<'_, 'l> {
    type Item = Piece<'l>;

    type Answer = Result<bool, Memory>;

    ghost use Rattle.std.specs.Prelude.{◌≡◌, true, is_err};
    ghost use Rattle.documents.specs.Tests.{every};
    ghost use Rattle.js_algebra.specs.View.{are_in_table};
    ghost use Rattle.js_checker.specs.Entries.{lines_in, is_entry, Finds, one_answer};

    ghost takes = { λ task _. every (are_in_table task.core.now.positions) task.goals.now ≡ true };

    ghost gives = { λ task piece answer. Finds task.core.now.positions task.goals.now piece answer };

    ghost lacks_memory = { is_err };

    ghost one_answer = { λ task piece. one_answer
        (is_entry task.core.now.positions task.goals.now piece.number (lines_in piece)) };

    fn answer(&self, piece: &Piece<'l>) -> Result<bool, Memory> {
        is_entry(self.alloc, self.core, self.goals, piece.number, piece.lines)
    }
}

/// Whether each piece is the entry of its number, found by several workers.
pub(crate) fn find_entries<R: Threads + Sync, G: Gate + Sync>(
    workers: &Workers<'_, R, G>,
    alloc: Global,
    core: &Core,
    goals: &[Goal],
    pieces: &[Piece<'_>],
) -> Result<Answers<Result<bool, Memory>>, Memory>
    requires { every (are_in_table core.now.positions) goals.now ≡ true }
    ensures count { IfOk result (λ v. length v ≡ length pieces.now) }
    ensures each { IfOk result (AllFound core.now.positions goals.now pieces.now) }
{
    let task = Entries {
        alloc,
        core,
        goals,
        lines: PhantomData,
    };
    map_items(
        workers.rt,
        alloc,
        &task,
        workers.gate,
        pieces,
        workers.count,
    )
}

/// Whether the lines are the whole entry of the goal of that number.
fn is_entry(
    alloc: Global,
    core: &Core,
    goals: &[Goal],
    number: u32,
    lines: &[CertLine],
) -> Result<bool, Memory>
    requires { every (are_in_table core.now.positions) goals.now ≡ true }
    ensures { IfOk result (λ b. b ≡ is_entry core.now.positions goals.now number (map line_view lines.now)) }
{
    if number as usize >= goals.len() {
        return Ok(false);
    }
    let Some((first, rest)) = lines.split_first() else {
        return Ok(false);
    };
    if !enters(first, number) {
        return Ok(false);
    }
    do_all(alloc, core, goals, &goals[number as usize], rest)
}

/// Whether the line enters the goal of that number.
fn enters(line: &CertLine, number: u32) -> bool
    ensures { MatchBool result (line_view line.now ≡ L.Entry number) (EntersNone number (line_view line.now)) }
{
    match line {
        CertLine::Entry(entered) => *entered == number,
        _ => false,
    }
}

/// Whether the lines show the goal at each kind, and are no more than that takes.
fn do_all(
    alloc: Global,
    core: &Core,
    goals: &[Goal],
    goal: &Goal,
    lines: &[CertLine],
) -> Result<bool, Memory>
    requires { are_in_table core.now.positions goal.now ≡ true }
    ensures { IfOk result (λ b. b ≡ do_all core.now.positions goals.now (kind_duties goal.now all_kinds)
        (map line_view lines.now)) }
{
    let mut entry = EntryCheck::new(alloc, core);
    entry.begin();
    let done = entry.take_all(alloc, core, goals, goal, lines);
    // By a call, so that what an entry holds is no matter of this function.
    drop(entry);
    done
}
