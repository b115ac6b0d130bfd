//! Entries that are checked at once, shown by a gate that waits until two have come; and the same answers by any number
//! of workers.

ghost use Rattle.std.specs.Prelude.{◌≡◌, ◌<◌, ◌≤◌, IfOk, length, vec_len};

use js_algebra::{Core, JsonKind, KindList, Node, NodeList, Pos, RankList, Signed, SignedList};
use js_checker::{Accepted, CheckFault, Checker};
use js_lines::{CertLine, Version};
use js_par::{Meeting, OpenGate, Workers};
use std::alloc::{AllocError, Global};
use std::test::Fail;
use std::thread::Threads;

/// Two positions that hold of nothing.
fn table(alloc: Global) -> Result<Core, Fail>
    ensures { IfOk result (λ core. length core.positions ≡ 2) }
{
    let first = KindList::from_vec(Vec::new(alloc));
    let second = KindList::from_vec(Vec::new(alloc));
    let nodes = vec![in alloc; Node::Types(first), Node::Types(second)]?;
    let ranks = vec![in alloc; 0, 0]?;
    Ok(Core::make(alloc, NodeList::from_vec(nodes), RankList::from_vec(ranks))?)
}

/// A certificate that lists both positions, with an entry for each; the first entry has the number `first`.
fn certificate(alloc: Global, first: u32) -> Result<Vec<CertLine>, AllocError> {
    let mut lines = Vec::new(alloc);
    lines.push(CertLine::Certificate(Version::One))?;
    lines.push(CertLine::Goals(2))?;
    lines.push(CertLine::Goal(SignedList::from_vec(vec![in alloc; Signed::plus(Pos(0))]?)))?;
    lines.push(CertLine::Goal(SignedList::from_vec(vec![in alloc; Signed::plus(Pos(1))]?)))?;
    push_entry(&mut lines, first, Pos(0))?;
    push_entry(&mut lines, 1, Pos(1))?;
    lines.push(CertLine::End)?;
    Ok(lines)
}

fn push_entry(lines: &mut Vec<CertLine>, number: u32, position: Pos) -> Result<(), AllocError> {
    lines.push(CertLine::Entry(number))?;
    for kind in [
        JsonKind::Null,
        JsonKind::Boolean,
        JsonKind::Number,
        JsonKind::Text,
        JsonKind::Array,
        JsonKind::Object,
    ] {
        lines.push(CertLine::At(kind))?;
        lines.push(CertLine::Kind(Signed::plus(position)))?;
    }
    Ok(())
}

fn set(lines: &mut Vec<CertLine>, at: usize, line: CertLine) {
    if at < lines.len() {
        lines[at] = line;
    }
}

/// What is reported of lines by so many workers.
fn told<R: Threads + Sync>(
    rt: &R,
    alloc: Global,
    core: &Core,
    lines: &[CertLine],
    count: u32,
) -> Result<Accepted, CheckFault>
    requires table { length core.now.positions ≡ 2 }
    requires some { 1 ≤ count }
    requires few { count ≤ 64 }
{
    let gate = &OpenGate;
    let workers = Workers { rt, gate, count };
    let mut checker = Checker::new(alloc, core, Pos(0), Pos(1));
    checker.take_all(&workers, alloc, lines)?;
    checker.finish()
}

#[test]
fn two_entries_at_once(rt: HostRuntime) -> Result<(), Fail> {
    let core = table(rt.alloc())?;
    let lines = certificate(rt.alloc(), 0)?;
    let gate = Meeting::new(0, 2);
    let workers = Workers {
        rt: &rt,
        gate: &gate,
        count: 2,
    };
    let mut checker = Checker::new(rt.alloc(), &core, Pos(0), Pos(1));
    assert_eq!(rt;
        checker.take_all(&workers, rt.alloc(), lines.as_slice()),
        Ok(())
    );
    assert_eq!(rt; checker.finish(), Ok(Accepted));
    assert!(rt; gate.was_each_met());
    Ok(())
}

#[test]
fn one_worker_asks_for_no_thread(rt: HostRuntime) -> Result<(), Fail> {
    let core = table(rt.alloc())?;
    let lines = certificate(rt.alloc(), 0)?;
    let gate = Meeting::new(0, 0);
    let workers = Workers {
        rt: &rt,
        gate: &gate,
        count: 1,
    };
    let mut checker = Checker::new(rt.alloc(), &core, Pos(0), Pos(1));
    assert_eq!(rt;
        checker.take_all(&workers, rt.alloc(), lines.as_slice()),
        Ok(())
    );
    assert_eq!(rt; checker.finish(), Ok(Accepted));
    assert!(rt; gate.was_each_met());
    Ok(())
}

/// The first fault is reported, whatever the number of workers.
#[test]
fn the_first_fault_is_told(rt: HostRuntime) -> Result<(), Fail> {
    let core = table(rt.alloc())?;
    let wrong_number = certificate(rt.alloc(), 1)?;
    let mut cut = certificate(rt.alloc(), 0)?;
    cut.truncate(23);
    let mut behind_end = certificate(rt.alloc(), 0)?;
    push_entry(&mut behind_end, 0, Pos(0))?;
    let mut wrong_twice = certificate(rt.alloc(), 0)?;
    set(&mut wrong_twice, 8, CertLine::At(JsonKind::Null));
    set(&mut wrong_twice, 20, CertLine::Bool);
    for count in [1, 2, 64] {
        let wrong = told(&rt, rt.alloc(), &core, wrong_number.as_slice(), count);
        assert_eq!(rt; wrong, Err(CheckFault::Rejected(5, 7)));
        let short = told(&rt, rt.alloc(), &core, cut.as_slice(), count);
        assert_eq!(rt; short, Err(CheckFault::Rejected(24, 3)));
        let long = told(&rt, rt.alloc(), &core, behind_end.as_slice(), count);
        assert_eq!(rt; long, Err(CheckFault::Rejected(32, 4)));
        let twice = told(&rt, rt.alloc(), &core, wrong_twice.as_slice(), count);
        assert_eq!(rt; twice, Err(CheckFault::Rejected(9, 4)));
    }
    Ok(())
}
