//! That two threads run at once, shown by a gate that waits until both have come; and the answers of a concrete task.

ghost use Rattle.std.specs.Prelude.{◌≡◌, ◌+◌, ◌*◌, ◌%◌, ◌<◌, false};
ghost use Rattle.std.proofs.Common.{◌∙◌, sym};

use crate::gate::OpenGate;
use crate::map::map_items;
use crate::meeting::Meeting;
use crate::task::Task;
use js_doc::Memory;
use std::test::Fail;
use std::thread::Threads;

/// Doubles, and waits inside its answer too.
#[derive(Drop)]
struct Doubling<'a> {
    meeting: &'a Meeting,
}

impl Task for Doubling<'_> {
    type Item = u32;

    type Answer = u64;

    ghost takes = { λ _ _. Unit {0} };

    ghost gives = { λ _ item answer. answer ≡ 2 * item };

    ghost lacks_memory = { λ _. false };

    ghost one_answer = { λ _ _ _ _ p q _ _. p ∙ sym q };

    fn answer(&self, item: &u32) -> u64 {
        self.meeting.wait();
        self.meeting.go();
        u64::from(*item) * 2
    }
}

#[test]
fn two_threads_run(rt: HostRuntime) -> Result<(), Fail> {
    let at_gate = Meeting::new(0, 2);
    let inside = Meeting::new(0, 2);
    let task = Doubling { meeting: &inside };
    let answers = map_items(&rt, rt.alloc(), &task, &at_gate, &[5, 7], 2)?;
    assert!(rt; at_gate.was_each_met());
    assert!(rt; inside.was_met());
    assert_eq!(rt; answers.as_slice(), [10, 14].as_slice());
    Ok(())
}

#[test]
fn one_worker_never_meets(rt: HostRuntime) -> Result<(), Fail> {
    let at_gate = Meeting::new(0, 2);
    let inside = Meeting::new(0, 0);
    let task = Doubling { meeting: &inside };
    let answers = map_items(&rt, rt.alloc(), &task, &at_gate, &[5, 7], 1)?;
    assert!(rt; !at_gate.was_met());
    assert_eq!(rt; answers.as_slice(), [10, 14].as_slice());
    Ok(())
}

#[test]
fn sixty_four_workers_on_few_items(rt: HostRuntime) -> Result<(), Fail> {
    let inside = Meeting::new(0, 0);
    let task = Doubling { meeting: &inside };
    let answers = map_items(&rt, rt.alloc(), &task, &OpenGate, &[1, 2, 3], 64)?;
    assert_eq!(rt; answers.as_slice(), [2, 4, 6].as_slice());
    let none = map_items(&rt, rt.alloc(), &task, &OpenGate, &[], 64)?;
    assert_eq!(rt; none.as_slice().len(), 0);
    Ok(())
}
