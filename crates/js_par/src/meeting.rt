//! A gate for tests, which shows that items are answered at once.

use crate::gate::Gate;
use std::sync::atomic::{AtomicU64, Ordering};

/// Lets the first items pass, and holds each of the next ones until all that are awaited have come: so it is met only
/// where these are answered by threads that run at once. An item that waits for 100,000,000 turns is late, and passes.
#[derive(Drop)]
pub struct Meeting {
    passing: u64,
    all: u64,
    come: AtomicU64,
    left: AtomicU64,
    late: AtomicU64,
    early: AtomicU64,
    /// Of the items that meet, two to the power of each one's number, added when it comes and when it leaves.
    numbers_come: AtomicU64,
    numbers_left: AtomicU64,
}

impl Meeting {
    /// `passing` items pass, and as many as `awaited` of the next ones meet.
    pub fn new(passing: u32, awaited: u32) -> Meeting {
        Meeting {
            passing: u64::from(passing),
            all: u64::from(passing) + u64::from(awaited),
            come: AtomicU64::new(0),
            left: AtomicU64::new(0),
            late: AtomicU64::new(0),
            early: AtomicU64::new(0),
            numbers_come: AtomicU64::new(0),
            numbers_left: AtomicU64::new(0),
        }
    }

    /// An item comes. Answers whether it is one of those that meet.
    pub fn wait(&self) -> bool {
        if self.come.fetch_add(1, Ordering::SeqCst) < self.passing {
            return false;
        }
        for _ in 0..100_000_000u64 {
            if self.all_have_come() {
                return true;
            }
        }
        self.late.fetch_add(1, Ordering::SeqCst);
        true
    }

    /// An item leaves. Answers whether it is one of those that meet.
    pub fn go(&self) -> bool {
        let left = self.left.fetch_add(1, Ordering::SeqCst);
        if left < self.passing {
            return false;
        }
        if !self.all_have_come() {
            self.early.fetch_add(1, Ordering::SeqCst);
        }
        true
    }

    /// As many came as pass and meet and no more, all of them left, none waited in vain, and of those that meet none
    /// left before all had come.
    pub fn was_met(&self) -> bool {
        self.come.load(Ordering::SeqCst) == self.all
            && self.left.load(Ordering::SeqCst) == self.all
            && self.late.load(Ordering::SeqCst) == 0
            && self.early.load(Ordering::SeqCst) == 0
    }

    /// At the gate it was each of the items with numbers from 0 on that met, and none of them twice.
    pub fn was_each_met(&self) -> bool {
        let all = two_to(self.all.saturating_sub(self.passing)).saturating_sub(1);
        self.was_met()
            && self.numbers_come.load(Ordering::SeqCst) == all
            && self.numbers_left.load(Ordering::SeqCst) == all
    }

    fn all_have_come(&self) -> bool {
        self.come.load(Ordering::SeqCst) >= self.all
    }
}

impl Gate for Meeting {
    fn enter(&self, item: usize) {
        if self.wait() {
            self.numbers_come
                .fetch_add(two_to(item as u64), Ordering::SeqCst);
        }
    }

    fn leave(&self, item: usize) {
        if self.go() {
            self.numbers_left
                .fetch_add(two_to(item as u64), Ordering::SeqCst);
        }
    }
}

/// Two to the power of a number below 32, and 0 for others.
fn two_to(number: u64) -> u64 {
    if number < 32 { 1 << number } else { 0 }
}
