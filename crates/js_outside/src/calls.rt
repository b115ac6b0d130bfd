//! Calls that are to fail, by their numbers.

ghost use Rattle.std.specs.Prelude.{◌≡◌, ◌==◌};
ghost use Rattle.std.specs.List.{list_any};
ghost use Rattle.js_outside.specs.InMemory.{is_due, counted};

use crate::faults::raised;
use std::marker::Model;

/// A list of call numbers.
#[derive(Drop)]
pub struct CallList {
    calls: Vec<u64>,
}

impl Model for CallList {
    ghost use Rattle.std.specs.Prelude.{ℕ, List};

    ghost Value = { List ℕ };

    ghost view = { λ l. l.calls.items };
}

impl CallList {
    /// The calls of these numbers, counted from 0, in any order and with repeats.
    pub fn from_vec(calls: Vec<u64>) -> CallList
        ensures { result ≡ calls.items }
    {
        CallList { calls }
    }

    /// Gives the vector back, without a copy.
    pub fn into_vec(self) -> Vec<u64>
        ensures { result.items ≡ self }
    {
        let CallList { calls } = self;
        calls
    }

    /// Whether the call of that number is listed, in time in proportion to the list.
    pub fn contains(&self, call: u64) -> bool
        ensures { result ≡ list_any (λ listed. listed == call) self.now }
    {
        self.calls.iter().any(|listed| *listed == call)
    }
}

/// The calls that are to fail, and how many calls were made. Calls are numbered from 0.
#[derive(Drop)]
pub(crate) struct Plan {
    fail: CallList,
    made: u64,
}

impl Model for Plan {
    ghost use Rattle.js_outside.specs.InMemory.{PlanState};

    ghost Value = { PlanState };

    ghost view = { λ p. record { fail = p.fail; made = p.made } };
}

impl Plan {
    pub(crate) fn new(fail: CallList) -> Plan
        ensures { result ≡ record { fail = fail; made = 0 } }
    {
        Plan { fail, made: 0 }
    }

    /// Counts a call, and says whether it is to fail.
    pub(crate) fn is_due(&mut self) -> bool
        ensures answer { result ≡ is_due self.old }
        ensures counted { self.new ≡ counted self.old }
    {
        let due = self.fail.contains(self.made);
        self.made = raised(self.made);
        due
    }
}
