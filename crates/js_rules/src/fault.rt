//! Why a line isn't taken.

use crate::rule::Rule;
use js_doc::Memory;
use std::alloc::{AllocError, AllocFailed};
use thiserror::Error;

/// A line breaks a rule, or there is no memory.
#[derive(Clone, Copy, PartialEq, Eq, Debug, Error)]
pub enum RuleFault {
    /// The line breaks this rule, and none before it.
    #[error("a rule is broken")]
    Breaks(Rule),
    /// Memory was requested and refused.
    #[error("out of memory")]
    Memory,
}

impl From<Memory> for RuleFault {
    ghost use Rattle.std.specs.Prelude.{◌≡◌};
    ghost use Rattle.js_rules.specs.declared.fault.RuleFault.TheVariants as fault;

    ghost from_gives = { λ _ made. made ≡ fault.Memory };

    fn from(_: Memory) -> RuleFault {
        RuleFault::Memory
    }
}

impl From<AllocError> for RuleFault {
    ghost use Rattle.std.specs.Prelude.{◌≡◌};
    ghost use Rattle.js_rules.specs.declared.fault.RuleFault.TheVariants as fault;

    ghost from_gives = { λ _ made. made ≡ fault.Memory };

    fn from(_: AllocError) -> RuleFault {
        RuleFault::Memory
    }
}

impl<T: Drop> From<AllocFailed<T>> for RuleFault {
    ghost use Rattle.std.specs.Prelude.{◌≡◌};
    ghost use Rattle.js_rules.specs.declared.fault.RuleFault.TheVariants as fault;

    ghost from_gives = { λ _ made. made ≡ fault.Memory };

    fn from(_: AllocFailed<T>) -> RuleFault {
        RuleFault::Memory
    }
}
