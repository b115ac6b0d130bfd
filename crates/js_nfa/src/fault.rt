//! Why a pattern has no automaton.

use std::alloc::AllocError;
use thiserror::Error;

/// The pattern has too many positions, or there is no memory.
#[derive(Clone, Copy, PartialEq, Eq, Debug, Error)]
pub enum NfaFault {
    /// There are more than 16,384 positions.
    #[error("a pattern with more than 16384 positions")]
    LimitPositions,
    /// Memory was requested and refused.
    #[error("out of memory")]
    Memory,
}

impl From<js_pattern::Memory> for NfaFault {
    ghost use Rattle.std.specs.Prelude.{◌≡◌};
    ghost use Rattle.js_nfa.specs.declared.fault.NfaFault.TheVariants as fault;

    ghost from_gives = { λ _ made. made ≡ fault.Memory };

    fn from(_: js_pattern::Memory) -> NfaFault {
        NfaFault::Memory
    }
}
