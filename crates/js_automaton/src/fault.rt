//! Why a list of atoms has no automaton.

use js_nfa::NfaFault;
use std::alloc::{AllocError, AllocFailed};
use thiserror::Error;

/// The atoms are beyond a limit, or there is no memory.
#[derive(Clone, Copy, PartialEq, Eq, Debug, Error)]
pub enum AutoFault {
    /// The patterns have more than 16,384 positions together.
    #[error("patterns with more than 16384 positions")]
    LimitPositions,
    /// There are more than 1,024 classes of characters.
    #[error("more than 1024 classes of characters")]
    LimitClasses,
    /// Words reach more than 65,536 states.
    #[error("more than 65536 states")]
    LimitStates,
    /// Memory was requested and refused.
    #[error("out of memory")]
    Memory,
}

impl From<js_pattern::Memory> for AutoFault {
    ghost use Rattle.std.specs.Prelude.{◌≡◌};
    ghost use Rattle.js_automaton.specs.declared.fault.AutoFault.TheVariants as fault;

    ghost from_gives = { λ _ made. made ≡ fault.Memory };

    fn from(_: js_pattern::Memory) -> AutoFault {
        AutoFault::Memory
    }
}

impl From<js_doc::Memory> for AutoFault {
    ghost use Rattle.std.specs.Prelude.{◌≡◌};
    ghost use Rattle.js_automaton.specs.declared.fault.AutoFault.TheVariants as fault;

    ghost from_gives = { λ _ made. made ≡ fault.Memory };

    fn from(_: js_doc::Memory) -> AutoFault {
        AutoFault::Memory
    }
}

impl From<AllocError> for AutoFault {
    ghost use Rattle.std.specs.Prelude.{◌≡◌};
    ghost use Rattle.js_automaton.specs.declared.fault.AutoFault.TheVariants as fault;

    ghost from_gives = { λ _ made. made ≡ fault.Memory };

    fn from(_: AllocError) -> AutoFault {
        AutoFault::Memory
    }
}

impl<T: Drop> From<AllocFailed<T>> for AutoFault {
    ghost use Rattle.std.specs.Prelude.{◌≡◌};
    ghost use Rattle.js_automaton.specs.declared.fault.AutoFault.TheVariants as fault;

    ghost from_gives = { λ _ made. made ≡ fault.Memory };

    fn from(_: AllocFailed<T>) -> AutoFault {
        AutoFault::Memory
    }
}

impl From<NfaFault> for AutoFault {
    ghost use Rattle.js_automaton.specs.Faults.{Becomes};

    ghost from_gives = { λ fault made. Becomes fault made };

    fn from(fault: NfaFault) -> AutoFault {
        match fault {
            NfaFault::LimitPositions => AutoFault::LimitPositions,
            NfaFault::Memory => AutoFault::Memory,
        }
    }
}
