//! What is wrong with the rows of a certificate.

use js_automaton::AutoFault;
use js_doc::Memory;
use std::alloc::{AllocError, AllocFailed};
use thiserror::Error;

/// Why rows, or labels of rows, aren't right; or there is no memory.
#[derive(Clone, Copy, PartialEq, Eq, Debug, Error)]
pub enum RowFault {
    /// There are to be no rows, or the atoms have more positions or classes than an automaton may have.
    #[error("no rows, or too many positions or classes")]
    Start,
    /// No row that was mentioned is left to be stated, or the line hasn't a target for each class.
    #[error("a row that was not mentioned, or another number of targets than classes")]
    Width,
    /// The target of this class, the first such, isn't the row to which the row leads.
    #[error("a wrong target at class {0}")]
    Step(u32),
    /// The least length of this row, the first such, is missing, is one too many or is too great.
    #[error("a wrong least length of row {0}")]
    Least(u32),
    /// The bound of this row, the first such, is missing, is one too many or is too small.
    #[error("a wrong bound of row {0}")]
    Capacity(u32),
    /// Memory was requested and refused.
    #[error("out of memory")]
    Memory,
}

impl From<Memory> for RowFault {
    ghost use Rattle.std.specs.Prelude.{◌≡◌};
    ghost use Rattle.js_check_rows.specs.declared.fault.RowFault.TheVariants as fault;

    ghost from_gives = { λ _ made. made ≡ fault.Memory };

    fn from(_: Memory) -> RowFault {
        RowFault::Memory
    }
}

impl From<AllocError> for RowFault {
    ghost use Rattle.std.specs.Prelude.{◌≡◌};
    ghost use Rattle.js_check_rows.specs.declared.fault.RowFault.TheVariants as fault;

    ghost from_gives = { λ _ made. made ≡ fault.Memory };

    fn from(_: AllocError) -> RowFault {
        RowFault::Memory
    }
}

impl<T: Drop> From<AllocFailed<T>> for RowFault {
    ghost use Rattle.std.specs.Prelude.{◌≡◌};
    ghost use Rattle.js_check_rows.specs.declared.fault.RowFault.TheVariants as fault;

    ghost from_gives = { λ _ made. made ≡ fault.Memory };

    fn from(_: AllocFailed<T>) -> RowFault {
        RowFault::Memory
    }
}

impl From<AutoFault> for RowFault {
    ghost use Rattle.js_check_rows.specs.Faults.{Becomes};

    ghost from_gives = { λ fault made. Becomes fault made };

    fn from(fault: AutoFault) -> RowFault {
        match fault {
            AutoFault::LimitPositions => RowFault::Start,
            AutoFault::LimitClasses => RowFault::Start,
            AutoFault::LimitStates => RowFault::Start,
            AutoFault::Memory => RowFault::Memory,
        }
    }
}
