//! Why a branch has no list of alternatives.

use js_plans::PlanFault;
use std::alloc::{AllocError, AllocFailed};
use thiserror::Error;

/// The count or the plans are beyond a limit, or there is no memory.
#[derive(Clone, Copy, PartialEq, Eq, Debug, Error)]
pub enum ArrayFault {
    /// The branch requires more than 65,536 elements.
    #[error("more than 65536 elements")]
    LimitCounts,
    /// The tree of plans has more than 65,536 ends, dropped plans included.
    #[error("a tree of plans with more than 65536 ends")]
    LimitPlans,
    /// Memory was requested and refused.
    #[error("out of memory")]
    Memory,
}

impl From<js_doc::Memory> for ArrayFault {
    ghost use Rattle.std.specs.Prelude.{◌≡◌};
    ghost use Rattle.js_arrays.specs.declared.fault.ArrayFault.TheVariants as fault;

    ghost from_gives = { λ _ made. made ≡ fault.Memory };

    fn from(_: js_doc::Memory) -> ArrayFault {
        ArrayFault::Memory
    }
}

impl From<AllocError> for ArrayFault {
    ghost use Rattle.std.specs.Prelude.{◌≡◌};
    ghost use Rattle.js_arrays.specs.declared.fault.ArrayFault.TheVariants as fault;

    ghost from_gives = { λ _ made. made ≡ fault.Memory };

    fn from(_: AllocError) -> ArrayFault {
        ArrayFault::Memory
    }
}

impl<T: Drop> From<AllocFailed<T>> for ArrayFault {
    ghost use Rattle.std.specs.Prelude.{◌≡◌};
    ghost use Rattle.js_arrays.specs.declared.fault.ArrayFault.TheVariants as fault;

    ghost from_gives = { λ _ made. made ≡ fault.Memory };

    fn from(_: AllocFailed<T>) -> ArrayFault {
        ArrayFault::Memory
    }
}

impl From<PlanFault> for ArrayFault {
    ghost use Rattle.js_arrays.specs.Faults.{fault_of};
    ghost use Rattle.std.specs.Prelude.{◌≡◌};

    ghost from_gives = { λ fault made. made ≡ fault_of fault };

    fn from(fault: PlanFault) -> ArrayFault {
        match fault {
            PlanFault::LimitPlans => ArrayFault::LimitPlans,
            PlanFault::Memory => ArrayFault::Memory,
        }
    }
}
