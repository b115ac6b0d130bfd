//! Why a branch has no list of alternatives.

use js_automaton::AutoFault;
use js_plans::PlanFault;
use std::alloc::{AllocError, AllocFailed};
use thiserror::Error;

/// The count, the names or the plans are beyond a limit, or there is no memory.
#[derive(Clone, Copy, PartialEq, Eq, Debug, Error)]
pub enum ObjectFault {
    /// The branch requires more than 65,536 members.
    #[error("more than 65536 members")]
    LimitCounts,
    /// The patterns of names have more than 16,384 positions together.
    #[error("patterns with more than 16384 positions")]
    LimitPositions,
    /// Names have more than 1,024 classes of characters.
    #[error("more than 1024 classes of characters")]
    LimitClasses,
    /// Names reach more than 65,536 states.
    #[error("more than 65536 states")]
    LimitStates,
    /// The tree of plans has more than 65,536 ends, dropped plans included.
    #[error("a tree of plans with more than 65536 ends")]
    LimitPlans,
    /// Memory was requested and refused.
    #[error("out of memory")]
    Memory,
}

impl From<js_doc::Memory> for ObjectFault {
    ghost use Rattle.std.specs.Prelude.{◌≡◌};
    ghost use Rattle.js_objects.specs.declared.fault.ObjectFault.TheVariants as fault;

    ghost from_gives = { λ _ made. made ≡ fault.Memory };

    fn from(_: js_doc::Memory) -> ObjectFault {
        ObjectFault::Memory
    }
}

impl From<AllocError> for ObjectFault {
    ghost use Rattle.std.specs.Prelude.{◌≡◌};
    ghost use Rattle.js_objects.specs.declared.fault.ObjectFault.TheVariants as fault;

    ghost from_gives = { λ _ made. made ≡ fault.Memory };

    fn from(_: AllocError) -> ObjectFault {
        ObjectFault::Memory
    }
}

impl<T: Drop> From<AllocFailed<T>> for ObjectFault {
    ghost use Rattle.std.specs.Prelude.{◌≡◌};
    ghost use Rattle.js_objects.specs.declared.fault.ObjectFault.TheVariants as fault;

    ghost from_gives = { λ _ made. made ≡ fault.Memory };

    fn from(_: AllocFailed<T>) -> ObjectFault {
        ObjectFault::Memory
    }
}

impl From<AutoFault> for ObjectFault {
    ghost use Rattle.js_objects.specs.Faults.{name_fault};
    ghost use Rattle.std.specs.Prelude.{◌≡◌};

    ghost from_gives = { λ fault made. made ≡ name_fault fault };

    fn from(fault: AutoFault) -> ObjectFault {
        match fault {
            AutoFault::LimitPositions => ObjectFault::LimitPositions,
            AutoFault::LimitClasses => ObjectFault::LimitClasses,
            AutoFault::LimitStates => ObjectFault::LimitStates,
            AutoFault::Memory => ObjectFault::Memory,
        }
    }
}

impl From<PlanFault> for ObjectFault {
    ghost use Rattle.js_objects.specs.Faults.{plan_fault};
    ghost use Rattle.std.specs.Prelude.{◌≡◌};

    ghost from_gives = { λ fault made. made ≡ plan_fault fault };

    fn from(fault: PlanFault) -> ObjectFault {
        match fault {
            PlanFault::LimitPlans => ObjectFault::LimitPlans,
            PlanFault::Memory => ObjectFault::Memory,
        }
    }
}
