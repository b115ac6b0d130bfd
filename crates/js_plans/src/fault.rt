//! Why a frame has no list of alternatives.

use std::alloc::{AllocError, AllocFailed};
use thiserror::Error;

/// The plans are beyond the limit, or there is no memory.
#[derive(Clone, Copy, PartialEq, Eq, Debug, Error)]
pub enum PlanFault {
    /// The tree of plans has more than 65,536 ends, dropped plans included.
    #[error("a tree of plans with more than 65536 ends")]
    LimitPlans,
    /// Memory was requested and refused.
    #[error("out of memory")]
    Memory,
}

impl From<js_doc::Memory> for PlanFault {
    ghost use Rattle.std.specs.Prelude.{◌≡◌};
    ghost use Rattle.js_plans.specs.declared.fault.PlanFault.TheVariants as fault;

    ghost from_gives = { λ _ made. made ≡ fault.Memory };

    fn from(_: js_doc::Memory) -> PlanFault {
        PlanFault::Memory
    }
}

impl From<AllocError> for PlanFault {
    ghost use Rattle.std.specs.Prelude.{◌≡◌};
    ghost use Rattle.js_plans.specs.declared.fault.PlanFault.TheVariants as fault;

    ghost from_gives = { λ _ made. made ≡ fault.Memory };

    fn from(_: AllocError) -> PlanFault {
        PlanFault::Memory
    }
}

impl<T: Drop> From<AllocFailed<T>> for PlanFault {
    ghost use Rattle.std.specs.Prelude.{◌≡◌};
    ghost use Rattle.js_plans.specs.declared.fault.PlanFault.TheVariants as fault;

    ghost from_gives = { λ _ made. made ≡ fault.Memory };

    fn from(_: AllocFailed<T>) -> PlanFault {
        PlanFault::Memory
    }
}
