//! Why a goal has no list of branches.

use std::alloc::{AllocError, AllocFailed};
use thiserror::Error;

/// The tree is beyond the limit, or there is no memory.
#[derive(Clone, Copy, PartialEq, Eq, Debug, Error)]
pub enum TableauFault {
    /// The tree has more than 16,384 ends, closed ends included.
    #[error("a tree with more than 16384 ends")]
    LimitBranches,
    /// Memory was requested and refused.
    #[error("out of memory")]
    Memory,
}

impl From<js_doc::Memory> for TableauFault {
    ghost use Rattle.std.specs.Prelude.{◌≡◌};
    ghost use Rattle.js_tableau.specs.declared.fault.TableauFault.TheVariants as fault;

    ghost from_gives = { λ _ made. made ≡ fault.Memory };

    fn from(_: js_doc::Memory) -> TableauFault {
        TableauFault::Memory
    }
}

impl From<AllocError> for TableauFault {
    ghost use Rattle.std.specs.Prelude.{◌≡◌};
    ghost use Rattle.js_tableau.specs.declared.fault.TableauFault.TheVariants as fault;

    ghost from_gives = { λ _ made. made ≡ fault.Memory };

    fn from(_: AllocError) -> TableauFault {
        TableauFault::Memory
    }
}

impl<T: Drop> From<AllocFailed<T>> for TableauFault {
    ghost use Rattle.std.specs.Prelude.{◌≡◌};
    ghost use Rattle.js_tableau.specs.declared.fault.TableauFault.TheVariants as fault;

    ghost from_gives = { λ _ made. made ≡ fault.Memory };

    fn from(_: AllocFailed<T>) -> TableauFault {
        TableauFault::Memory
    }
}
