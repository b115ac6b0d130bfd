//! Why a number branch has no list of alternatives.

use std::alloc::{AllocError, AllocFailed};
use thiserror::Error;

/// A limit was passed, or there is no memory.
#[derive(Clone, Copy, PartialEq, Eq, Debug, Error)]
pub enum NumberFault {
    /// The least common multiple, or the next candidate, is over 2^127-1 in size.
    #[error("a multiple over 2^127-1 in size")]
    Multiples,
    /// So many candidates don't meet the set, and another one remains.
    #[error("more than 65536 candidates")]
    Candidates,
    /// Memory was requested and refused.
    #[error("out of memory")]
    Memory,
}

impl From<js_doc::Memory> for NumberFault {
    ghost use Rattle.std.specs.Prelude.{◌≡◌};
    ghost use Rattle.js_scalars.specs.declared.fault.NumberFault.TheVariants as fault;

    ghost from_gives = { λ _ made. made ≡ fault.Memory };

    fn from(_: js_doc::Memory) -> NumberFault {
        NumberFault::Memory
    }
}
