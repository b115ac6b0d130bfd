//! Why a text was not read, why a value is no document, and why a reference names no schema.

use crate::pointer::Pointer;
use js_doc::Memory;
use json::Invalid;
use std::alloc::{AllocError, AllocFailed};
use thiserror::Error;

/// Why a text was not read, or a value is no document.
#[derive(Debug, Drop, Error)]
pub enum JsonFault {
    /// The bytes are not one JSON text in UTF-8, or it nests deeper than 127 levels.
    #[error("not JSON")]
    NotJson,
    /// The first number that is not whole, in the order of elements and of names, is here.
    #[error("a number that is not whole at {0:?}")]
    NotWhole(Pointer),
    /// Memory was requested and refused.
    #[error("out of memory")]
    Memory,
}

impl From<Memory> for JsonFault {
    ghost use Rattle.std.specs.Prelude.{◌≡◌};
    ghost use Rattle.js_json.specs.declared.fault.JsonFault.TheVariants as fault;

    ghost from_gives = { λ _ made. made ≡ fault.Memory };

    fn from(_: Memory) -> JsonFault {
        JsonFault::Memory
    }
}

impl From<AllocError> for JsonFault {
    ghost use Rattle.std.specs.Prelude.{◌≡◌};
    ghost use Rattle.js_json.specs.declared.fault.JsonFault.TheVariants as fault;

    ghost from_gives = { λ _ made. made ≡ fault.Memory };

    fn from(_: AllocError) -> JsonFault {
        JsonFault::Memory
    }
}

impl From<Invalid> for JsonFault {
    ghost use Rattle.std.specs.Prelude.{◌≡◌};
    ghost use Rattle.js_json.specs.declared.fault.JsonFault.TheVariants as fault;

    ghost from_gives = { λ _ made. made ≡ fault.NotJson };

    fn from(_: Invalid) -> JsonFault {
        JsonFault::NotJson
    }
}

impl<T: Drop> From<AllocFailed<T>> for JsonFault {
    ghost use Rattle.std.specs.Prelude.{◌≡◌};
    ghost use Rattle.js_json.specs.declared.fault.JsonFault.TheVariants as fault;

    ghost from_gives = { λ _ made. made ≡ fault.Memory };

    fn from(_: AllocFailed<T>) -> JsonFault {
        JsonFault::Memory
    }
}

/// Why a reference names no schema of the file. The causes are tried in this order.
#[derive(Clone, Copy, PartialEq, Eq, Debug, Drop, Error)]
pub enum RefFault {
    /// What comes before the fragment is neither empty nor the file's own `$id`.
    #[error("a reference to another file")]
    Remote,
    /// The fragment is not a JSON pointer.
    #[error("not a JSON pointer")]
    BadPointer,
    /// The pointer leads to no value of the file.
    #[error("no such place")]
    Missing,
    /// The value is neither an object nor a boolean.
    #[error("neither an object nor a boolean")]
    NotASchema,
    /// Memory was requested and refused.
    #[error("out of memory")]
    Memory,
}

impl From<Memory> for RefFault {
    ghost use Rattle.std.specs.Prelude.{◌≡◌};
    ghost use Rattle.js_json.specs.declared.fault.RefFault.TheVariants as fault;

    ghost from_gives = { λ _ made. made ≡ fault.Memory };

    fn from(_: Memory) -> RefFault {
        RefFault::Memory
    }
}

impl From<AllocError> for RefFault {
    ghost use Rattle.std.specs.Prelude.{◌≡◌};
    ghost use Rattle.js_json.specs.declared.fault.RefFault.TheVariants as fault;

    ghost from_gives = { λ _ made. made ≡ fault.Memory };

    fn from(_: AllocError) -> RefFault {
        RefFault::Memory
    }
}
