//! Why a JSON value is no schema that is read.

use crate::keyword::Keyword;
use js_doc::Memory;
use js_json::{Pointer, RefFault};
use js_pattern::PatternFault;
use std::alloc::{AllocError, AllocFailed};
use thiserror::Error;

/// What is wrong in a schema first, in the order of its walk, and where. `specs/FaultView.antt` says which fault of the
/// definitions it is.
#[derive(Debug, Drop, Error)]
pub enum SchemaFault {
    /// The value here is neither an object nor a boolean.
    #[error("neither an object nor a boolean at {0:?}")]
    NotASchema(Pointer),
    /// The value here is not what the keyword requires.
    #[error("a value that {0:?} does not have at {1:?}")]
    WrongShape(Keyword, Pointer),
    /// A number that is to be whole isn't, or has more than 64 bits.
    #[error("a number that is not whole at {0:?}")]
    NotWhole(Pointer),
    /// A number that is to be above 0 isn't.
    #[error("a number that is not above 0 at {0:?}")]
    NotPositive(Pointer),
    /// A number that counts is below 0.
    #[error("a negative count at {0:?}")]
    Negative(Pointer),
    /// A list of schemas has none.
    #[error("an empty list at {0:?}")]
    EmptyList(Pointer),
    /// Elements are to be unique, which is not decided.
    #[error("unique items at {0:?}")]
    UniqueItems(Pointer),
    /// An identifier is below the root.
    #[error("an identifier below the root at {0:?}")]
    InnerId(Pointer),
    /// The object here has a reference that leads to no schema.
    #[error("{0} at {1:?}")]
    Ref(RefFault, Pointer),
    /// A text that is to be a pattern is none.
    #[error("no pattern, by {0:?}, at {1:?}")]
    Pattern(PatternFault, Pointer),
    /// With this place the schema weighs more than is read.
    #[error("too large at {0:?}")]
    TooLarge(Pointer),
    /// Memory was requested and refused.
    #[error("out of memory")]
    Memory,
}

impl From<Memory> for SchemaFault {
    ghost use Rattle.std.specs.Prelude.{◌≡◌};
    ghost use Rattle.js_keywords.specs.declared.fault.SchemaFault.TheVariants as fault;

    ghost from_gives = { λ _ made. made ≡ fault.Memory };

    fn from(_: Memory) -> SchemaFault {
        SchemaFault::Memory
    }
}

impl From<AllocError> for SchemaFault {
    ghost use Rattle.std.specs.Prelude.{◌≡◌};
    ghost use Rattle.js_keywords.specs.declared.fault.SchemaFault.TheVariants as fault;

    ghost from_gives = { λ _ made. made ≡ fault.Memory };

    fn from(_: AllocError) -> SchemaFault {
        SchemaFault::Memory
    }
}

impl<T: Drop> From<AllocFailed<T>> for SchemaFault {
    ghost use Rattle.std.specs.Prelude.{◌≡◌};
    ghost use Rattle.js_keywords.specs.declared.fault.SchemaFault.TheVariants as fault;

    ghost from_gives = { λ _ made. made ≡ fault.Memory };

    fn from(_: AllocFailed<T>) -> SchemaFault {
        SchemaFault::Memory
    }
}
