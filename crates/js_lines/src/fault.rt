//! What is wrong with bytes that are read as lines.

use js_doc::Memory;
use std::alloc::AllocError;
use thiserror::Error;

/// Why bytes are no lines, with the number of the line, from 1; or there is no memory.
#[derive(Clone, Copy, PartialEq, Eq, Debug, Error)]
pub enum LineFault {
    /// A whole line of at most 1,048,576 bytes isn't in the grammar.
    #[error("line {0} is not a line of a certificate")]
    NotALine(u64),
    /// More than 1,048,576 bytes of a line came without a line feed.
    #[error("line {0} is too long")]
    LineTooLong(u64),
    /// The bytes end within a line.
    #[error("the last line has no line feed")]
    Unfinished,
    /// Memory was requested and refused.
    #[error("out of memory")]
    Memory,
}

impl From<Memory> for LineFault {
    ghost use Rattle.std.specs.Prelude.{◌≡◌};
    ghost use Rattle.js_lines.specs.declared.fault.LineFault.TheVariants as fault;

    ghost from_gives = { λ _ made. made ≡ fault.Memory };

    fn from(_: Memory) -> LineFault {
        LineFault::Memory
    }
}

impl From<AllocError> for LineFault {
    ghost use Rattle.std.specs.Prelude.{◌≡◌};
    ghost use Rattle.js_lines.specs.declared.fault.LineFault.TheVariants as fault;

    ghost from_gives = { λ _ made. made ≡ fault.Memory };

    fn from(_: AllocError) -> LineFault {
        LineFault::Memory
    }
}
