//! Why a document isn't decided.

use js_doc::Memory;
use thiserror::Error;

/// Memory was requested and refused. No call says when.
#[derive(Clone, Copy, PartialEq, Eq, Debug, Drop, Error)]
pub enum ValidFault {
    #[error("out of memory")]
    Memory,
}

impl From<Memory> for ValidFault {
    fn from(_: Memory) -> ValidFault {
        ValidFault::Memory
    }
}
