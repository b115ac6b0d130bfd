//! The faults of the outside, and how they are counted.

ghost use Rattle.std.specs.Prelude.{◌≡◌};
ghost use Rattle.js_outside.specs.Counts.{one_more};

/// Why a file was not begun.
#[derive(Clone, Copy, PartialEq, Eq, Debug)]
pub enum BeginFault {
    /// The file isn't there, or can't be opened. The shelf's count of faults rose.
    Failed,

    /// Memory was refused. The shelf's count of faults is as before.
    Memory,
}

/// A read or a write failed, and the count of faults rose.
#[derive(Clone, Copy, PartialEq, Eq, Debug)]
pub struct Failed;

/// The count after one fault more. It stays at its last value.
pub(crate) fn raised(count: u64) -> u64
    ensures { result ≡ one_more count }
{
    count.saturating_add(1)
}
