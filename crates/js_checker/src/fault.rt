//! Why a certificate isn't accepted.

ghost use Rattle.std.specs.Prelude.{◌≡◌};
ghost use Rattle.js_checker.specs.Faults.{fault_at};

use js_rules::RuleFault;
use thiserror::Error;

/// Why a certificate isn't accepted.
#[derive(Clone, Copy, PartialEq, Eq, Debug, Error)]
pub enum CheckFault {
    /// The number of a line, from 1, and the number of the least rule that it breaks.
    #[error("a line breaks a rule")]
    Rejected(u64, u8),
    /// Memory was requested and refused.
    #[error("out of memory")]
    Memory,
}

/// The fault of the line of that number.
pub(crate) fn fault_at(line: u64, fault: RuleFault) -> CheckFault
    ensures { result ≡ fault_at line fault }
{
    match fault {
        RuleFault::Breaks(rule) => CheckFault::Rejected(line, rule.number()),
        RuleFault::Memory => CheckFault::Memory,
    }
}
