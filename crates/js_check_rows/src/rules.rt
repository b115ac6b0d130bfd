//! The rules that faults of rows stand for.

ghost use Rattle.std.specs.Prelude.{◌≡◌};
ghost use Rattle.js_check_rows.specs.Rules.{rule_of};

use crate::fault::RowFault;
use js_rules::{Rule, RuleFault};

/// The rule that is broken where rows, or labels of rows, aren't right.
pub fn rule_of(fault: RowFault) -> RuleFault
    ensures { result ≡ rule_of fault }
{
    match fault {
        RowFault::Start => RuleFault::Breaks(Rule::NoRows),
        RowFault::Width => RuleFault::Breaks(Rule::NoRow),
        RowFault::Step(_) => RuleFault::Breaks(Rule::WrongTarget),
        RowFault::Least(_) => RuleFault::Breaks(Rule::WrongLeast),
        RowFault::Capacity(_) => RuleFault::Breaks(Rule::WrongBound),
        RowFault::Memory => RuleFault::Memory,
    }
}
