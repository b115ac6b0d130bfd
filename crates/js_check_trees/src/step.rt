//! What a line does to a set.

ghost use Rattle.std.specs.Prelude.{◌≡◌, [], List, true};
ghost use Rattle.documents.specs.Kind.{Kind};
ghost use Rattle.positions.specs.Position.{Position};
ghost use Rattle.goals.specs.Signed as G;
ghost use Rattle.verdicts.specs.RowLines.{if_so};
ghost use Rattle.js_rules.specs.RuleView.{rule_view};
ghost use Rattle.js_check_trees.specs.Told.{told, splits_in_table};

use js_algebra::Signed;
use js_rules::Rule;

/// What a line does to the set at hand. `told` is what it leaves in the words of the definition.
#[derive(Clone, Copy)]
pub(crate) enum Step {
    /// No document meets the set.
    Ends,
    /// A set for each choice of that member comes in its place.
    Splits(Signed),
    /// The line breaks that rule, and none before it.
    Breaks(Rule),
}

/// The set ends where the test holds; else the rule is broken.
pub(crate) fn end_where(holds: bool, rule: Rule) -> Step
    ensures told { (T : List Position) (t : Kind) (S : List G.Signed)
        → told T t S result ≡ if_so (rule_view rule) holds [] }
    ensures splits { (T : List Position) → splits_in_table T result ≡ true }
{
    if holds {
        Step::Ends
    } else {
        Step::Breaks(rule)
    }
}
