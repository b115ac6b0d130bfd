//! The leaf of a set that was at hand.

use js_algebra::Goal;
use js_check_arrays::OpenArray;
use js_check_objects::OpenObject;
use js_check_strings::OpenStrings;
use js_lines::CertLine;
use js_rules::{Rule, RuleFault};
use std::alloc::Global;

/// The rows or plans by which a set is shown empty, where a line began them.
#[derive(Drop)]
pub(crate) enum Leaf<'a> {
    Closed,
    Strings(OpenStrings<'a>),
    Array(OpenArray<'a>),
    Object(OpenObject<'a>),
}

impl Leaf<'_> {
    ghost use Rattle.std.specs.Prelude.{◌≡◌, List, not, OnOk, IfErr};
    ghost use Rattle.positions.specs.Position.{Position};
    ghost use Rattle.verdicts.specs.Verdict.{cites};
    ghost use Rattle.js_lines.specs.View.{line_view};
    ghost use Rattle.js_checker.specs.Duties.{any_left, Leaves, Faults};
    ghost use Rattle.js_checker.specs.LeafView.{leaf_duties, leaf_table, is_open};

    pub(crate) fn is_open(&self) -> bool
        ensures { result ≡ is_open self.now }
    {
        match self {
            Leaf::Closed => false,
            _ => true,
        }
    }

    /// Whether nothing is left to show.
    pub(crate) fn is_done(&self) -> bool
        ensures { result ≡ not (any_left (leaf_duties self.now)) }
    {
        match self {
            Leaf::Closed => true,
            Leaf::Strings(strings) => strings.is_done(),
            Leaf::Array(array) => array.is_done(),
            Leaf::Object(object) => object.is_done(),
        }
    }

    pub(crate) fn take(
        &mut self,
        alloc: Global,
        goals: &[Goal],
        line: &CertLine,
    ) -> Result<(), RuleFault>
        ensures taken { OnOk result ((T : List Position) → leaf_table T self.old ≡ T
            → Leaves T (cites goals.now) (line_view line.now) (leaf_duties self.old) (leaf_duties self.new)) }
        ensures broken { IfErr result (λ fault. (T : List Position) → leaf_table T self.old ≡ T
            → Faults T (cites goals.now) (line_view line.now) (leaf_duties self.old) fault) }
        ensures over { OnOk result ((T : List Position) → leaf_table T self.old ≡ T → leaf_table T self.new ≡ T) }
    {
        match self {
            Leaf::Closed => Err(RuleFault::Breaks(Rule::OutOfPlace)),
            Leaf::Strings(strings) => strings.take(alloc, line),
            Leaf::Array(array) => array.take(alloc, goals, line),
            Leaf::Object(object) => object.take(alloc, goals, line),
        }
    }
}
