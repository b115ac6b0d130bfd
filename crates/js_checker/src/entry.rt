//! The trees of a goal, one for each kind.

ghost use Rattle.std.specs.Prelude.{◌≡◌, ◌∷◌, ℕ, List, Bool, Some, IfOk, IfErr};
ghost use Rattle.positions.specs.Position.{Position};
ghost use Rattle.goals.specs.Signed.{Signed};
ghost use Rattle.certificate_lines.specs.Line as L;
ghost use Rattle.js_algebra.specs.View.{kind_view};
ghost use Rattle.js_lines.specs.View.{line_view};
ghost use Rattle.js_checker.specs.Duties.{Faults};
ghost use Rattle.js_checker.specs.EntryView.{kinds_from, kind_duties};

use crate::tree::TreeCheck;
use js_algebra::{Core, Goal, JsonKind};
use js_doc::Memory;
use js_lines::CertLine;
use js_rules::{Rule, RuleFault};
use std::alloc::Global;

/// What is still to be shown of a goal whose entry has begun: the tree at hand, and then the trees of `kind` and of the
/// kinds after it. It depends on nothing before the entry. Contracts see what is left by `goal_duties`.
#[derive(Drop)]
pub(crate) struct EntryCheck<'a> {
    pub kind: Option<JsonKind>,
    pub tree: TreeCheck<'a>,
}

impl<'a> EntryCheck<'a> {
    ghost use Rattle.std.specs.Prelude.{◌≡◌, List, map, true, false, not, OnOk, IfOk, IfErr};
    ghost use Rattle.documents.specs.Kind.{all_kinds};
    ghost use Rattle.goals.specs.Signed.{Signed};
    ghost use Rattle.verdicts.specs.Duties.{AtKind};
    ghost use Rattle.verdicts.specs.Verdict.{cites};
    ghost use Rattle.js_algebra.specs.View.{are_in_table};
    ghost use Rattle.js_lines.specs.View.{line_view};
    ghost use Rattle.js_checker.specs.Duties.{any_left, Leaves, Faults};
    ghost use Rattle.js_checker.specs.TreeView.{tree_duties, IsOver, IsSteady};
    ghost use Rattle.js_checker.specs.EntryView.{goal_duties, is_busy};
    ghost use Rattle.js_checker.specs.Entries.{do_all};

    /// The check of an entry of which nothing is to be shown yet.
    pub(crate) fn new(alloc: Global, core: &'a Core) -> EntryCheck<'a>
        ensures busy { is_busy result ≡ false }
        ensures over { IsOver core.now.positions result.tree }
        ensures steady { IsSteady result.tree }
    {
        EntryCheck {
            kind: None,
            tree: TreeCheck::new(alloc, core),
        }
    }

    /// Whether nothing is left to show.
    pub(crate) fn is_done(&self) -> bool
        requires { IsSteady self.now.tree }
        ensures { result ≡ not (is_busy self.now) }
    {
        self.kind.is_none() && self.tree.is_done()
    }

    /// The goal is to be shown at each kind.
    pub(crate) fn begin(&mut self)
        requires { is_busy self.old ≡ false }
        ensures duties { (goal : List Signed) → goal_duties goal self.new ≡ map (λ t. AtKind t goal) all_kinds }
        ensures tree { self.new.tree ≡ self.old.tree }
    {
        self.kind = Some(JsonKind::Null);
    }

    pub(crate) fn take(
        &mut self,
        alloc: Global,
        core: &'a Core,
        goals: &[Goal],
        goal: &Goal,
        line: &CertLine,
    ) -> Result<(), RuleFault>
        requires goal { are_in_table core.now.positions goal.now ≡ true }
        requires over { IsOver core.now.positions self.old.tree }
        requires steady { IsSteady self.old.tree }
        ensures taken { OnOk result (Leaves core.now.positions (cites goals.now) (line_view line.now)
            (goal_duties goal.now self.old) (goal_duties goal.now self.new)) }
        ensures broken { IfErr result (Faults core.now.positions (cites goals.now) (line_view line.now)
            (goal_duties goal.now self.old)) }
        ensures over { OnOk result (IsOver core.now.positions self.new.tree) }
        ensures steady { OnOk result (IsSteady self.new.tree) }
    {
        if self.tree.is_done() {
            self.take_kind(core, goals, goal, line)
        } else {
            self.tree.take(alloc, core, goals, line)
        }
    }

    /// Whether the lines show what is left, and are no more than that takes.
    pub(crate) fn take_all(
        &mut self,
        alloc: Global,
        core: &'a Core,
        goals: &[Goal],
        goal: &Goal,
        lines: &[CertLine],
    ) -> Result<bool, Memory>
        requires goal { are_in_table core.now.positions goal.now ≡ true }
        requires over { IsOver core.now.positions self.old.tree }
        requires steady { IsSteady self.old.tree }
        ensures { IfOk result (λ b. b ≡ do_all core.now.positions goals.now (goal_duties goal.now self.old)
            (map line_view lines.now)) }
    {
        for line in lines {
            match self.take(alloc, core, goals, goal, line) {
                Ok(()) => {}
                Err(RuleFault::Breaks(_)) => return Ok(false),
                Err(RuleFault::Memory) => return Err(Memory),
            }
        }
        Ok(self.is_done())
    }

    /// The line of the next kind.
    fn take_kind(
        &mut self,
        core: &'a Core,
        goals: &[Goal],
        goal: &Goal,
        line: &CertLine,
    ) -> Result<(), RuleFault>
        requires goal { are_in_table core.now.positions goal.now ≡ true }
        requires over { IsOver core.now.positions self.old.tree }
        requires steady { IsSteady self.old.tree }
        requires done { any_left (tree_duties self.old.tree) ≡ false }
        ensures taken { OnOk result (Leaves core.now.positions (cites goals.now) (line_view line.now)
            (goal_duties goal.now self.old) (goal_duties goal.now self.new)) }
        ensures broken { IfErr result (Faults core.now.positions (cites goals.now) (line_view line.now)
            (goal_duties goal.now self.old)) }
        ensures over { OnOk result (IsOver core.now.positions self.new.tree) }
        ensures steady { OnOk result (IsSteady self.new.tree) }
    {
        let kind = next_kind(self.kind, line)?;
        self.tree.begin(core, kind, goal)?;
        self.kind = kind_after(kind);
        Ok(())
    }
}

/// The kind that comes next, where the line says so.
fn next_kind(next: Option<JsonKind>, line: &CertLine) -> Result<JsonKind, RuleFault>
    ensures next { IfOk result (λ kind. next ≡ Some kind) }
    ensures line { IfOk result (λ kind. line_view line.now ≡ L.At (kind_view kind)) }
    ensures broken { IfErr result (λ fault. (T : List Position) (cite : ℕ → List Signed → Bool) (goal : List Signed)
        → Faults T cite (line_view line.now) (kind_duties goal (kinds_from next)) fault) }
{
    let Some(kind) = next else {
        return Err(RuleFault::Breaks(Rule::OutOfPlace));
    };
    match line {
        CertLine::At(told) => {
            if kind == *told {
                Ok(kind)
            } else {
                Err(RuleFault::Breaks(Rule::OtherKind))
            }
        }
        _ => Err(RuleFault::Breaks(Rule::OutOfPlace)),
    }
}

fn kind_after(kind: JsonKind) -> Option<JsonKind>
    ensures { kinds_from (Some kind) ≡ kind_view kind ∷ kinds_from result }
{
    match kind {
        JsonKind::Null => Some(JsonKind::Boolean),
        JsonKind::Boolean => Some(JsonKind::Number),
        JsonKind::Number => Some(JsonKind::Text),
        JsonKind::Text => Some(JsonKind::Array),
        JsonKind::Array => Some(JsonKind::Object),
        JsonKind::Object => None,
    }
}
