//! The tree of a goal at a kind.

use crate::leaf::Leaf;
use js_algebra::{Core, Goal, JsonKind};
use js_check_arrays::OpenArray;
use js_check_objects::OpenObject;
use js_check_strings::OpenStrings;
use js_check_trees::OpenSets;
use js_doc::Memory;
use js_lines::CertLine;
use js_rules::{Rule, RuleFault};
use std::alloc::Global;

/// The sets of a tree that are still to be shown empty, and the leaf of the one that was at hand, where it has one.
/// Contracts see what is left by `tree_duties`.
#[derive(Drop)]
pub(crate) struct TreeCheck<'a> {
    pub sets: OpenSets<'a>,
    pub leaf: Leaf<'a>,
}

impl<'a> TreeCheck<'a> {
    ghost use Rattle.std.specs.Prelude.{◌≡◌, [], ◌∷◌, true, false, not, OnOk, IfErr};
    ghost use Rattle.documents.specs.Kind as K;
    ghost use Rattle.documents.specs.Kind.{same_kind};
    ghost use Rattle.certificate_lines.specs.Line as L;
    ghost use Rattle.verdicts.specs.Duties.{OfSet};
    ghost use Rattle.verdicts.specs.Verdict.{cites};
    ghost use Rattle.js_algebra.specs.View.{kind_view, are_in_table};
    ghost use Rattle.js_lines.specs.View.{line_view};
    ghost use Rattle.js_check_trees.specs.OpenSetsView.{kind_of, has_set};
    ghost use Rattle.js_check_trees.specs.Taking.{begins_leaf, IsTaken, IsBroken};
    ghost use Rattle.js_checker.specs.Duties.{any_left, Leaves, Faults};
    ghost use Rattle.js_checker.specs.TreeView.{tree_duties, IsOver, IsSteady, IsHeld};

    pub(crate) fn new(alloc: Global, core: &'a Core) -> TreeCheck<'a>
        ensures duties { tree_duties result ≡ [] }
        ensures over { IsOver core.now.positions result }
        ensures steady { IsSteady result }
    {
        TreeCheck {
            sets: OpenSets::new(alloc, core),
            leaf: Leaf::Closed,
        }
    }

    /// Whether nothing is left to show.
    pub(crate) fn is_done(&self) -> bool
        requires { IsSteady self.now }
        ensures { result ≡ not (any_left (tree_duties self.now)) }
    {
        !self.leaf.is_open() && !self.sets.has_set()
    }

    /// The goal is the first set.
    pub(crate) fn begin(
        &mut self,
        core: &'a Core,
        kind: JsonKind,
        goal: &Goal,
    ) -> Result<(), Memory>
        requires goal { are_in_table core.now.positions goal.now ≡ true }
        requires over { IsOver core.now.positions self.old }
        requires steady { IsSteady self.old }
        requires done { any_left (tree_duties self.old) ≡ false }
        ensures duties { OnOk result (tree_duties self.new ≡ OfSet (kind_view kind) goal.now ∷ []) }
        ensures over { OnOk result (IsOver core.now.positions self.new) }
        ensures steady { OnOk result (IsSteady self.new) }
    {
        self.sets.begin(kind, goal)
    }

    pub(crate) fn take(
        &mut self,
        alloc: Global,
        core: &'a Core,
        goals: &[Goal],
        line: &CertLine,
    ) -> Result<(), RuleFault>
        requires over { IsOver core.now.positions self.old }
        requires steady { IsSteady self.old }
        requires left { any_left (tree_duties self.old) ≡ true }
        ensures taken { OnOk result (Leaves core.now.positions (cites goals.now) (line_view line.now)
            (tree_duties self.old) (tree_duties self.new)) }
        ensures broken { IfErr result (Faults core.now.positions (cites goals.now) (line_view line.now)
            (tree_duties self.old)) }
        ensures over { OnOk result (IsOver core.now.positions self.new) }
        ensures steady { OnOk result (IsSteady self.new) }
    {
        self.take_line(alloc, core, goals, line)?;
        self.go_on(core)?;
        Ok(())
    }

    /// A line of the leaf, or of the set at hand. After it no set is at hand.
    fn take_line(
        &mut self,
        alloc: Global,
        core: &'a Core,
        goals: &[Goal],
        line: &CertLine,
    ) -> Result<(), RuleFault>
        requires over { IsOver core.now.positions self.old }
        requires steady { IsSteady self.old }
        requires left { any_left (tree_duties self.old) ≡ true }
        ensures taken { OnOk result (Leaves core.now.positions (cites goals.now) (line_view line.now)
            (tree_duties self.old) (tree_duties self.new)) }
        ensures broken { IfErr result (Faults core.now.positions (cites goals.now) (line_view line.now)
            (tree_duties self.old)) }
        ensures over { OnOk result (IsOver core.now.positions self.new) }
        ensures hand { OnOk result (has_set self.new.sets ≡ false) }
    {
        if self.leaf.is_open() {
            self.leaf.take(alloc, goals, line)
        } else {
            self.take_set(alloc, core, line)
        }
    }

    /// Where the leaf is done, the next set is at hand.
    fn go_on(&mut self, core: &'a Core) -> Result<(), Memory>
        requires over { IsOver core.now.positions self.old }
        requires hand { has_set self.old.sets ≡ false }
        ensures duties { OnOk result (tree_duties self.new ≡ tree_duties self.old) }
        ensures over { OnOk result (IsOver core.now.positions self.new) }
        ensures steady { OnOk result (IsSteady self.new) }
    {
        if self.leaf.is_done() {
            self.leaf = Leaf::Closed;
            self.sets.next()?;
        }
        Ok(())
    }

    /// A line of the set at hand.
    fn take_set(&mut self, alloc: Global, core: &'a Core, line: &CertLine) -> Result<(), RuleFault>
        requires over { IsOver core.now.positions self.old }
        requires held { IsHeld self.old }
        ensures taken { OnOk result (IsTaken core.now.positions (tree_duties self.old) (line_view line.now)
            (tree_duties self.new)) }
        ensures broken { IfErr result (IsBroken core.now.positions (tree_duties self.old) (line_view line.now)) }
        ensures over { OnOk result (IsOver core.now.positions self.new) }
        ensures hand { OnOk result (has_set self.new.sets ≡ false) }
    {
        if self.sets.begins_leaf(line) {
            self.begin_leaf(alloc, core, line)
        } else {
            self.sets.take(alloc, line)
        }
    }

    /// A line that begins the leaf of the set at hand.
    fn begin_leaf(
        &mut self,
        alloc: Global,
        core: &'a Core,
        line: &CertLine,
    ) -> Result<(), RuleFault>
        requires over { IsOver core.now.positions self.old }
        requires held { IsHeld self.old }
        requires begins { begins_leaf (kind_of self.old.sets) (line_view line.now) ≡ true }
        ensures taken { OnOk result (IsTaken core.now.positions (tree_duties self.old) (line_view line.now)
            (tree_duties self.new)) }
        ensures broken { IfErr result (IsBroken core.now.positions (tree_duties self.old) (line_view line.now)) }
        ensures over { OnOk result (IsOver core.now.positions self.new) }
        ensures hand { OnOk result (has_set self.new.sets ≡ false) }
    {
        match line {
            CertLine::Strings(count) => self.begin_strings(alloc, core, *count),
            CertLine::Array => self.begin_array(alloc, core),
            CertLine::Object(rows, bounds) => self.begin_object(alloc, core, *rows, *bounds),
            _ => Err(RuleFault::Breaks(Rule::OutOfPlace)),
        }
    }

    fn begin_strings(&mut self, alloc: Global, core: &'a Core, count: u32) -> Result<(), RuleFault>
        requires over { IsOver core.now.positions self.old }
        requires held { IsHeld self.old }
        requires kind { same_kind K.Text (kind_of self.old.sets) ≡ true }
        ensures taken { OnOk result (IsTaken core.now.positions (tree_duties self.old) (L.Strings count)
            (tree_duties self.new)) }
        ensures broken { IfErr result (IsBroken core.now.positions (tree_duties self.old) (L.Strings count)) }
        ensures over { OnOk result (IsOver core.now.positions self.new) }
        ensures hand { OnOk result (has_set self.new.sets ≡ false) }
    {
        let set = self.sets.set(alloc)?;
        let strings = OpenStrings::new(alloc, core, set.as_slice(), count)?;
        self.sets.leave();
        self.leaf = Leaf::Strings(strings);
        Ok(())
    }

    fn begin_array(&mut self, alloc: Global, core: &'a Core) -> Result<(), RuleFault>
        requires over { IsOver core.now.positions self.old }
        requires held { IsHeld self.old }
        requires kind { same_kind K.Array (kind_of self.old.sets) ≡ true }
        ensures taken { OnOk result (IsTaken core.now.positions (tree_duties self.old) L.Arrays
            (tree_duties self.new)) }
        ensures broken { IfErr result (IsBroken core.now.positions (tree_duties self.old) L.Arrays) }
        ensures over { OnOk result (IsOver core.now.positions self.new) }
        ensures hand { OnOk result (has_set self.new.sets ≡ false) }
    {
        let set = self.sets.set(alloc)?;
        let array = OpenArray::new(alloc, core, set.as_slice())?;
        self.sets.leave();
        self.leaf = Leaf::Array(array);
        Ok(())
    }

    fn begin_object(
        &mut self,
        alloc: Global,
        core: &'a Core,
        rows: u32,
        bounds: u32,
    ) -> Result<(), RuleFault>
        requires over { IsOver core.now.positions self.old }
        requires held { IsHeld self.old }
        requires kind { same_kind K.Object (kind_of self.old.sets) ≡ true }
        ensures taken { OnOk result (IsTaken core.now.positions (tree_duties self.old) (L.Objects rows bounds)
            (tree_duties self.new)) }
        ensures broken { IfErr result (IsBroken core.now.positions (tree_duties self.old) (L.Objects rows bounds)) }
        ensures over { OnOk result (IsOver core.now.positions self.new) }
        ensures hand { OnOk result (has_set self.new.sets ≡ false) }
    {
        let set = self.sets.set(alloc)?;
        let object = OpenObject::new(alloc, core, set.as_slice(), rows, bounds)?;
        self.sets.leave();
        self.leaf = Leaf::Object(object);
        Ok(())
    }
}
