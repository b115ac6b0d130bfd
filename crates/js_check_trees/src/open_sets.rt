//! The sets of a goal's tree at a kind that are still to be shown empty.

ghost use Rattle.std.specs.Prelude.{◌≡◌, length, reverse, true};
ghost use Rattle.js_algebra.specs.View.{are_in_table};
ghost use Rattle.js_check_trees.specs.Choosing.{are_fine};

use crate::growing::{add_choice, add_list, choice_count};
use crate::pending::Pending;
use crate::step::Step;
use crate::steps::step;
use js_algebra::{Core, Goal, JsonKind, Signed, SignedList, SignedSet};
use js_doc::Memory;
use js_lines::CertLine;
use js_rules::RuleFault;
use std::alloc::Global;

/// The set at hand, if there is one, and the choices that come after it, the next rule last. Contracts see the duties
/// that they stand for, by `duties_of`.
///
/// The members of the path are in the order in which they came, so the set at which a rule was met is the first of
/// them, and a line costs what it adds. After a call that failed, the choices that are left are some of those that
/// there were.
#[derive(Drop)]
pub struct OpenSets<'a> {
    core: &'a Core,
    kind: JsonKind,
    set: SignedSet,
    pending: Vec<Pending>,
    at_hand: bool,
    ghost in_table: { are_in_table core.now.positions set ≡ true },
    ghost fine: { are_fine core.now.positions (length set) (reverse pending.items) ≡ true },
}

impl<'a> OpenSets<'a> {
    ghost use Rattle.std.specs.Prelude.{◌≡◌, ◌++◌, [], ◌∷◌, true, false, OnOk, IfOk, IfErr};
    ghost use Rattle.verdicts.specs.Duties.{OfSet};
    ghost use Rattle.js_algebra.specs.View.{signed_view, kind_view, is_in_table, are_in_table};
    ghost use Rattle.js_lines.specs.View.{line_view};
    ghost use Rattle.js_rules.specs.declared.fault.RuleFault.TheVariants as F;
    ghost use Rattle.js_check_trees.specs.Choosing.{choices_of, choice_duties};
    ghost use Rattle.js_check_trees.specs.OpenSetsView.{table_of, kind_of, has_set, set_at_hand, duties_of, duties_after};
    ghost use Rattle.js_check_trees.specs.Taking.{begins_leaf, IsTaken, IsBroken};

    /// No duty.
    pub fn new(alloc: Global, core: &'a Core) -> OpenSets<'a>
        ensures duties { duties_of result ≡ [] }
        ensures hand { has_set result ≡ false }
        ensures table { table_of result ≡ core.now.positions }
    {
        OpenSets {
            core,
            kind: JsonKind::Null,
            set: SignedSet::new(alloc),
            pending: Vec::new(alloc),
            at_hand: false,
        }
    }

    /// Begins the tree of a goal at a kind, whatever was left.
    pub fn begin(&mut self, kind: JsonKind, goal: &Goal) -> Result<(), Memory>
        requires { are_in_table (table_of self.old) goal.now ≡ true }
        ensures duties { OnOk result (duties_of self.new ≡ OfSet (kind_view kind) goal.now ∷ []) }
        ensures hand { OnOk result (has_set self.new ≡ true) }
        ensures kind { kind_of self.new ≡ kind_view kind }
        ensures table { table_of self.new ≡ table_of self.old }
    {
        self.pending.clear();
        self.set.go_back(0);
        self.kind = kind;
        self.at_hand = true;
        add_list(&mut self.set, goal.as_slice())
    }

    /// The kind of the tree.
    pub fn kind(&self) -> JsonKind
        ensures { kind_view result ≡ kind_of self.now }
    {
        self.kind
    }

    /// Whether a set is at hand.
    pub fn has_set(&self) -> bool
        ensures { result ≡ has_set self.now }
    {
        self.at_hand
    }

    /// The set at hand in rising order, which costs sorting it.
    pub fn set(&self, alloc: Global) -> Result<SignedList, Memory>
        ensures set { IfOk result (λ s. s ≡ set_at_hand self.now) }
        ensures in_table { IfOk result (λ s. are_in_table (table_of self.now) s ≡ true) }
    {
        self.set.to_list(alloc)
    }

    /// Whether the line begins rows or a plan for the set at hand, so that it isn't for `take`.
    pub fn begins_leaf(&self, line: &CertLine) -> bool
        ensures { result ≡ begins_leaf (kind_of self.now) (line_view line.now) }
    {
        match line {
            CertLine::Strings(_) => self.kind == JsonKind::Text,
            CertLine::Array => self.kind == JsonKind::Array,
            CertLine::Object(_, _) => self.kind == JsonKind::Object,
            _ => false,
        }
    }

    /// Takes a line for the set at hand, after which none is at hand.
    ///
    /// A line that splits the set costs the same whatever its size; ends about bounds, truth values or numbers cost a
    /// pass over it.
    pub fn take(&mut self, alloc: Global, line: &CertLine) -> Result<(), RuleFault>
        requires hand { has_set self.old ≡ true }
        requires leaf { begins_leaf (kind_of self.old) (line_view line.now) ≡ false }
        ensures taken { OnOk result (IsTaken (table_of self.old) (duties_of self.old) (line_view line.now)
            (duties_of self.new)) }
        ensures broken { IfErr result (λ fault. IsBroken (table_of self.old) (duties_of self.old) (line_view line.now)
            fault) }
        ensures hand { OnOk result (has_set self.new ≡ false) }
        ensures kind { kind_of self.new ≡ kind_of self.old }
        ensures table { table_of self.new ≡ table_of self.old }
    {
        match step(alloc, self.core, self.kind, &self.set, line)? {
            Step::Ends => {
                self.leave();
                Ok(())
            }
            Step::Splits(rule) => self.put_off(rule),
            Step::Breaks(rule) => Err(RuleFault::Breaks(rule)),
        }
    }

    /// The set at hand is left to whoever judges its rows or plans.
    pub fn leave(&mut self)
        requires { has_set self.old ≡ true }
        ensures duties { duties_of self.old ≡ OfSet (kind_of self.old) (set_at_hand self.old) ∷ duties_of self.new }
        ensures hand { has_set self.new ≡ false }
        ensures kind { kind_of self.new ≡ kind_of self.old }
        ensures table { table_of self.new ≡ table_of self.old }
    {
        self.at_hand = false;
    }

    /// In place of the set at hand come the choices of a rule.
    fn put_off(&mut self, rule: Signed) -> Result<(), RuleFault>
        requires { is_in_table (table_of self.old) (signed_view rule) ≡ true }
        ensures duties { OnOk result (duties_of self.new ≡ choice_duties (kind_of self.old) (set_at_hand self.old)
            (choices_of (table_of self.old) (kind_of self.old) (signed_view rule)) ++ duties_after self.old) }
        ensures memory { IfErr result (λ fault. fault ≡ F.Memory) }
        ensures hand { OnOk result (has_set self.new ≡ false) }
        ensures kind { kind_of self.new ≡ kind_of self.old }
        ensures table { table_of self.new ≡ table_of self.old }
    {
        let members = self.set.len();
        self.pending.push(Pending {
            members,
            rule,
            next: 0,
        })?;
        self.at_hand = false;
        Ok(())
    }

    /// Takes the next choice to hand, if one is left. A choice costs its members.
    pub fn next(&mut self) -> Result<bool, Memory>
        requires { has_set self.old ≡ false }
        ensures duties { OnOk result (duties_of self.new ≡ duties_of self.old) }
        ensures hand { IfOk result (λ more. has_set self.new ≡ more) }
        ensures done { IfOk result (λ more. more ≡ false → duties_of self.new ≡ []) }
        ensures kind { kind_of self.new ≡ kind_of self.old }
        ensures table { table_of self.new ≡ table_of self.old }
    {
        while let Some(last) = self.pending.pop() {
            self.set.go_back(last.members);
            if last.next < choice_count(self.core, self.kind, last.rule) {
                self.pending.push(Pending {
                    next: last.next + 1,
                    ..last
                })?;
                add_choice(self.core, self.kind, last.rule, last.next, &mut self.set)?;
                self.at_hand = true;
                return Ok(true);
            }
        }
        Ok(false)
    }
}
