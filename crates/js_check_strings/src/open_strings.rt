//! What is still to be shown where no string is to meet a set.

ghost use Rattle.std.specs.Prelude.{◌≡◌, ℕ, List};
ghost use Rattle.finders.specs.Strings as S;
ghost use Rattle.finders.specs.Strings.{string_atoms, is_wanted};
ghost use Rattle.js_check_rows.specs.RowsView.{atoms_of};
ghost use Rattle.js_said.specs.AtomCode.{same_atoms-prop};
ghost use Rattle.js_asked.specs.Asking.{atoms_in, asks};

use crate::wanted::is_as_asked;
use js_algebra::{Core, Signed, SignedList};
use js_asked::Asked;
use js_bounds::{Bounds, is_at_end};
use js_check_rows::{Rows, rule_of};
use js_lines::CertLine;
use js_rules::{Rule, RuleFault};
use std::alloc::Global;

/// What is still to be shown of a set at strings: rows, then least lengths, then nothing. Contracts see the duties, by
/// `duties_of`, and the table of positions.
///
/// It owns what it keeps of the set, so the set may change meanwhile.
#[derive(Drop)]
pub struct OpenStrings<'a> {
    core: &'a Core,
    set: SignedList,
    asked: Asked,
    below: Option<u128>,
    rows: Rows,
    done: bool,
    ghost asked_atoms: { atoms_in asked ≡ string_atoms core.now.positions set } by { same_atoms-prop _ _ },
    ghost row_atoms: { atoms_of rows ≡ string_atoms core.now.positions set } by { same_atoms-prop _ _ },
    ghost words: { (w : List ℕ) → asks asked w ≡ is_wanted core.now.positions set w },
    ghost end: { below ≡ S.below core.now.positions set },
}

impl<'a> OpenStrings<'a> {
    ghost use Rattle.std.specs.Prelude.{◌≡◌, ◌↔◌, ◌<◌, ℕ, List, [], ◌∷◌, map, length, get_or, Bool, true, ◌||◌, not, Ok, IfOk, OnOk, IfErr, IsTrue};
    ghost use Rattle.frames.specs.Frame as F;
    ghost use Rattle.goals.specs.Signed as G;
    ghost use Rattle.certificate_lines.specs.Line as L;
    ghost use Rattle.verdicts.specs.Duties.{ForLengths, begin_rows, after_least, run};
    ghost use Rattle.verdicts.specs.Leaves.{least_right, least_past};
    ghost use Rattle.js_algebra.specs.View.{signed_view, are_in_table};
    ghost use Rattle.js_lines.specs.View.{line_view};
    ghost use Rattle.js_rules.specs.Told.{Breaks};
    ghost use Rattle.js_check_rows.specs.RowsView.{atoms_of, count_of, table_of as rows_table};
    ghost use Rattle.js_asked.specs.Asking.{atoms_in, asks};
    ghost use Rattle.js_check_strings.specs.View.{table_of, duties_of};

    /// Begins with a line that so many rows follow. It finds the classes of what the literals require of words.
    pub fn new(
        alloc: Global,
        core: &'a Core,
        set: &[Signed],
        count: u32,
    ) -> Result<OpenStrings<'a>, RuleFault>
        requires in_table { are_in_table core.now.positions (map signed_view set.now) ≡ true }
        ensures taken { IfOk result (λ s. begin_rows core.now.positions ForLengths (map signed_view set.now) count
            ≡ Ok (duties_of s)) }
        ensures table { IfOk result (λ s. table_of s ≡ core.now.positions) }
        ensures broken { IfErr result (λ fault. Breaks
            (begin_rows core.now.positions ForLengths (map signed_view set.now) count) fault) }
    {
        let bounds = Bounds::of_strings(core, set);
        let asked = Asked::of(alloc, core, set, bounds.lower)?;
        let own = SignedList::from_vec(Vec::from_slice(alloc, set)?);
        match Rows::new(alloc, asked.atoms(), count) {
            Ok(rows) => Ok(OpenStrings {
                core,
                set: own,
                asked,
                below: bounds.below,
                rows,
                done: false,
            }),
            Err(fault) => Err(rule_of(fault)),
        }
    }

    /// Whether nothing is left to show.
    pub fn is_done(&self) -> bool
        ensures { IsTrue result ↔ (duties_of self.now ≡ []) }
    {
        self.done
    }

    /// Takes the next line. What may be cited doesn't matter, since no line of strings cites.
    ///
    /// A row costs a step and a comparison of states for each class; least lengths cost a look at each class and each
    /// truth of each row. After a fault nothing is said of what is left to show.
    pub fn take(&mut self, alloc: Global, line: &CertLine) -> Result<(), RuleFault>
        ensures taken { OnOk result ((cite : ℕ → List G.Signed → Bool)
            → run (table_of self.old) cite (duties_of self.old) (line_view line.now ∷ [])
            ≡ Ok (duties_of self.new)) }
        ensures broken { IfErr result (λ fault. (cite : ℕ → List G.Signed → Bool)
            → Breaks (run (table_of self.old) cite (duties_of self.old) (line_view line.now ∷ [])) fault) }
        ensures table { table_of self.new ≡ table_of self.old }
    {
        match line {
            CertLine::Row(targets) => self.take_row(alloc, targets.as_slice()),
            CertLine::Least(labels) => self.take_least(labels.as_slice()),
            _ => Err(RuleFault::Breaks(Rule::OutOfPlace)),
        }
    }

    /// Takes the targets of the next row.
    fn take_row(&mut self, alloc: Global, targets: &[u32]) -> Result<(), RuleFault>
        ensures taken { OnOk result ((cite : ℕ → List G.Signed → Bool)
            → run (table_of self.old) cite (duties_of self.old) (L.Row targets.now ∷ [])
            ≡ Ok (duties_of self.new)) }
        ensures broken { IfErr result (λ fault. (cite : ℕ → List G.Signed → Bool)
            → Breaks (run (table_of self.old) cite (duties_of self.old) (L.Row targets.now ∷ [])) fault) }
        ensures table { table_of self.new ≡ table_of self.old }
    {
        if self.done || self.rows.is_whole() {
            return Err(RuleFault::Breaks(Rule::OutOfPlace));
        }
        match self.rows.take(alloc, targets) {
            Ok(()) => Ok(()),
            Err(fault) => Err(rule_of(fault)),
        }
    }

    /// Takes the least lengths of all rows.
    fn take_least(&mut self, labels: &[u32]) -> Result<(), RuleFault>
        ensures taken { OnOk result ((cite : ℕ → List G.Signed → Bool)
            → run (table_of self.old) cite (duties_of self.old) (L.Least labels.now ∷ [])
            ≡ Ok (duties_of self.new)) }
        ensures broken { IfErr result (λ fault. (cite : ℕ → List G.Signed → Bool)
            → Breaks (run (table_of self.old) cite (duties_of self.old) (L.Least labels.now ∷ [])) fault) }
        ensures table { table_of self.new ≡ table_of self.old }
    {
        if self.done || !self.rows.is_whole() {
            return Err(RuleFault::Breaks(Rule::OutOfPlace));
        }
        self.judge_least(labels)?;
        self.done = true;
        Ok(())
    }

    /// Whether these are least lengths of the rows that were stated, and past the bound at each row that is wanted.
    fn judge_least(&self, labels: &[u32]) -> Result<(), RuleFault>
        requires whole { length (rows_table self.now.rows).targets ≡ count_of self.now.rows }
        ensures right { OnOk result (least_right [] [] (atoms_of self.now.rows) (rows_table self.now.rows) labels.now
            ≡ true) }
        ensures past { OnOk result (least_past (table_of self.now) self.now.set (rows_table self.now.rows) labels.now
            ≡ true) }
        ensures broken { IfErr result (λ fault. Breaks (after_least (table_of self.now) self.now.set
            (rows_table self.now.rows) labels.now) fault) }
    {
        if let Err(fault) = self.rows.least(labels) {
            return Err(rule_of(fault));
        }
        if self.are_past(labels) {
            Ok(())
        } else {
            Err(RuleFault::Breaks(Rule::WantedLeft))
        }
    }

    /// Whether the least length of each row that is wanted is past the bound.
    fn are_past(&self, labels: &[u32]) -> bool
        requires { length labels.now ≡ length (rows_table self.now.rows).words }
        ensures { result ≡ least_past (table_of self.now) self.now.set (rows_table self.now.rows) labels.now }
    {
        for row in 0..self.rows.mentioned() {
            if !self.is_past(row, labels[row as usize]) {
                return false;
            }
        }
        true
    }

    /// Whether so many characters are past the bound, or the words of the row aren't wanted.
    fn is_past(&self, row: u32, least: u32) -> bool
        requires { row < length (rows_table self.now.rows).words }
        ensures { result ≡ (not (is_wanted (table_of self.now) self.now.set
            (get_or (rows_table self.now.rows).words row []))
            || F.is_at_end least (S.below (table_of self.now) self.now.set)) }
    {
        is_at_end(u128::from(least), self.below) || !is_as_asked(&self.asked, &self.rows, row)
    }
}
