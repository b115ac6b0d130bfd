//! Labels of whole rows: least lengths, and bounds of cells.
//!
//! Labels are numbers of a line, one for each row. Each is compared with what the labels of the rows to which its row
//! lead require, so both calls cost a look at each row and class, and neither takes memory.

ghost use Rattle.std.specs.Prelude.{◌≡◌, min, length, get_or, false};

use crate::fault::RowFault;
use crate::rows::Rows;

impl Rows {
    ghost use Rattle.std.specs.Prelude.{◌≡◌, ◌<◌, ◌≤◌, ◌+◌, ◌⊎◌, ℕ, [], min, length, get_or, true, IfOk, OnOk, IfErr};
    ghost use Rattle.word_states.specs.Classes.{class_count};
    ghost use Rattle.verdicts.specs.RowLines.{stated};
    ghost use Rattle.verdicts.specs.Leaves.{least_right};
    ghost use Rattle.js_check_rows.specs.RowsView.{atoms_of, count_of, table_of};
    ghost use Rattle.js_check_rows.specs.Labels.{IsTooGreat, LeastTells, asked_of, are_kept, BoundTells, AreBounds};

    /// Whether each row's label may be the least length of the words that lead to it: that of the first row is 0, and
    /// none is more than one above that of a row which leads there. A fault names the first row whose label is missing,
    /// one too many or too great.
    pub fn least(&self, labels: &[u32]) -> Result<(), RowFault>
        requires whole { length (table_of self.now).targets ≡ count_of self.now }
        ensures right { OnOk result (least_right [] [] (atoms_of self.now) (table_of self.now) labels.now ≡ true) }
        ensures wrong { IfErr result (λ fault. LeastTells (atoms_of self.now) (table_of self.now) labels.now fault) }
    {
        let known = shorter(labels, self.rows());
        let mut first = if label_at(labels, 0) > 0 { 0 } else { known };
        for row in 0..known {
            first = self.first_too_great(labels, row, first);
        }
        if first < known {
            return Err(RowFault::Least(first));
        }
        if labels.len() != self.rows() as usize {
            return Err(RowFault::Least(first));
        }
        Ok(())
    }

    /// The first row whose label is too great for a row that leads there, if it is before `first`, and else `first`.
    fn first_too_great(&self, labels: &[u32], row: u32, first: u32) -> u32
        requires whole { length (table_of self.now).targets ≡ count_of self.now }
        requires row { row < min (length labels.now) (count_of self.now) }
        requires first { first ≤ min (length labels.now) (count_of self.now) }
        ensures before { result ≤ first }
        ensures all { (k : ℕ) → k < class_count (atoms_of self.now) → stated (table_of self.now) row k < result
            → get_or labels.now (stated (table_of self.now) row k) 0 ≤ get_or labels.now row 0 + 1 }
        ensures from { (result ≡ first)
            ⊎ IsTooGreat (atoms_of self.now) (table_of self.now) labels.now result }
    {
        let most = labels[row as usize] as u64 + 1;
        let mut least = first;
        for class in 0..self.classes() {
            let target = self.target(row, class);
            if target < least && labels[target as usize] as u64 > most {
                least = target;
            }
        }
        least
    }

    /// Whether each row's label is enough for the labels of the rows to which it leads, each as often as its class has
    /// characters, and for one word more where the row is marked. Then no more words lead from the first row to marked
    /// ones than its label, which is answered. A fault names the first row whose label is missing, one too many or too
    /// small. A mark that is missing is none.
    pub fn capacity(&self, labels: &[u32], marks: &[bool]) -> Result<u32, RowFault>
        requires whole { length (table_of self.now).targets ≡ count_of self.now }
        ensures first { IfOk result (λ label. label ≡ get_or labels.now 0 0) }
        ensures right { OnOk result (are_kept (atoms_of self.now) (table_of self.now) marks.now labels.now ≡ true) }
        ensures rule { AreBounds (atoms_of self.now) (table_of self.now) marks.now labels.now }
        ensures wrong { IfErr result (λ fault. BoundTells (atoms_of self.now) (table_of self.now) marks.now labels.now
            fault) }
    {
        for row in 0..self.rows() {
            if row as usize >= labels.len() {
                return Err(RowFault::Capacity(row));
            }
            if (labels[row as usize] as u128) < self.asked(labels, marks, row) {
                return Err(RowFault::Capacity(row));
            }
        }
        if labels.len() > self.rows() as usize {
            return Err(RowFault::Capacity(self.rows()));
        }
        Ok(label_at(labels, 0))
    }

    /// What is required of the label of a row. Its targets' labels and its classes' widths have 32 bits.
    fn asked(&self, labels: &[u32], marks: &[bool], row: u32) -> u128
        requires whole { length (table_of self.now).targets ≡ count_of self.now }
        requires row { row < count_of self.now }
        ensures { result ≡ asked_of (atoms_of self.now) (table_of self.now) marks.now labels.now row }
    {
        let mut asked: u128 = if is_marked(marks, row) { 1 } else { 0 };
        for class in 0..self.classes() {
            let label = label_at(labels, self.target(row, class));
            asked += self.width(class) as u128 * label as u128;
        }
        asked
    }
}

/// The number of labels or that of rows, the lesser one.
fn shorter(labels: &[u32], rows: u32) -> u32
    ensures { result ≡ min (length labels.now) rows }
{
    if labels.len() < rows as usize {
        labels.len() as u32
    } else {
        rows
    }
}

/// The label of a row, or 0 where it is missing.
fn label_at(labels: &[u32], row: u32) -> u32
    ensures { result ≡ get_or labels.now row 0 }
{
    match labels.get(row as usize) {
        Some(label) => *label,
        None => 0,
    }
}

/// Whether a row is marked.
fn is_marked(marks: &[bool], row: u32) -> bool
    ensures { result ≡ get_or marks.now row false }
{
    match marks.get(row as usize) {
        Some(mark) => *mark,
        None => false,
    }
}
