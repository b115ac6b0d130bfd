//! The line of least lengths.
//!
//! A row's word is that of the row that first named it, with one more letter. So the lengths follow from the steps that
//! name rows, and no word is spelled.

ghost use Rattle.std.specs.Prelude.{◌≡◌, ◌<◌, [], map, length, get_or, IfOk};
ghost use Rattle.certificate_lines.specs.Line as L;
ghost use Rattle.js_automaton.specs.AutomatonView.{atoms_of, rows_of};
ghost use Rattle.js_row_words.specs.Steps.{AreSteps};
ghost use Rattle.js_lines.specs.View.{line_view};

use js_automaton::Automaton;
use js_doc::Memory;
use js_lines::{CertLine, NumberList};
use js_row_words::{Step, steps};
use std::alloc::Global;

/// The length of each row's first word, as a line.
pub fn least_line(alloc: Global, automaton: &Automaton) -> Result<CertLine, Memory>
    ensures { IfOk result (λ line. line_view line ≡ L.Least (map length (rows_of automaton.now))) }
{
    let steps = steps(alloc, automaton)?;
    let lengths = lengths(alloc, automaton, &steps)?;
    Ok(CertLine::Least(NumberList::from_vec(lengths)))
}

/// The length of each row's first word.
fn lengths(alloc: Global, automaton: &Automaton, steps: &[Step]) -> Result<Vec<u32>, Memory>
    requires length { length steps.now ≡ length (rows_of automaton.now) }
    requires steps { AreSteps (atoms_of automaton.now) (rows_of automaton.now) steps.now
        (length (rows_of automaton.now)) }
    ensures { IfOk result (λ lengths. lengths.items ≡ map length (rows_of automaton.now)) }
{
    let mut lengths = Vec::with_capacity(alloc, steps.len())?;
    // Row 0 is that of the empty word.
    lengths.push(0)?;
    for row in 1..automaton.rows() {
        let before = steps[row as usize].row;
        lengths.push(lengths[before as usize] + 1)?;
    }
    Ok(lengths)
}
