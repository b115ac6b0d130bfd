//! The steps that first name each row.

ghost use Rattle.std.specs.Prelude.{◌≡◌, ◌<◌, length, IfOk, OnOk};
ghost use Rattle.word_states.specs.Classes.{class_count};
ghost use Rattle.js_automaton.specs.AutomatonView.{atoms_of, rows_of};
ghost use Rattle.js_row_words.specs.Steps.{AreSteps, no_step};
ghost use Rattle.js_row_words.specs.Naming.{named};

use js_automaton::Automaton;
use js_doc::Memory;
use std::alloc::Global;

/// A class by which a row leads on.
#[derive(Clone, Copy)]
pub struct Step {
    pub row: u32,
    pub class: u32,
}

/// For each row but row 0 the step that first names it; row 0 has no step, and something is there.
pub fn steps(alloc: Global, automaton: &Automaton) -> Result<Vec<Step>, Memory>
    ensures length { IfOk result (λ steps. length steps.items ≡ length (rows_of automaton.now)) }
    ensures steps { IfOk result (λ steps. AreSteps (atoms_of automaton.now) (rows_of automaton.now) steps.items
        (length (rows_of automaton.now))) }
{
    let mut steps = Vec::with_capacity(alloc, automaton.rows() as usize)?;
    steps.push(Step { row: 0, class: 0 })?;
    for row in 0..automaton.rows() {
        name_rows(automaton, row, &mut steps)?;
    }
    Ok(steps)
}

/// Adds the steps of a row that name further rows.
fn name_rows(automaton: &Automaton, row: u32, steps: &mut Vec<Step>) -> Result<(), Memory>
    requires row { row < length (rows_of automaton.now) }
    requires length { length steps.old.items ≡ length (named (atoms_of automaton.now) (rows_of automaton.now) row 0) }
    requires steps { AreSteps (atoms_of automaton.now) (rows_of automaton.now) steps.old.items
        (length steps.old.items) }
    ensures length { OnOk result (length steps.new.items
        ≡ length (named (atoms_of automaton.now) (rows_of automaton.now) row (class_count (atoms_of automaton.now)))) }
    ensures steps { OnOk result (AreSteps (atoms_of automaton.now) (rows_of automaton.now) steps.new.items
        (length steps.new.items)) }
{
    for class in 0..automaton.classes() {
        if automaton.target(row, class) as usize == steps.len() {
            steps.push(Step { row, class })?;
        }
    }
    Ok(())
}
