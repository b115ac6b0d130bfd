//! The lines of a tree, step by step.

ghost use Rattle.std.specs.Prelude.{◌≡◌, ◌++◌, [], ◌∷◌, map, true, IfOk, OnOk};
ghost use Rattle.refutations.specs.TreeLines.{step_lines, tree_lines};
ghost use Rattle.refutations.specs.GoalLines.{leaf_lines};
ghost use Rattle.js_algebra.specs.View.{kind_view};
ghost use Rattle.js_lines.specs.View.{line_view};
ghost use Rattle.js_tableau.specs.Walks.{step_view};
ghost use Rattle.js_tableau.specs.Progress.{IsTree, AfterStep, left, told_set};

use crate::leaf::add_leaf_lines;
use js_algebra::{Core, JsonKind};
use js_doc::Memory;
use js_expansion::Dead;
use js_kept_automaton::KeptAutomaton;
use js_lines::CertLine;
use js_tableau::{Step, Tree};
use std::alloc::Global;

/// Adds the lines of the steps that a tree has left. The automaton that is kept serves its branches one after another.
pub(crate) fn add_tree_lines<D: Dead>(
    alloc: Global,
    core: &Core,
    dead: &D,
    kind: JsonKind,
    mut tree: Tree,
    lines: &mut Vec<CertLine>,
) -> Result<(), Memory>
    requires { IsTree core.now.positions (kind_view kind) tree }
    ensures { OnOk result (map line_view lines.new.items ≡ map line_view lines.old.items
        ++ tree_lines (leaf_lines (D.number_of dead.now) core.now.positions (kind_view kind))
        (left core.now.positions (kind_view kind) tree)) }
{
    let mut kept = KeptAutomaton::new();
    while let Some(step) = next_step(core, kind, &mut tree)? {
        add_step_lines(alloc, core, dead, kind, &tree, step, &mut kept, lines)?;
    }
    Ok(())
}

/// The next step of a tree, none at its end.
fn next_step(core: &Core, kind: JsonKind, tree: &mut Tree) -> Result<Option<Step>, Memory>
    requires { IsTree core.now.positions (kind_view kind) tree.old }
    ensures step { IfOk result (λ o. AfterStep core.now.positions (kind_view kind) tree.old tree.new o) }
    ensures tree { OnOk result (IsTree core.now.positions (kind_view kind) tree.new) }
{
    match tree.next(core, kind) {
        Ok(step) => Ok(step),
        Err(_) => Err(Memory),
    }
}

/// Adds the lines of the step that was given last: one, or those of a saturated end.
fn add_step_lines<D: Dead>(
    alloc: Global,
    core: &Core,
    dead: &D,
    kind: JsonKind,
    tree: &Tree,
    step: Step,
    kept: &mut KeptAutomaton,
    lines: &mut Vec<CertLine>,
) -> Result<(), Memory>
    requires { IsTree core.now.positions (kind_view kind) tree.now }
    ensures { OnOk result (map line_view lines.new.items ≡ map line_view lines.old.items
        ++ step_lines (leaf_lines (D.number_of dead.now) core.now.positions (kind_view kind))
        (step_view core.now.positions (kind_view kind) (told_set tree.now) step)) }
{
    match step {
        Step::Clash(x) => add_line(CertLine::Clash(x.pos), lines),
        Step::Wrong(x) => add_line(CertLine::Kind(x), lines),
        Step::Rule(x, _) => add_line(CertLine::Rule(x), lines),
        Step::Saturated => add_set_lines(alloc, core, dead, kind, tree, kept, lines),
    }
}

fn add_line(line: CertLine, lines: &mut Vec<CertLine>) -> Result<(), Memory>
    ensures { OnOk result (lines.new.items ≡ lines.old.items ++ line ∷ []) }
{
    lines.push(line)?;
    Ok(())
}

/// Adds the lines of the set of the step that was given last.
fn add_set_lines<D: Dead>(
    alloc: Global,
    core: &Core,
    dead: &D,
    kind: JsonKind,
    tree: &Tree,
    kept: &mut KeptAutomaton,
    lines: &mut Vec<CertLine>,
) -> Result<(), Memory>
    requires { IsTree core.now.positions (kind_view kind) tree.now }
    ensures { OnOk result (map line_view lines.new.items ≡ map line_view lines.old.items
        ++ leaf_lines (D.number_of dead.now) core.now.positions (kind_view kind) (told_set tree.now)) }
{
    let set = tree.set(alloc)?;
    add_leaf_lines(alloc, core, dead, kind, set.as_slice(), kept, lines)
}
