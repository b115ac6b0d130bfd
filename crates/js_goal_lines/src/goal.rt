//! The lines of a goal, kind by kind.

ghost use Rattle.std.specs.Prelude.{◌≡◌, ◌++◌, map, drop, length, true, OnOk};
ghost use Rattle.refutations.specs.GoalLines.{kind_lines, goal_lines};
ghost use Rattle.js_algebra.specs.View.{kind_view, are_in_table};
ghost use Rattle.js_lines.specs.View.{line_view};
ghost use Rattle.js_goal_lines.specs.Dead.{AreDead};

use crate::tree::add_tree_lines;
use js_algebra::{Core, Goal, JsonKind};
use js_doc::Memory;
use js_expansion::Dead;
use js_lines::CertLine;
use js_tableau::Tree;
use std::alloc::Global;

/// Adds the lines that show that no document meets the goal, without the line that names it.
///
/// Where a tree has too many ends, or what a saturated set requires of a document passes a limit, that is want of
/// memory. None is passed where the goal was expanded without a limit.
pub fn add_goal_lines<D: Dead>(
    alloc: Global,
    core: &Core,
    dead: &D,
    goal: &Goal,
    lines: &mut Vec<CertLine>,
) -> Result<(), Memory>
    requires { are_in_table core.now.positions goal.now ≡ true }
    ensures lines { OnOk result (map line_view lines.new.items ≡ map line_view lines.old.items
        ++ goal_lines (D.number_of dead.now) core.now.positions goal.now) }

    // Where no alternative of the goal is met, they show by the checker's rules that no document meets it.
    ensures dead { OnOk result (AreDead (D.number_of dead.now) core.now.positions goal.now
        (drop (length lines.old.items) (map line_view lines.new.items))) }
{
    // The length comes with the fact that the table is one, on which what the lines show rests.
    let _length = core.len();
    for kind in JsonKind::ALL {
        add_kind_lines(alloc, core, dead, goal, kind, lines)?;
    }
    Ok(())
}

/// Adds the line of a kind, and the lines of the goal's tree there.
fn add_kind_lines<D: Dead>(
    alloc: Global,
    core: &Core,
    dead: &D,
    goal: &Goal,
    kind: JsonKind,
    lines: &mut Vec<CertLine>,
) -> Result<(), Memory>
    requires { are_in_table core.now.positions goal.now ≡ true }
    ensures { OnOk result (map line_view lines.new.items ≡ map line_view lines.old.items
        ++ kind_lines (D.number_of dead.now) core.now.positions goal.now (kind_view kind)) }
{
    lines.push(CertLine::At(kind))?;
    let tree = Tree::new(alloc, core, goal)?;
    add_tree_lines(alloc, core, dead, kind, tree, lines)
}
