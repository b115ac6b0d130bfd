//! The text of a goal and its branches.

ghost use Rattle.std.specs.Prelude.{◌≡◌, true};
ghost use Rattle.js_algebra.specs.View.{are_in_table};
ghost use Rattle.js_tableau.specs.BranchWalks.{IsBranchWalk};

use js_algebra::{Core, Goal, JsonKind, Signed};
use js_doc::Memory;
use js_tableau::{BranchWalk, TableauFault};
use std::alloc::Global;

/// Of this many branches the sets are printed.
const SHOWN: usize = 40;

/// A line for the goal, and then for each kind its branches.
pub(crate) fn goal_text(alloc: Global, core: &Core, goal: &Goal) -> Result<String, Memory>
    requires { are_in_table core.now.positions goal.now ≡ true }
{
    let mut text = String::new(alloc);
    push_set(&mut text, "goal", goal.as_slice())?;
    for kind in JsonKind::ALL {
        push_branches(alloc, core, goal, kind, &mut text)?;
    }
    Ok(text)
}

fn push_branches(
    alloc: Global,
    core: &Core,
    goal: &Goal,
    kind: JsonKind,
    text: &mut String,
) -> Result<(), Memory>
    requires { are_in_table core.now.positions goal.now ≡ true }
{
    text.push_str(kind.as_word())?;
    match BranchWalk::new(alloc, core, goal, kind) {
        Ok(mut walk) => push_walk(alloc, core, &mut walk, text),
        Err(TableauFault::LimitBranches) => {
            text.push_str(" limit branches\n")?;
            Ok(())
        }
        Err(TableauFault::Memory) => Err(Memory),
    }
}

/// The number of branches, and their sets where they are few.
fn push_walk(
    alloc: Global,
    core: &Core,
    walk: &mut BranchWalk,
    text: &mut String,
) -> Result<(), Memory>
    requires { IsBranchWalk core.now.positions walk.old }
{
    let mut count = 0;
    let mut sets = String::new(alloc);
    while let Some(set) = walk.next(alloc, core)? {
        count += 1;
        if count <= SHOWN {
            push_set(&mut sets, "branch", set.as_slice())?;
        }
    }
    writeln!(text, " {count}")?;
    if count <= SHOWN {
        text.push_str(sets.as_str())?;
    }
    Ok(())
}

/// A line with a word and the signed positions of a set.
fn push_set(text: &mut String, word: &str, set: &[Signed]) -> Result<(), Memory> {
    text.push_str(word)?;
    for x in set {
        let sign = if x.plus { '+' } else { '-' };
        let place = x.pos.0;
        write!(text, " {sign}{place}")?;
    }
    text.push('\n')?;
    Ok(())
}
