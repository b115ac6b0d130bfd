//! The entries of listed goals.

ghost use Rattle.std.specs.Prelude.{◌≡◌, ℕ, ◌<◌, ◌^◌, ◌∷◌, ◌++◌, true, length, map, nat_eq, IfOk, OnOk, string_bytes};
ghost use Rattle.documents.specs.Tests.{every};
ghost use Rattle.list_laws.specs.In.{IsIn};
ghost use Rattle.word_states.specs.Mention.{mention_all};
ghost use Rattle.certificate_lines.specs.Line as L;
ghost use Rattle.certificate_lines.specs.Text.{lines_text};
ghost use Rattle.refutations.specs.GoalLines.{goal_lines};
ghost use Rattle.refutations.specs.Listing.{place_of, cited, renamed, listed, entries};
ghost use Rattle.js_algebra.specs.View.{are_in_table};
ghost use Rattle.js_refute.specs.Unmet.{goals_of, lines_of};

use crate::lines::append_lines;
use crate::unmet::Unmet;
use indexmap::IndexSet;
use js_algebra::{Core, Goal};
use js_doc::Memory;
use js_expansion::Dead;
use js_goal_lines::add_goal_lines;
use js_lines::{CertLine, append_line};
use std::alloc::Global;

/// Puts the entry of the goal at that place at the end, and lists what its lines cite.
fn append_entry<D: Dead>(
    alloc: Global,
    core: &Core,
    dead: &D,
    goal: &Goal,
    place: u32,
    listed: &mut IndexSet<u32>,
    text: &mut String,
) -> Result<(), Memory>
    requires { are_in_table core.now.positions goal.now ≡ true }
    ensures listed { OnOk result (listed.new.keys ≡ mention_all nat_eq listed.old.keys
        (cited (goal_lines (D.number_of dead.now) core.now.positions goal.now))) }
    ensures text { OnOk result (string_bytes text.new ≡ string_bytes text.old ++ lines_text (L.Entry place
        ∷ map (renamed (place_of listed.new.keys)) (goal_lines (D.number_of dead.now) core.now.positions goal.now))) }
{
    let mut lines = Vec::new(alloc);
    add_goal_lines(alloc, core, dead, goal, &mut lines)?;
    append_line(text, &CertLine::Entry(place))?;
    append_lines(alloc, listed, lines.as_slice(), text)
}

/// What is listed from the first goal on, and the text of its entries. Without a goal that is want of memory.
pub(crate) fn entries(
    alloc: Global,
    core: &Core,
    unmet: &Unmet,
) -> Result<(IndexSet<u32>, String), Memory>
    requires { every (are_in_table core.now.positions) (goals_of unmet.now) ≡ true }
    ensures listed { IfOk result
        (λ r. r.0.keys ≡ listed (goals_of unmet.now) (lines_of core.now.positions unmet.now)) }
    ensures text { IfOk result (λ r. string_bytes r.1 ≡ lines_text (entries (goals_of unmet.now)
        (lines_of core.now.positions unmet.now) (place_of r.0.keys) 0 r.0.keys)) }
    ensures few { IfOk result (λ r. length r.0.keys < 2 ^ 32) }
    ensures numbers { IfOk result (λ r. (k : ℕ) → IsIn k r.0.keys → k < length (goals_of unmet.now)) }
{
    if unmet.explored.len() == 0 {
        return Err(Memory);
    }
    let mut listed = IndexSet::new(alloc);
    let mut text = String::new(alloc);
    listed.insert(0)?;
    for place in 0..unmet.explored.len() {
        let Some(number) = listed.get_index(place as usize) else {
            return Ok((listed, text));
        };
        let goal = unmet.explored.goal(*number);
        append_entry(alloc, core, unmet, goal, place, &mut listed, &mut text)?;
    }
    Ok((listed, text))
}
