//! The certificate: how many goals are listed, these goals, their entries, and the end.

ghost use Rattle.std.specs.Prelude.{
  ◌≡◌,
  ℕ,
  ◌<◌,
  ◌^◌,
  List,
  [],
  ◌∷◌,
  ◌++◌,
  true,
  None,
  get_or,
  length,
  map,
  IfOk,
  OnOk,
  string_bytes,
};
ghost use Rattle.documents.specs.Tests.{every};
ghost use Rattle.positions.specs.Position.{Position};
ghost use Rattle.goals.specs.Signed.{Signed};
ghost use Rattle.list_laws.specs.In.{IsIn};
ghost use Rattle.alternatives.specs.Expansion as X;
ghost use Rattle.decisions.specs.Decision.{root_of};
ghost use Rattle.certificate_lines.specs.Line as L;
ghost use Rattle.certificate_lines.specs.Text.{line_text, lines_text};
ghost use Rattle.refutations.specs.Listing.{certificate};
ghost use Rattle.refutations.specs.Refutation.{found_refutation, empty_certificate};
ghost use Rattle.js_algebra.specs.View.{are_in_table};
ghost use Rattle.js_explore.specs.ExploredView.{explored_view};
ghost use Rattle.js_explore.specs.Exploration.{Explores};
ghost use Rattle.js_rounds.specs.State.{AreRounds};
ghost use Rattle.js_refute.specs.Good.{IsGood, FoundNone};
ghost use Rattle.js_refute.specs.Unmet.{goals_of, lines_of};

use crate::entries::entries;
use crate::unmet::Unmet;
use js_algebra::{Core, Goal, SignedList};
use js_doc::Memory;
use js_explore::Explored;
use js_lines::{CertLine, Version, append_line};
use js_rounds::Rounds;
use std::alloc::Global;

/// Puts the line of a goal at the end.
fn append_goal(alloc: Global, goal: &Goal, text: &mut String) -> Result<(), Memory>
    ensures { OnOk result (string_bytes text.new ≡ string_bytes text.old ++ line_text (L.Goal goal.now)) }
{
    let list = Vec::from_slice(alloc, goal.as_slice())?;
    append_line(text, &CertLine::Goal(SignedList::from_vec(list)))
}

/// Puts the lines before those of goals at the end, where so many are listed.
fn append_head(count: u32, text: &mut String) -> Result<(), Memory>
    ensures { OnOk result (string_bytes text.new
        ≡ string_bytes text.old ++ lines_text (L.Version ∷ L.Goals count ∷ [])) }
{
    append_line(text, &CertLine::Certificate(Version::One))?;
    append_line(text, &CertLine::Goals(count))
}

/// The lines before the entries.
fn front(alloc: Global, explored: &Explored, listed: &[u32]) -> Result<String, Memory>
    requires few { length listed.now < 2 ^ 32 }
    requires numbers { (k : ℕ) → IsIn k listed.now → k < length (explored_view explored.now).found.goals }
    ensures { IfOk result (λ s. string_bytes s ≡ lines_text (L.Version ∷ L.Goals (length listed.now)
        ∷ map (λ k. L.Goal (get_or (explored_view explored.now).found.goals k [])) listed.now)) }
{
    let mut text = String::new(alloc);
    append_head(listed.len() as u32, &mut text)?;
    for number in listed {
        append_goal(alloc, explored.goal(*number), &mut text)?;
    }
    Ok(text)
}

/// The certificate of the goals that no round has.
fn certificate(alloc: Global, core: &Core, unmet: &Unmet) -> Result<Vec<u8>, Memory>
    requires { every (are_in_table core.now.positions) (goals_of unmet.now) ≡ true }
    ensures { IfOk result (λ text. text.items
        ≡ lines_text (certificate (goals_of unmet.now) (lines_of core.now.positions unmet.now))) }
{
    let (listed, mut text) = entries(alloc, core, unmet)?;
    append_line(&mut text, &CertLine::End)?;
    let front = front(alloc, unmet.explored, listed.as_slice())?;
    // Room for the front and no more: without it the text may be held three times, as it moves to twice its room.
    text.reserve_exact(front.len())?;
    text.insert_str(0, front.as_str())?;
    Ok(text.into_bytes())
}

/// The certificate that no document meets the first explored goal, where no round has it. It is `Memory` too where no
/// goal was explored at all, which `explore` never answers.
///
/// It costs the lines of each listed goal, a hash for each number that is cited, and what is linear in the text. It
/// takes memory for the text, and for the lines of one goal at a time.
pub fn refute(
    alloc: Global,
    core: &Core,
    explored: &Explored,
    rounds: &Rounds,
) -> Result<Vec<u8>, Memory>
    requires has_run { rounds.now.has_run ≡ true }
    requires inside { every (are_in_table core.now.positions) (explored_view explored.now).found.goals ≡ true }
    ensures text { IfOk result (λ text. (expansion : List Signed → X.Expansion)
        → Explores expansion (explored_view explored.now)
        → AreRounds expansion (explored_view explored.now).found rounds.now
        → text.items
        ≡ lines_text (found_refutation expansion (explored_view explored.now).found core.now.positions)) }

    // Where the rounds show that no document meets the goal of two positions, they are in the grammar and accepted.
    ensures good { IfOk result (λ text. (a b : ℕ)
        → FoundNone core.now.positions a b (explored_view explored.now) rounds.now
        → IsGood core.now.positions a b text.items) }
{
    // The length comes with the facts that the table is one, and that its numbers have 32 bits.
    let _length = core.len();
    certificate(alloc, core, &Unmet::new(explored, rounds))
}

/// The certificate that no document meets a root that clashes.
pub fn no_goal(alloc: Global) -> Result<Vec<u8>, Memory>
    ensures text { IfOk result (λ text. text.items ≡ lines_text empty_certificate) }
    ensures good { IfOk result (λ text. (T : List Position) (a b : ℕ) → root_of T a b ≡ None
        → IsGood T a b text.items) }
{
    let mut text = String::new(alloc);
    append_head(0, &mut text)?;
    append_line(&mut text, &CertLine::End)?;
    Ok(text.into_bytes())
}
