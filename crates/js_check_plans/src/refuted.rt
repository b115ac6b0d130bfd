//! Lists of signed positions that no document meets, as their ends say.

ghost use Rattle.std.specs.Prelude.{◌≡◌, map, true, IfOk};
ghost use Rattle.frames.specs.PlanLines as P;
ghost use Rattle.verdicts.specs.Duties.{ending};
ghost use Rattle.verdicts.specs.Verdict.{cites};
ghost use Rattle.js_algebra.specs.View.{signed_view, are_in_table};
ghost use Rattle.js_lines.specs.View.{end_view};

use js_algebra::{Core, Goal, Signed, contains, form};
use js_doc::Memory;
use js_lines::CertEnd;
use std::alloc::Global;

/// Whether the goal of that number is listed, and the goal contains it.
fn is_cited(goals: &[Goal], number: u32, goal: &Goal) -> bool
    ensures { result ≡ cites goals.now number goal.now }
{
    match goals.get(number as usize) {
        Some(listed) => contains(goal, listed),
        None => false,
    }
}

/// Whether the list clashes or forms a goal that contains a listed one, as its end says.
pub fn is_refuted(
    alloc: Global,
    core: &Core,
    goals: &[Goal],
    list: &[Signed],
    end: CertEnd,
) -> Result<bool, Memory>
    requires { are_in_table core.now.positions (map signed_view list.now) ≡ true }
    ensures { IfOk result (λ b. b ≡ P.is_refuted core.now.positions (cites goals.now) (map signed_view list.now)
        (ending (end_view end))) }
{
    let formed = form(alloc, core, list)?;
    Ok(match end {
        CertEnd::Clash => formed.is_none(),
        CertEnd::Goal(number) => match formed {
            Some(goal) => is_cited(goals, number, &goal),
            None => false,
        },
    })
}
