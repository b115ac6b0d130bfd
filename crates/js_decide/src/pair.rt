//! What is decided of two positions of a table.

ghost use Rattle.std.specs.Prelude.{◌≡◌, ◌<◌, ◌≤◌, length, None, IfOk};
ghost use Rattle.alternatives.specs.Limit.{Goals, most_goals, most_total};
ghost use Rattle.decisions.specs.Decision.{Limit, decision};
ghost use Rattle.decisions.specs.Meaning.{Means};
ghost use Rattle.certificate_lines.specs.Text.{lines_text};
ghost use Rattle.refutations.specs.Refutation.{refutation};
ghost use Rattle.js_expander.specs.Found.{finders};
ghost use Rattle.js_decide.specs.View.{decided_view};
ghost use Rattle.js_decide.specs.Certified.{HasCertificate, IsAccepted};
ghost use Rattle.js_decide.specs.Shallow.{IsShallow};
ghost use Rattle.js_decide.specs.Counted.{IsCounted};

use crate::certified::{decide_clash, decide_root};
use crate::verdict::Decided;
use js_algebra::{Core, Pos, Signed, form};
use js_doc::Memory;
use js_par::{Gate, Workers};
use std::alloc::Global;
use std::thread::Threads;

/// Whether a document meets the position `a` and not the position `b`.
///
/// It costs the exploration of the goals that the two lead to: an expansion each, which the workers share, and rounds
/// over their alternatives. Where there is no such document, it costs what `refute` costs beside that.
pub fn decide<R: Threads + Sync, G: Gate + Sync>(
    workers: &Workers<'_, R, G>,
    alloc: Global,
    core: &Core,
    a: Pos,
    b: Pos,
) -> Result<Decided, Memory>
    requires a_in { a.0 < length core.now.positions }
    requires b_in { b.0 < length core.now.positions }
    ensures decided { IfOk result
        (λ d. decided_view d ≡ decision (finders core.now.positions) core.now.positions a.0 b.0) }
    ensures certificate { IfOk result
        (λ d. HasCertificate (lines_text (refutation core.now.positions a.0 b.0)) d.verdict) }

    // What the verdict means, and that its certificate is one.
    ensures means { IfOk result (λ d. Means (finders core.now.positions) core.now.positions most_goals most_total a.0
        b.0 (decided_view d).verdict) }
    ensures accepted { IfOk result (λ d. IsAccepted core.now.positions a.0 b.0 d.verdict) }

    // A document is no deeper than the first round that has the root, nor than the last round that added a goal.
    ensures shallow { IfOk result (λ d. IsShallow (finders core.now.positions) core.now.positions most_goals most_total
        a.0 b.0 (decided_view d).verdict (decided_view d).rounds) }

    // Where a limit is reported, what it counts is more than its number: at the goal that is reported with it, or else
    // of all goals that were explored.
    ensures counted { IfOk result (λ d. IsCounted core.now.positions a.0 b.0 (decided_view d).verdict) }

    // Ten positions have too few goals to pass the limit on goals.
    ensures small { length core.now.positions ≤ 10
        → IfOk result (λ d. (decided_view d).verdict ≡ Limit Goals None → ⊥) }
{
    // The length comes with the fact that this is a table.
    let _length = core.len();
    match form(alloc, core, &[Signed::plus(a), Signed::minus(b)])? {
        Some(root) => decide_root(workers, alloc, core, root),
        None => decide_clash(alloc),
    }
}
