//! The comparison of two schemas.

ghost use Rattle.std.specs.Prelude.{◌≡◌, IfOk};
ghost use Rattle.js_guard.specs.RankedView.{entries_of};
ghost use Rattle.js_decide.specs.View.{verdict_view, decided_view};
ghost use Rattle.js_decide.specs.Certified.{HasCertificate};
ghost use Rattle.js_inclusion.specs.Comparison.{decided_of, certificate_text};
ghost use Rattle.js_inclusion.specs.Meaning.{Means, AreCounted};

use crate::tables::joined_tables;
use js_decide::{Decided, decide};
use js_doc::Memory;
use js_guard::RankedSchema;
use js_par::{Gate, Workers};
use std::alloc::Global;
use std::thread::Threads;

/// Compares two schemas: it finds a document that is valid for the first and not for the second, the certificate that
/// there is none, or a limit. The cost is that of the core tables and of the search that `decide` makes.
pub fn compare<R: Threads + Sync, G: Gate + Sync>(
    workers: &Workers<'_, R, G>,
    alloc: Global,
    a: &RankedSchema,
    b: &RankedSchema,
) -> Result<Decided, Memory>
    ensures answer { IfOk result (λ d. decided_view d ≡ decided_of (entries_of a.now) (entries_of b.now)) }
    ensures certificate { IfOk result
        (λ d. HasCertificate (certificate_text (entries_of a.now) (entries_of b.now)) d.verdict) }

    // What the answer means for the values that the schemas are read from.
    ensures means { IfOk result (λ d. Means (entries_of a.now) (entries_of b.now) (verdict_view d.verdict)) }

    // Where a limit is reported, what it counts is more than its number: at the goal that is reported with it, or else
    // of all goals that were explored.
    ensures counted { IfOk result (λ d. AreCounted (entries_of a.now) (entries_of b.now) (verdict_view d.verdict)) }
{
    let (core, at_a, at_b) = joined_tables(alloc, a, b)?;
    let decided = decide(workers, alloc, &core, at_a, at_b)?;
    Ok(decided)
}
