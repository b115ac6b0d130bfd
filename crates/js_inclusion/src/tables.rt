//! The core tables of two schemas, and both in one.

ghost use Rattle.std.specs.Prelude.{◌≡◌, ◌<◌, length, IfOk, OnOk};
ghost use Rattle.js_guard.specs.RankedView.{entries_of};
ghost use Rattle.js_inclusion.specs.Comparison.{core_of, both, second_root};
ghost use Rattle.js_inclusion.specs.Tables.{IsSmallTable};

use js_algebra::{Core, Pos};
use js_doc::Memory;
use js_guard::RankedSchema;
use js_normal::{join_tables, normalise};
use std::alloc::Global;

/// The table of both schemas, with the positions of their roots.
pub(crate) fn joined_tables(
    alloc: Global,
    a: &RankedSchema,
    b: &RankedSchema,
) -> Result<(Core, Pos, Pos), Memory>
    ensures positions { IfOk result (λ r. r.0.positions ≡ both (entries_of a.now) (entries_of b.now)) }
    ensures first { IfOk result (λ r. r.1.0 ≡ 0) }
    ensures second { IfOk result (λ r. r.2.0 ≡ second_root (entries_of a.now)) }
    ensures first_in { IfOk result (λ r. r.1.0 < length r.0.positions) }
    ensures second_in { IfOk result (λ r. r.2.0 < length r.0.positions) }
    ensures a_table { OnOk result (IsSmallTable (entries_of a.now)) }
    ensures b_table { OnOk result (IsSmallTable (entries_of b.now)) }
{
    let first = core_table(alloc, a)?;
    let second = core_table(alloc, b)?;
    join_tables(alloc, &first, &second)
}

fn core_table(alloc: Global, schema: &RankedSchema) -> Result<Core, Memory>
    ensures positions { IfOk result (λ c. c.positions ≡ core_of (entries_of schema.now)) }
    ensures filled { IfOk result (λ c. 0 < length c.positions) }
    ensures table { OnOk result (IsSmallTable (entries_of schema.now)) }
{
    prove!(schema.table.len() > 0);
    normalise(alloc, schema)
}
