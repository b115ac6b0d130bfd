//! Whether the entries of a schema apply to the same document in a circle.
//!
//! `guard` gives each entry a rank that falls along every in-place edge, or reports a cycle. What a cycle is and which
//! one is reported is in `schemas` (`Guarded`), what an answer means in `specs/Answer.antt`. The validator and the
//! normal form go down by ranks: they take a `RankedSchema`.
#![tactic(auto)]

ghost use Rattle.std.specs.Prelude.{IfOk};
ghost use Rattle.js_schema.specs.SchemaView.{schema_view};
ghost use Rattle.js_guard.specs.Answer.{Answers};

mod cycle;
mod distances;
mod edges;
mod ranked;
mod ranks;
mod reverse;
mod search;

use crate::cycle::least_cycle;
use crate::edges::Edges;
use crate::search::{Found, search_all};
use js_doc::Memory;
use js_schema::{EntryList, Schema};
pub use ranked::{Guarded, RankedSchema};
pub use ranks::Ranks;
use std::alloc::Global;

/// The schema with ranks for its entries, or the cycle that is reported of it. In-place edges lead to the target of
/// `$ref` and to the schemas under `allOf`, `anyOf`, `oneOf`, `not` and `dependencies`. It costs time and memory in
/// proportion to the entries and these edges.
pub fn guard(alloc: Global, schema: Schema) -> Result<Guarded, Memory>
    ensures { IfOk result (Answers (schema_view schema)) }
{
    let edges = Edges::of(alloc, &schema)?;
    match search_all(alloc, &edges)? {
        Found::Ranked(ranks) => Ok(Guarded::Ranked(RankedSchema {
            table: schema,
            ranks,
        })),
        Found::Circular(first) => {
            let cycle = least_cycle(alloc, &edges, first)?;
            Ok(Guarded::Circular(schema, EntryList::from_vec(cycle)))
        }
    }
}
