//! A schema with ranks of its entries.

ghost use Rattle.std.specs.Prelude.{◌≡◌, true, length};
ghost use Rattle.schemas.specs.Guarded.{edges, are_ranks};
ghost use Rattle.js_schema.specs.SchemaView.{schema_view};

use crate::ranks::Ranks;
use js_schema::{EntryList, Schema};

/// A schema without a cycle: a table of entries, and for each of them a rank, which falls along in-place edges.
#[derive(Drop)]
pub struct RankedSchema {
    pub table: Schema,
    pub ranks: Ranks,
    pub ghost falls: { are_ranks (edges (schema_view table)) ranks ≡ true },
    pub ghost counted: { length ranks ≡ length (schema_view table) },
}

/// What is found of a schema.
#[derive(Drop)]
pub enum Guarded {
    /// No entry leads back to itself at the same document.
    Ranked(RankedSchema),

    /// These entries of the schema apply to the same document in a circle, each by the one before.
    Circular(Schema, EntryList),
}
