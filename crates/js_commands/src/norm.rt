//! `norm`: the file is read, and the table of its schema is written as text.

ghost use Rattle.std.specs.Prelude.{◌≡◌, [], ◌∷◌, ◌++◌, IfOk, OnErr, OnOk, encode_utf8_all, string_bytes};
ghost use Rattle.js_guard.specs.RankedView.{entries_of};
ghost use Rattle.js_commands.specs.NormOutcome.{table_text, MeansValidity};
ghost use Rattle.js_commands.specs.NormSaying.{ListingSays};

use js_core_text::core_text;
use js_doc::{Memory, Str};
use js_guard::RankedSchema;
use js_input::{SchemaInput, load_schema};
use js_normal::normalise;
use js_outside::Shelf;
use std::alloc::Global;

/// What a schema file comes to.
#[derive(Drop)]
pub enum Listing {
    /// The text of its core table.
    Text(String),

    /// The words of its refusal after its role.
    Refused(String),

    /// The file couldn't be read, and a fault is counted.
    ReadFault,
}

/// Lists the core table of the schema in a file.
pub fn list_table<H: Shelf>(alloc: Global, shelf: &mut H, name: &Str) -> Result<Listing, Memory>
    ensures told { H.told shelf.new ≡ H.told shelf.old }
    ensures says { IfOk result (ListingSays (H.told shelf.old) name.now (H.faults shelf.old) (H.faults shelf.new)) }
    ensures memory { OnErr result (H.faults shelf.new ≡ H.faults shelf.old) }
    ensures begun { H.begun shelf.new ≡ H.begun shelf.old ++ encode_utf8_all name.now ∷ [] }
{
    match load_schema(alloc, shelf, name)? {
        Some(SchemaInput::Read(schema)) => Ok(Listing::Text(text_of(alloc, &schema)?)),
        Some(SchemaInput::Refused(words)) => Ok(Listing::Refused(words)),
        None => Ok(Listing::ReadFault),
    }
}

/// The text of a schema's table.
#[tactic(auto, using(crate::proofs::NormTableLemmas::means_validity))]
fn text_of(alloc: Global, schema: &RankedSchema) -> Result<String, Memory>
    ensures text { IfOk result (λ s. string_bytes s ≡ table_text (entries_of schema.now)) }
    ensures means { OnOk result (MeansValidity (entries_of schema.now)) }
{
    let core = normalise(alloc, schema)?;
    core_text(alloc, &core)
}
