//! Whether a document is valid for a schema of draft-06, given as a table of entries.
//!
//! `valid` answers `entry_valid` of `draft06` exactly. It goes down the document: at each part the entries that are
//! applied to it are decided together, each once, those with lesser ranks first, and no other is looked at: so shared
//! references and nested choices cost no more than the entries that they lead to. Neither long chains of references nor
//! repeats in patterns are recursions; only the document's depth is. The commands that judge documents stand on it.
#![tactic(auto)]

mod ask;
mod asked;
mod choices;
mod comparison;
mod decide;
mod fault;
mod found;
mod order;
mod own;
mod part_comparison;
mod part_elements;
mod part_fine;
mod part_frame;
mod part_members;
mod part_own;
mod part_verdicts;
mod pending;
mod plain;
mod plan;
mod request;
mod same;
mod scalar;
mod search;
mod settle;
mod stand;
mod tables;
mod targets;
mod validator;
mod verdicts;

ghost use Rattle.std.specs.Prelude.{◌≡◌, ◌<◌, IfOk, length};
ghost use Rattle.draft06.specs.EntryValidity.{entry_valid};
ghost use Rattle.shared_documents.specs.Unshared.{unshared};
ghost use Rattle.js_doc.specs.View.{view};
ghost use Rattle.js_guard.specs.RankedView.{entries_of};
ghost use Rattle.js_schema.specs.SchemaView.{schema_view};
ghost use Rattle.js_match.specs.Matching.{matches};
ghost use Rattle.js_valid.specs.Plan.{IsPlan, IsPlanned};

use crate::choices::all_choices;
use crate::order::order_of;
use crate::plan::{Plan, places_of};
use crate::targets::targets_of;
use crate::validator::Validator;
pub use fault::ValidFault;
use js_doc::{Doc, Memory, PartId, Parts};
use js_guard::RankedSchema;
use js_schema::Schema;
use std::alloc::Global;

/// Whether the document is valid for the root of the schema, entry 0.
///
/// Time: the entries once, and at each part of the document what the entries that are applied to it look at there; a
/// pattern costs the nodes of its tree times the length of the text for each round of its repeats. Memory for the
/// entries and the values of each `enum` once, and at each level of the document for those that are applied. These
/// values are sorted once, and a part is compared with as many of them as the logarithm of their number.
pub fn valid(alloc: Global, schema: &RankedSchema, doc: &Doc) -> Result<bool, ValidFault>
    ensures { IfOk result (λ b. b ≡ entry_valid matches (entries_of schema.now) 0 (view doc.now)) }
{
    let plan = plan_of(alloc, schema)?;
    Ok(is_root_met(alloc, &schema.table, &plan, doc)?)
}

/// Whether the document that a part of a table stands for is valid for the root of the schema, entry 0. Nothing is
/// unshared: each pair of an entry and a part is decided once, for the parts up to that one, lowest first.
///
/// Time: for each part, the number of entries, and what each of them looks at there; `enum` and `const` cost their
/// value, a pattern as in `valid`. Memory of a bit for each entry and part. No call goes down the parts.
pub fn valid_parts(
    alloc: Global,
    schema: &RankedSchema,
    parts: &Parts,
    part: PartId,
) -> Result<bool, ValidFault>
    requires { part.0 < length parts.now }
    ensures { IfOk result (λ b. b ≡ entry_valid matches (entries_of schema.now) 0 (unshared parts.now part.0)) }
{
    let plan = plan_of(alloc, schema)?;
    Ok(is_part_met(alloc, &schema.table, &plan, parts, part)?)
}

/// The entries in an order in which each comes after those that it names in place, with the target of each and the
/// values that it lists.
fn plan_of(alloc: Global, schema: &RankedSchema) -> Result<Plan<'_>, Memory>
    ensures { IfOk result (λ plan. IsPlanned (entries_of schema.now) plan) }
{
    let order = ordered(alloc, schema)?;
    let places = places_of(alloc, &order, schema.table.len() as usize)?;
    let targets = targets_of(alloc, &schema.table, &order)?;
    let choices = all_choices(alloc, &schema.table)?;
    Ok(Plan {
        order,
        places,
        targets,
        choices,
    })
}

fn ordered(alloc: Global, schema: &RankedSchema) -> Result<Vec<u32>, Memory>
    ensures { IfOk result (λ order. IsPlan (entries_of schema.now) order.items) }
{
    order_of(alloc, schema.ranks.as_slice())
}

fn is_root_met(alloc: Global, schema: &Schema, plan: &Plan<'_>, doc: &Doc) -> Result<bool, Memory>
    requires { IsPlanned (schema_view schema.now) plan.now }
    ensures { IfOk result (λ b. b ≡ entry_valid matches (schema_view schema.now) 0 (view doc.now)) }
{
    let mut held = Vec::with_capacity(alloc, schema.len() as usize)?;
    let validator = Validator {
        alloc,
        schema,
        plan,
    };
    validator.is_met(&mut held, doc, 0)
}

fn is_part_met(
    alloc: Global,
    schema: &Schema,
    plan: &Plan<'_>,
    parts: &Parts,
    part: PartId,
) -> Result<bool, Memory>
    requires within { part.0 < length parts.now }
    requires plan { IsPlanned (schema_view schema.now) plan.now }
    ensures { IfOk result (λ b. b ≡ entry_valid matches (schema_view schema.now) 0 (unshared parts.now part.0)) }
{
    let validator = Validator {
        alloc,
        schema,
        plan,
    };
    validator.is_part_met(parts, part, 0)
}
