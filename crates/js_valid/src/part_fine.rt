//! Which entries have what they ask of the elements, members and names of a part, where the verdicts of all entries on
//! the parts below are known.

ghost use Rattle.std.specs.Prelude.{◌≡◌, ℕ, ◌<◌, ◌&&◌, List, true, nat_lt, map, length, IfOk};
ghost use Rattle.documents.specs.Document.{string};
ghost use Rattle.documents.specs.Tests.{every};
ghost use Rattle.draft06.specs.EntryValidity.{form_at};
ghost use Rattle.schemas.specs.Schema.{is_table};
ghost use Rattle.shared_documents.specs.Part as shared;
ghost use Rattle.shared_documents.specs.Unshared.{unshared};
ghost use Rattle.js_schema.specs.SchemaView.{schema_view};
ghost use Rattle.js_match.specs.Matching.{matches};
ghost use Rattle.js_valid.specs.PartTables.{KnowsTables};
ghost use Rattle.js_valid.specs.Parts as halves;
ghost use Rattle.js_valid.specs.Parts.{flag, of_member, of_name};
ghost use Rattle.js_valid.specs.Plan.{HasPlan, table_of, valid_at};
ghost use Rattle.js_valid.specs.Requests.{parts_list, parts_members};

use crate::ask::of_name;
use crate::decide::all_fine;
use crate::part_elements::are_elements_fine;
use crate::part_members::are_members_met;
use crate::request::keep_requests;
use crate::tables::{all_entries, holds};
use crate::validator::Validator;
use crate::verdicts::Verdicts;
use js_doc::{Memory, Part, PartId, PartIds, PartMap, Parts};
use js_schema::Schema;
use std::alloc::Global;

impl Validator<'_> {
    /// The tests of all entries. Time for what each asks of each element or member; a verdict on one is a look-up, and
    /// one on a name is decided for all entries at once.
    pub(crate) fn fine_entries(
        &self,
        parts: &Parts,
        id: PartId,
        tables: &[Verdicts],
    ) -> Result<Vec<bool>, Memory>
        requires plan { HasPlan self.now }
        requires within { id.0 < length parts.now }
        requires below { length tables.now ≡ id.0 }
        requires known { KnowsTables (table_of self.now) parts.now tables.now }
        ensures { IfOk result (λ fine. (e : ℕ) → e < length (table_of self.now) → flag fine.items e
            ≡ halves.parts matches (valid_at (table_of self.now)) (form_at (table_of self.now) e)
            (unshared parts.now id.0)) }
    {
        match parts.get(id) {
            Part::List(ids) => fine_list(self.alloc, self.schema, ids, tables),
            Part::Members(named) => self.fine_named(named, tables),
            _ => all_fine(self.alloc, self.schema.len() as usize),
        }
    }

    fn fine_named(&self, named: &PartMap, tables: &[Verdicts]) -> Result<Vec<bool>, Memory>
        requires plan { HasPlan self.now }
        requires below { every (λ i. nat_lt i (length tables.now)) (map (λ m. m.1) named.now) ≡ true }
        ensures { IfOk result (λ fine. (ps : List shared.Part) → KnowsTables (table_of self.now) ps tables.now
            → (e : ℕ) → e < length (table_of self.now) → flag fine.items e
            ≡ parts_members matches (valid_at (table_of self.now)) (form_at (table_of self.now) e)
            (map (λ m. (m.0, unshared ps m.1)) named.now)) }
    {
        let names = self.fine_names(named)?;
        let mut fine = Vec::with_capacity(self.alloc, self.schema.len() as usize)?;
        for entry in 0..self.schema.len() {
            fine.push(is_entry_fine(self.alloc, self.schema, entry, &names, named, tables)?)?;
        }
        Ok(fine)
    }

    /// Which entries have what they ask of the names, each as a string.
    fn fine_names(&self, named: &PartMap) -> Result<Vec<bool>, Memory>
        requires plan { HasPlan self.now }
        ensures { IfOk result (λ fine. (e : ℕ) → e < length (table_of self.now) → flag fine.items e
            ≡ every (λ m. every (λ q. valid_at (table_of self.now) q (string m.0))
            (of_name (form_at (table_of self.now) e))) named.now) }
    {
        let mut fine = all_fine(self.alloc, self.schema.len() as usize)?;
        let mut held = Vec::new(self.alloc);
        let owners = all_entries(self.alloc, self.schema.len())?;
        let mut requests = of_name(self.alloc, self.schema, &owners)?;
        let members = named.as_slice();
        for member in members {
            // An entry that has failed is asked nothing more.
            keep_requests(&mut requests, &fine);
            self.decide_name(&mut held, &member.name, &requests, &mut fine)?;
        }
        Ok(fine)
    }
}

fn fine_list(
    alloc: Global,
    schema: &Schema,
    ids: &PartIds,
    tables: &[Verdicts],
) -> Result<Vec<bool>, Memory>
    requires { every (λ i. nat_lt i (length tables.now)) ids.now ≡ true }
    ensures { IfOk result (λ fine. (ps : List shared.Part) → KnowsTables (schema_view schema.now) ps tables.now
        → (e : ℕ) → e < length (schema_view schema.now) → flag fine.items e
        ≡ parts_list (valid_at (schema_view schema.now)) (form_at (schema_view schema.now) e)
        (map (unshared ps) ids.now)) }
{
    let mut fine = Vec::with_capacity(alloc, schema.len() as usize)?;
    for entry in 0..schema.len() {
        fine.push(are_elements_fine(schema.form(entry), ids, tables))?;
    }
    Ok(fine)
}

fn is_entry_fine(
    alloc: Global,
    schema: &Schema,
    entry: u32,
    names: &[bool],
    named: &PartMap,
    tables: &[Verdicts],
) -> Result<bool, Memory>
    requires table { is_table (schema_view schema.now) ≡ true }
    requires entry { entry < length (schema_view schema.now) }
    requires below { every (λ i. nat_lt i (length tables.now)) (map (λ m. m.1) named.now) ≡ true }
    ensures { IfOk result (λ b. (ps : List shared.Part) → KnowsTables (schema_view schema.now) ps tables.now
        → b ≡ (flag names.now entry && every (λ m. every (λ q. valid_at (schema_view schema.now) q (unshared ps m.1))
        (of_member matches (form_at (schema_view schema.now) entry) m.0)) named.now)) }
{
    if !holds(names, entry) {
        return Ok(false);
    }
    are_members_met(alloc, schema.form(entry), named, tables)
}
