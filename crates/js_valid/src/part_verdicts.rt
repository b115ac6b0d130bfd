//! The verdicts of all entries on the parts of a table, lowest part first, so that each pair of entry and part is
//! decided once and nothing is unshared.

ghost use Rattle.std.specs.Prelude.{◌≡◌, ℕ, ◌<◌, ◌&&◌, length, IfOk};
ghost use Rattle.draft06.specs.EntryValidity.{form_at};
ghost use Rattle.shared_documents.specs.Unshared.{unshared};
ghost use Rattle.js_match.specs.Matching.{matches};
ghost use Rattle.js_valid.specs.PartTables.{IsFramed, KnowsTables, document_of};
ghost use Rattle.js_valid.specs.Parts as halves;
ghost use Rattle.js_valid.specs.Parts.{flag, own};
ghost use Rattle.js_valid.specs.Plan.{HasPlan, table_of, valid_at};

use crate::part_elements::holds_at;
use crate::part_frame::{FramedPart, frame_of};
use crate::part_own::meets_own_part;
use crate::tables::{holds, set};
use crate::validator::Validator;
use crate::verdicts::Verdicts;
use js_doc::{Memory, PartId, Parts};

impl Validator<'_> {
    /// Whether the document of the part is valid for the entry.
    pub(crate) fn is_part_met(&self, parts: &Parts, id: PartId, entry: u32) -> Result<bool, Memory>
        requires plan { HasPlan self.now }
        requires within { id.0 < length parts.now }
        ensures { IfOk result (λ b. b ≡ valid_at (table_of self.now) entry (unshared parts.now id.0)) }
    {
        let tables = self.tables_to(parts, id)?;
        Ok(holds_at(&tables, id, entry))
    }

    /// Tables for the parts up to that one.
    fn tables_to(&self, parts: &Parts, last: PartId) -> Result<Vec<Verdicts>, Memory>
        requires plan { HasPlan self.now }
        requires within { last.0 < length parts.now }
        ensures len { IfOk result (λ tables. last.0 < length tables.items) }
        ensures known { IfOk result (λ tables. KnowsTables (table_of self.now) parts.now tables.items) }
    {
        let count = last.index() + 1;
        let mut tables = Vec::with_capacity(self.alloc, count)?;
        for number in 0..count {
            let id = PartId(number as u32);
            let verdicts = self.verdicts_on(parts, id, &tables)?;
            tables.push(verdicts)?;
        }
        Ok(tables)
    }

    fn verdicts_on(
        &self,
        parts: &Parts,
        id: PartId,
        tables: &[Verdicts],
    ) -> Result<Verdicts, Memory>
        requires plan { HasPlan self.now }
        requires within { id.0 < length parts.now }
        requires below { length tables.now ≡ id.0 }
        requires known { KnowsTables (table_of self.now) parts.now tables.now }
        ensures { IfOk result (λ vs. (e : ℕ) → flag vs e ≡ valid_at (table_of self.now) e (unshared parts.now id.0)) }
    {
        let frame = frame_of(self.alloc, parts.get(id))?;
        let fine = self.fine_entries(parts, id, tables)?;
        let part = FramedPart {
            parts,
            id,
            frame: &frame,
        };
        let table = self.settle_part(&part, &fine)?;
        Verdicts::of(self.alloc, &table)
    }

    /// The verdicts, from what is known of the parts below.
    fn settle_part(&self, part: &FramedPart<'_>, fine: &[bool]) -> Result<Vec<bool>, Memory>
        requires plan { HasPlan self.now }
        requires within { part.now.id.0 < length part.now.parts.now }
        requires frame { IsFramed part.now }
        requires fine { (e : ℕ) → e < length (table_of self.now) → flag fine.now e
            ≡ halves.parts matches (valid_at (table_of self.now)) (form_at (table_of self.now) e)
            (document_of part.now) }
        ensures { IfOk result (λ table. (e : ℕ) → flag table.items e
            ≡ valid_at (table_of self.now) e (document_of part.now)) }
    {
        let mut table = vec![in self.alloc; false; self.schema.len() as usize]?;
        for place in 0..self.plan.order.len() {
            let entry = self.plan.order[place];
            let verdict = self.verdict_on_part(entry, &table, part, fine)?;
            set(&mut table, entry, verdict);
        }
        Ok(table)
    }

    fn verdict_on_part(
        &self,
        entry: u32,
        table: &[bool],
        part: &FramedPart<'_>,
        fine: &[bool],
    ) -> Result<bool, Memory>
        requires plan { HasPlan self.now }
        requires entry { entry < length (table_of self.now) }
        requires within { part.now.id.0 < length part.now.parts.now }
        requires frame { IsFramed part.now }
        ensures { IfOk result (λ b. b ≡ (flag fine.now entry
            && own matches (flag table.now) (form_at (table_of self.now) entry) (document_of part.now))) }
    {
        if holds(fine, entry) {
            return self.own_at(entry, table, part);
        }
        Ok(false)
    }

    fn own_at(&self, entry: u32, table: &[bool], part: &FramedPart<'_>) -> Result<bool, Memory>
        requires plan { HasPlan self.now }
        requires entry { entry < length (table_of self.now) }
        requires within { part.now.id.0 < length part.now.parts.now }
        requires frame { IsFramed part.now }
        ensures { IfOk result (λ b. b ≡ own matches (flag table.now) (form_at (table_of self.now) entry)
            (document_of part.now)) }
    {
        let choices = self.choices(entry);
        meets_own_part(self.alloc, self.schema.form(entry), choices, table, part)
    }
}
