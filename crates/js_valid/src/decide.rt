//! Verdicts of some entries on a document. It goes down the document and not from entry to entry: at each part the
//! entries that are applied to it, by whichever keyword, are decided together and once.
//!
//! An entry that is applied alone to a part and depends on no other verdict there is decided without tables, and each
//! part of the part is taken in the same way. So most parts of a document take time in what their entry says, and not
//! in the number of entries.

ghost use Rattle.std.specs.Prelude.{◌≡◌, ℕ, ◌<◌, ◌&&◌, not, nat_lt, true, IfOk, IsOk, [], map, length};
ghost use Rattle.documents.specs.Document.{string, elements, entries};
ghost use Rattle.draft06.specs.EntryValidity.{form_at};
ghost use Rattle.js_doc.specs.View.{view, list_view, map_view, member_view};
ghost use Rattle.js_schema.specs.SchemaView.{schema_view};
ghost use Rattle.js_schema.specs.View.{form_view};
ghost use Rattle.js_match.specs.Matching.{matches};
ghost use Rattle.js_valid.specs.Choices.{AreChoices};
ghost use Rattle.js_valid.specs.Parts.{flag, asked_by, of_member, own, parts};
ghost use Rattle.js_valid.specs.Plain.{is_plain};
ghost use Rattle.js_valid.specs.Plan.{HasPlan, table_of, valid_at};
ghost use Rattle.js_valid.specs.Requests.{FinePart, at_owner, contained, entries_in, owners_in, parts_list, parts_members};
ghost use Rattle.schemas.specs.Schema.{form_in_range, lists, meets, one};
ghost use Rattle.documents.specs.Tests.{every};

use crate::ask::{
    asking_of_elements, asking_of_members, contained_entry, element_entry, member_entries,
    of_contains, of_element, of_member, of_name, only_entry,
};
use crate::own::meets_own;
use crate::plain::is_plain;
use crate::request::{Request, add_requested, keep_requests, refuse_all, refuse_none, requested};
use crate::scalar::{are_plain, is_scalar, own_verdicts};
use crate::settle::settle;
use crate::tables::{are_all, holds, keep_places, refuse, test_at, tests_of};
use crate::validator::Validator;
use js_doc::{Doc, DocList, DocMap, Member, Memory, Str, Word};
use js_schema::{Form, Schema};
use std::alloc::Global;

/// What is known of owners, by their places, from some elements of a list.
#[derive(Drop)]
struct ElementTests {
    /// Those that have what they ask, but for `contains`.
    fine: Vec<bool>,

    /// Those whose `contains` no element has met.
    unmet: Vec<bool>,
}

impl Validator<'_> {
    /// The verdicts of the entries, in their order.
    #[cycle(decide)]
    pub(crate) fn verdicts(
        &self,
        held: &mut Vec<bool>,
        doc: &Doc,
        entries: &[u32],
    ) -> Result<Vec<bool>, Memory>
        requires { HasPlan self.now }
        ensures { IfOk result (λ vs. vs.items ≡ map (λ q. valid_at (table_of self.now) q (view doc.now)) entries.now) }
    {
        if entries.is_empty() {
            return Ok(Vec::new(self.alloc));
        }
        if entries.len() == 1 {
            let verdict = self.is_met(held, doc, entries[0])?;
            return Ok(vec![in self.alloc; verdict; 1]?);
        }
        if is_scalar(doc) && are_plain(self.schema, entries) {
            return own_verdicts(self, doc, entries);
        }
        self.table_verdicts(held, doc, entries)
    }

    /// The same by a table with the verdicts of all entries that are asked of the document.
    #[cycle(decide)]
    fn table_verdicts(
        &self,
        held: &mut Vec<bool>,
        doc: &Doc,
        entries: &[u32],
    ) -> Result<Vec<bool>, Memory>
        requires { HasPlan self.now }
        ensures { IfOk result (λ vs. vs.items ≡ map (λ q. valid_at (table_of self.now) q (view doc.now)) entries.now) }
    {
        let asked = self.asked_entries(doc, entries)?;
        let fine = self.fine_parts(held, doc, &asked.owners)?;
        settle(self.schema, doc, &asked, &fine, held)?;
        tests_of(self.alloc, held, entries, self.schema.len())
    }

    /// Whether the document is valid for an entry that is asked alone.
    #[cycle(decide)]
    pub(crate) fn is_met(&self, held: &mut Vec<bool>, doc: &Doc, entry: u32) -> Result<bool, Memory>
        requires { HasPlan self.now }
        ensures { IfOk result (λ b. b ≡ valid_at (table_of self.now) entry (view doc.now)) }
    {
        let target = self.plan.target_of(entry);
        if target >= self.schema.len() {
            return Ok(false);
        }
        let form = self.schema.form(target);
        if is_plain(form) {
            return self.meets_plain(held, form, self.choices(target), doc);
        }
        let verdicts = self.table_verdicts(held, doc, &[target])?;
        Ok(holds(&verdicts, 0))
    }

    /// Whether the document itself and its parts are as a plain form asks.
    #[cycle(decide)]
    fn meets_plain(
        &self,
        held: &mut Vec<bool>,
        form: &Form,
        choices: &[&Doc],
        doc: &Doc,
    ) -> Result<bool, Memory>
        requires plan { HasPlan self.now }
        requires choices { AreChoices (form_view form.now) choices.now }
        requires plain { is_plain (form_view form.now) ≡ true }
        requires range { form_in_range (form_view form.now) ≡ true }
        ensures { IfOk result (λ b. b ≡ (own matches (flag []) (form_view form.now) (view doc.now)
            && parts matches (valid_at (table_of self.now)) (form_view form.now) (view doc.now))) }
    {
        if !meets_own(self.alloc, form, choices, &[], doc)? {
            return Ok(false);
        }
        match doc {
            Doc::List(list) => self.are_elements_met(held, form, list),
            Doc::Members(members) => self.are_members_met(held, form, members),
            _ => Ok(true),
        }
    }

    #[cycle(decide)]
    fn are_elements_met(
        &self,
        held: &mut Vec<bool>,
        form: &Form,
        list: &DocList,
    ) -> Result<bool, Memory>
        requires plan { HasPlan self.now }
        requires plain { is_plain (form_view form.now) ≡ true }
        ensures { IfOk result (λ b. b ≡ parts_list (valid_at (table_of self.now)) (form_view form.now) (elements
            (list_view list.now))) }
    {
        for (place, child) in list.as_slice().iter().enumerate() {
            let entry = element_entry(form, place);
            if !self.is_element_met(held, child, entry)? {
                return Ok(false);
            }
        }
        Ok(true)
    }

    #[cycle(decide)]
    fn is_element_met(
        &self,
        held: &mut Vec<bool>,
        doc: &Doc,
        entry: Option<u32>,
    ) -> Result<bool, Memory>
        requires { HasPlan self.now }
        ensures { IfOk result (λ b. b ≡ every (λ q. valid_at (table_of self.now) q (view doc.now))
            (lists one entry)) }
    {
        match entry {
            None => Ok(true),
            Some(entry) => self.is_met(held, doc, entry),
        }
    }

    #[cycle(decide)]
    fn are_members_met(
        &self,
        held: &mut Vec<bool>,
        form: &Form,
        members: &DocMap,
    ) -> Result<bool, Memory>
        requires plan { HasPlan self.now }
        requires plain { is_plain (form_view form.now) ≡ true }
        requires range { form_in_range (form_view form.now) ≡ true }
        ensures { IfOk result (λ b. b ≡ parts_members matches (valid_at (table_of self.now)) (form_view form.now)
            (entries (map_view members.now))) }
    {
        for member in members.as_slice() {
            if !self.is_member_met(held, form, member)? {
                return Ok(false);
            }
        }
        Ok(true)
    }

    #[cycle(decide)]
    fn is_member_met(
        &self,
        held: &mut Vec<bool>,
        form: &Form,
        member: &Member,
    ) -> Result<bool, Memory>
        requires plan { HasPlan self.now }
        requires range { form_in_range (form_view form.now) ≡ true }
        ensures { IfOk result (λ b. b ≡ every (λ q. valid_at (table_of self.now) q (member_view member.now).1)
            (of_member matches (form_view form.now) (member_view member.now).0)) }
    {
        if let Form::Keywords(keywords) = form
            && keywords.objects.pattern_properties.is_none()
        {
            let entry = only_entry(keywords, member.name());
            return self.is_element_met(held, member.value(), entry);
        }
        let entries = member_entries(self.alloc, form, member.name())?;
        self.is_each_met(held, member.value(), &entries)
    }

    /// Whether the document is valid for each of the entries.
    #[cycle(decide)]
    fn is_each_met(&self, held: &mut Vec<bool>, doc: &Doc, entries: &[u32]) -> Result<bool, Memory>
        requires { HasPlan self.now }
        ensures { IfOk result (λ b. b ≡ every (λ q. valid_at (table_of self.now) q (view doc.now)) entries.now) }
    {
        if entries.len() == 1 {
            return self.is_met(held, doc, entries[0]);
        }
        let verdicts = self.verdicts(held, doc, entries)?;
        Ok(are_all(&verdicts))
    }

    /// Which of the owners have what they ask of the document's parts.
    #[cycle(decide)]
    fn fine_parts(
        &self,
        held: &mut Vec<bool>,
        doc: &Doc,
        owners: &[u32],
    ) -> Result<Vec<bool>, Memory>
        requires plan { HasPlan self.now }
        requires owners { every (λ o. nat_lt o (length (table_of self.now))) owners.now ≡ true }
        ensures { IfOk result (λ fine. FinePart (table_of self.now) owners.now fine.items
            (λ e. parts matches (valid_at (table_of self.now)) (form_at (table_of self.now) e) (view doc.now))) }
    {
        match doc {
            Doc::List(list) => self.fine_list(held, list, owners),
            Doc::Members(members) => self.fine_members(held, members, owners),
            _ => all_fine(self.alloc, owners.len()),
        }
    }

    #[cycle(decide)]
    fn fine_list(
        &self,
        held: &mut Vec<bool>,
        list: &DocList,
        owners: &[u32],
    ) -> Result<Vec<bool>, Memory>
        requires plan { HasPlan self.now }
        requires owners { every (λ o. nat_lt o (length (table_of self.now))) owners.now ≡ true }
        ensures { IfOk result (λ fine. FinePart (table_of self.now) owners.now fine.items
            (λ e. parts_list (valid_at (table_of self.now)) (form_at (table_of self.now) e) (elements
            (list_view list.now)))) }
    {
        let fine = all_fine(self.alloc, owners.len())?;
        let unmet = all_fine(self.alloc, owners.len())?;
        let mut tests = ElementTests { fine, unmet };
        let mut contains = of_contains(self.alloc, self.schema, owners)?;
        let mut asking = asking_of_elements(self.alloc, self.schema, owners)?;
        for (place, child) in list.as_slice().iter().enumerate() {
            // An owner that has failed is asked nothing more, and one whose `contains` is met needn't be asked for it.
            keep_places(&mut asking, &tests.fine);
            keep_requests(&mut contains, &tests.fine);
            keep_requests(&mut contains, &tests.unmet);
            let requests = of_element(self.alloc, self.schema, owners, &asking, place)?;
            self.decide_element(held, child, &requests, &contains, &mut tests)?;
        }
        contain(self.schema, owners, &mut tests.fine, &tests.unmet);
        Ok(tests.fine)
    }

    #[cycle(decide)]
    fn decide_element(
        &self,
        held: &mut Vec<bool>,
        doc: &Doc,
        requests: &[Request],
        contains: &[Request],
        tests: &mut ElementTests,
    ) -> Result<(), Memory>
        requires { HasPlan self.now }
        ensures fine { IsOk result → (e : ℕ) → flag tests.new.fine.items e ≡ (flag tests.old.fine.items e
            && asked_by e (λ q. valid_at (table_of self.now) q (view doc.now))
            (owners_in requests.now) (entries_in requests.now)) }
        ensures unmet { IsOk result → (e : ℕ) → flag tests.new.unmet.items e ≡ (flag tests.old.unmet.items e
            && asked_by e (λ q. not (valid_at (table_of self.now) q (view doc.now)))
            (owners_in contains.now) (entries_in contains.now)) }
    {
        let mut entries = requested(self.alloc, requests)?;
        add_requested(&mut entries, contains)?;
        let answers = self.verdicts(held, doc, &entries)?;
        let (first, second) = answers.as_slice().split_at(requests.len());
        refuse_all(&mut tests.fine, requests, first);
        refuse_none(&mut tests.unmet, contains, second);
        Ok(())
    }

    #[cycle(decide)]
    fn fine_members(
        &self,
        held: &mut Vec<bool>,
        members: &DocMap,
        owners: &[u32],
    ) -> Result<Vec<bool>, Memory>
        requires plan { HasPlan self.now }
        requires owners { every (λ o. nat_lt o (length (table_of self.now))) owners.now ≡ true }
        ensures { IfOk result (λ fine. FinePart (table_of self.now) owners.now fine.items
            (λ e. parts_members matches (valid_at (table_of self.now)) (form_at (table_of self.now) e)
            (entries (map_view members.now)))) }
    {
        let mut fine = all_fine(self.alloc, owners.len())?;
        let mut names = of_name(self.alloc, self.schema, owners)?;
        let mut asking = asking_of_members(self.alloc, self.schema, owners)?;
        for member in members.as_slice() {
            // An owner that has failed is asked nothing more: of alternatives that one member tells apart, few go on.
            keep_places(&mut asking, &fine);
            let requests = of_member(self.alloc, self.schema, owners, &asking, member.name())?;
            self.decide_part(held, member.value(), &requests, &mut fine)?;
            keep_requests(&mut names, &fine);
            self.decide_name(held, member.name(), &names, &mut fine)?;
        }
        Ok(fine)
    }

    #[cycle(decide)]
    fn decide_part(
        &self,
        held: &mut Vec<bool>,
        doc: &Doc,
        requests: &[Request],
        fine: &mut Vec<bool>,
    ) -> Result<(), Memory>
        requires { HasPlan self.now }
        ensures { IsOk result → (e : ℕ) → flag fine.new.items e ≡ (flag fine.old.items e
            && asked_by e (λ q. valid_at (table_of self.now) q (view doc.now))
            (owners_in requests.now) (entries_in requests.now)) }
    {
        if requests.is_empty() {
            return Ok(());
        }
        let entries = requested(self.alloc, requests)?;
        let answers = self.verdicts(held, doc, &entries)?;
        refuse_all(fine, requests, &answers);
        Ok(())
    }

    /// The same of a name, as a string.
    #[cycle(decide)]
    pub(crate) fn decide_name(
        &self,
        held: &mut Vec<bool>,
        name: &Str,
        requests: &[Request],
        fine: &mut Vec<bool>,
    ) -> Result<(), Memory>
        requires { HasPlan self.now }
        ensures { IsOk result → (e : ℕ) → flag fine.new.items e ≡ (flag fine.old.items e
            && asked_by e (λ q. valid_at (table_of self.now) q (string name.now))
            (owners_in requests.now) (entries_in requests.now)) }
    {
        if requests.is_empty() {
            return Ok(());
        }
        let doc = Doc::Text(Word::new(name.copy(self.alloc)?));
        self.decide_part(held, &doc, requests, fine)
    }
}

/// Every owner has what it asks, so far.
pub(crate) fn all_fine(alloc: Global, count: usize) -> Result<Vec<bool>, Memory>
    ensures len { IfOk result (λ fine. length fine.items ≡ count) }
    ensures all { IfOk result (λ fine. (e : ℕ) → e < count → flag fine.items e ≡ true) }
{
    Ok(vec![in alloc; true; count]?)
}

/// Takes the test from each owner whose `contains` no element has met.
fn contain(schema: &Schema, owners: &[u32], fine: &mut Vec<bool>, unmet: &[bool])
    requires { every (λ o. nat_lt o (length (schema_view schema.now))) owners.now ≡ true }
    ensures { (e : ℕ) → flag fine.new.items e ≡ (flag fine.old.items e && at_owner (λ i o.
        meets (λ q. not (flag unmet.now i)) (contained (form_at (schema_view schema.now) o))) e 0 owners.now) }
{
    for (i, owner) in owners.iter().enumerate() {
        let met = is_contained(schema, *owner, unmet, i);
        refuse(fine, i, met);
    }
}

/// Whether an element has met what the owner, at that place, asks by `contains`.
fn is_contained(schema: &Schema, owner: u32, unmet: &[bool], place: usize) -> bool
    requires { owner < length (schema_view schema.now) }
    ensures { result ≡ meets (λ q. not (flag unmet.now place)) (contained (form_at (schema_view schema.now) owner)) }
{
    match contained_entry(schema.form(owner)) {
        None => true,
        Some(_) => !test_at(unmet, place),
    }
}
