//! Which entries are applied to a document: some, and all that these name in place. An entry is looked at once, and one
//! that doesn't stand by itself leads to no other.

ghost use Rattle.std.specs.Prelude.{◌≡◌, ℕ, ◌<◌, ◌||◌, ◌∷◌, [], IfOk, IsOk, map, option_map, length};
ghost use Rattle.schemas.specs.Schema.{in_place, lists, all, one, of_need, of_needs};
ghost use Rattle.js_doc.specs.View.{view};
ghost use Rattle.js_schema.specs.View.{form_view, keywords_view, needs_view, dependency_view};
ghost use Rattle.schemas.specs.Entry.{Asks};
ghost use Rattle.draft06.specs.EntryValidity.{form_at};
ghost use Rattle.js_match.specs.Matching.{matches};
ghost use Rattle.js_match.specs.Places.{is_at};
ghost use Rattle.js_valid.specs.AskedEntries.{IsAsked, AsksFor, Takes, placed};
ghost use Rattle.js_valid.specs.Plan.{HasPlan, table_of};
ghost use Rattle.js_valid.specs.Standing.{stands};

use crate::pending::Pending;
use crate::plan::Plan;
use crate::stand::stands;
use crate::validator::Validator;
use js_doc::{Doc, Memory};
use js_schema::{DependencyList, EntryList, Form, Keywords, Needs};
use std::alloc::Global;

/// The entries that are applied to a document, in two lists.
#[derive(Drop)]
pub(crate) struct Asked {
    /// Those that stand by themselves, each before those that it names in place.
    pub(crate) owners: Vec<u32>,

    /// Those that don't stand by themselves.
    pub(crate) fallen: Vec<u32>,
}

impl Validator<'_> {
    /// The entries that are asked where those of a list are. Time for what each of them says of the document itself.
    pub(crate) fn asked_entries(&self, doc: &Doc, entries: &[u32]) -> Result<Asked, Memory>
        requires { HasPlan self.now }
        ensures asked { IfOk result (λ a. IsAsked (table_of self.now) (view doc.now) a) }
        ensures all { IfOk result (λ a. AsksFor (table_of self.now) entries.now a) }
    {
        let mut pending = Pending::new(self.alloc);
        add_all(&mut pending, self.plan, entries)?;
        let mut asked = Asked {
            owners: Vec::new(self.alloc),
            fallen: Vec::new(self.alloc),
        };
        'asked: while let Some(place) = pending.pop() {
            if place < self.plan.order.len() {
                let entry = self.plan.order[place];
                self.take(doc, entry, &mut pending, &mut asked)?;
            }
        }
        Ok(asked)
    }

    /// Looks at an entry: it comes to one of the lists, and what it names in place is pending where it stands.
    fn take(
        &self,
        doc: &Doc,
        entry: u32,
        pending: &mut Pending,
        asked: &mut Asked,
    ) -> Result<(), Memory>
        requires plan { HasPlan self.now }
        requires entry { entry < length (table_of self.now) }
        ensures { IsOk result → Takes (stands matches (form_at (table_of self.now) entry) (view doc.now)) entry
            (placed self.now.plan.now.places.items (in_place (form_at (table_of self.now) entry)))
            pending.old pending.new asked.old asked.new }
    {
        let form = self.schema.form(entry);
        if stands(self.alloc, form, self.choices(entry), doc)? {
            asked.owners.push(entry)?;
            return add_in_place(pending, self.plan, form);
        }
        asked.fallen.push(entry)?;
        Ok(())
    }
}

fn add_entry(pending: &mut Pending, plan: &Plan<'_>, entry: u32) -> Result<(), Memory>
    ensures { IsOk result → (k : ℕ) → is_at k pending.new
        ≡ (is_at k pending.old || is_at k (placed plan.now.places.items (entry ∷ []))) }
{
    pending.add(plan.place_of(entry))
}

fn add_all(pending: &mut Pending, plan: &Plan<'_>, entries: &[u32]) -> Result<(), Memory>
    ensures { IsOk result → (k : ℕ) → is_at k pending.new
        ≡ (is_at k pending.old || is_at k (placed plan.now.places.items entries.now)) }
{
    for entry in entries {
        add_entry(pending, plan, *entry)?;
    }
    Ok(())
}

fn add_in_place(pending: &mut Pending, plan: &Plan<'_>, form: &Form) -> Result<(), Memory>
    ensures { IsOk result → (k : ℕ) → is_at k pending.new
        ≡ (is_at k pending.old || is_at k (placed plan.now.places.items (in_place (form_view form.now)))) }
{
    match form {
        Form::Always | Form::Never => Ok(()),
        Form::Ref(target) => add_entry(pending, plan, *target),
        Form::Keywords(keywords) => add_keywords(pending, plan, keywords),
    }
}

fn add_keywords(pending: &mut Pending, plan: &Plan<'_>, keywords: &Keywords) -> Result<(), Memory>
    ensures { IsOk result → (k : ℕ) → is_at k pending.new
        ≡ (is_at k pending.old
        || is_at k (placed plan.now.places.items (in_place (Asks (keywords_view keywords.now))))) }
{
    let in_place = &*keywords.in_place;
    add_list(pending, plan, &in_place.all_of)?;
    add_list(pending, plan, &in_place.any_of)?;
    add_list(pending, plan, &in_place.one_of)?;
    add_option(pending, plan, in_place.not)?;
    add_dependencies(pending, plan, &keywords.objects.dependencies)
}

fn add_list(pending: &mut Pending, plan: &Plan<'_>, list: &Option<EntryList>) -> Result<(), Memory>
    ensures { IsOk result → (k : ℕ) → is_at k pending.new
        ≡ (is_at k pending.old || is_at k (placed plan.now.places.items (lists all list.now))) }
{
    match list {
        None => Ok(()),
        Some(list) => add_all(pending, plan, list.as_slice()),
    }
}

fn add_option(pending: &mut Pending, plan: &Plan<'_>, entry: Option<u32>) -> Result<(), Memory>
    ensures { IsOk result → (k : ℕ) → is_at k pending.new
        ≡ (is_at k pending.old || is_at k (placed plan.now.places.items (lists one entry))) }
{
    match entry {
        None => Ok(()),
        Some(entry) => add_entry(pending, plan, entry),
    }
}

fn add_dependencies(
    pending: &mut Pending,
    plan: &Plan<'_>,
    list: &Option<DependencyList>,
) -> Result<(), Memory>
    ensures { IsOk result → (k : ℕ) → is_at k pending.new ≡ (is_at k pending.old
        || is_at k (placed plan.now.places.items
        (lists of_needs (option_map (λ ds. map dependency_view ds) list.now)))) }
{
    match list {
        None => Ok(()),
        Some(list) => add_needs(pending, plan, list),
    }
}

fn add_needs(pending: &mut Pending, plan: &Plan<'_>, list: &DependencyList) -> Result<(), Memory>
    ensures { IsOk result → (k : ℕ) → is_at k pending.new
        ≡ (is_at k pending.old || is_at k (placed plan.now.places.items (of_needs (map dependency_view list.now)))) }
{
    for dependency in list.as_slice() {
        add_need(pending, plan, &dependency.needs)?;
    }
    Ok(())
}

fn add_need(pending: &mut Pending, plan: &Plan<'_>, needs: &Needs) -> Result<(), Memory>
    ensures { IsOk result → (k : ℕ) → is_at k pending.new
        ≡ (is_at k pending.old || is_at k (placed plan.now.places.items (of_need (needs_view needs.now) []))) }
{
    match needs {
        Needs::Names(_) => Ok(()),
        Needs::Whole(entry) => add_entry(pending, plan, *entry),
    }
}
