//! What the entries ask of one part of a document: requests, each of an entry, its owner, for another one that the part
//! is to meet.

ghost use Rattle.std.specs.Prelude.{◌≡◌, ℕ, ◌<◌, ◌||◌, ◌&&◌, ◌++◌, ◌∷◌, if◌then◌else◌, not, nat_eq, nat_lt, true, false, Bool, List, [], IfOk, IsOk, map, option_map, length, get_or};
ghost use Rattle.documents.specs.Tests.{every, same_word};
ghost use Rattle.schemas.specs.Entry.{Asks};
ghost use Rattle.schemas.specs.Schema.{lists, one, is_table, is_in_range, form_in_range};
ghost use Rattle.js_schema.specs.View.{form_view, keywords_view, items_view, property_view, pattern_properties_view};
ghost use Rattle.js_schema.specs.SchemaView.{schema_view};
ghost use Rattle.js_match.specs.Matching.{matches};
ghost use Rattle.js_valid.specs.Parts.{asked_by, of_contains, of_element, of_items_part, of_listed, of_member, of_name, of_named, of_names, or_else};
ghost use Rattle.js_valid.specs.Requests.{AsksMore, AskedAtPlaces, AskedByOwners, OthersAskNothing, contained, entries_in, owners_in};

use crate::found::is_found;
use crate::request::Request;
use crate::search::property_entry;
use js_doc::{Memory, Str};
use js_match::letters;
use js_schema::{EntryList, Form, ItemsPart, Keywords, PatternPropertyList, Schema};
use std::alloc::Global;

/// Adds requests of one owner.
fn add(requests: &mut Vec<Request>, owner: usize, entries: &[u32]) -> Result<(), Memory>
    ensures { IsOk result → (e : ℕ) (p : ℕ → Bool) → asked_by e p
        (owners_in requests.new.items) (entries_in requests.new.items)
        ≡ (asked_by e p (owners_in requests.old.items) (entries_in requests.old.items) && (not (nat_eq owner e)
        || every p entries.now)) }
{
    for entry in entries {
        requests.push(Request {
            owner,
            entry: *entry,
        })?;
    }
    Ok(())
}

fn add_option(requests: &mut Vec<Request>, owner: usize, entry: Option<u32>) -> Result<(), Memory>
    ensures { IsOk result → AsksMore owner (lists one entry)
        (owners_in requests.old.items) (entries_in requests.old.items)
        (owners_in requests.new.items) (entries_in requests.new.items) }
{
    match entry {
        None => Ok(()),
        Some(entry) => add(requests, owner, &[entry]),
    }
}

/// The places of the owners that ask anything of elements, but for `contains`.
pub(crate) fn asking_of_elements(
    alloc: Global,
    schema: &Schema,
    owners: &[u32],
) -> Result<Vec<usize>, Memory>
    requires { every (λ o. nat_lt o (length (schema_view schema.now))) owners.now ≡ true }
    ensures within { IfOk result (λ places. (i : ℕ) → i < length places.items
        → get_or places.items i 0 < length owners.now) }
    ensures others { IfOk result (λ places. (k : ℕ) → OthersAskNothing (schema_view schema.now)
        (λ f. of_element f k) owners.now places.items) }
{
    let mut places = Vec::new(alloc);
    for (i, owner) in owners.iter().enumerate() {
        add_place(&mut places, i, asks_elements(schema.form(*owner)))?;
    }
    Ok(places)
}

/// Adds the place where that is wanted.
fn add_place(places: &mut Vec<usize>, place: usize, is_wanted: bool) -> Result<(), Memory>
    ensures { IsOk result → places.new.items
        ≡ (if is_wanted then places.old.items ++ place ∷ [] else places.old.items) }
{
    if is_wanted {
        places.push(place)?;
    }
    Ok(())
}

fn asks_elements(form: &Form) -> bool
    ensures { result ≡ false → (k : ℕ) → of_element (form_view form.now) k ≡ [] }
{
    match form {
        Form::Keywords(keywords) => keywords.arrays.items.is_some(),
        _ => false,
    }
}

/// The requests for the element at that place, but for `contains`, of the owners at those places.
pub(crate) fn of_element(
    alloc: Global,
    schema: &Schema,
    owners: &[u32],
    asking: &[usize],
    place: usize,
) -> Result<Vec<Request>, Memory>
    requires owners { every (λ o. nat_lt o (length (schema_view schema.now))) owners.now ≡ true }
    requires within { (i : ℕ) → i < length asking.now → get_or asking.now i 0 < length owners.now }
    ensures { IfOk result (λ r. AskedAtPlaces (schema_view schema.now) (λ f. of_element f place) owners.now
        asking.now (owners_in r.items) (entries_in r.items)) }
{
    let mut requests = Vec::new(alloc);
    for i in asking {
        add_element(&mut requests, *i, schema.form(owners[*i]), place)?;
    }
    Ok(requests)
}

/// The entry for the element at that place.
pub(crate) fn element_entry(form: &Form, place: usize) -> Option<u32>
    ensures { lists one result ≡ of_element (form_view form.now) place }
{
    match form {
        Form::Keywords(keywords) => item_entry(keywords, place),
        _ => None,
    }
}

fn add_element(
    requests: &mut Vec<Request>,
    owner: usize,
    form: &Form,
    place: usize,
) -> Result<(), Memory>
    ensures { IsOk result → AsksMore owner (of_element (form_view form.now) place)
        (owners_in requests.old.items) (entries_in requests.old.items)
        (owners_in requests.new.items) (entries_in requests.new.items) }
{
    add_option(requests, owner, element_entry(form, place))
}

fn item_entry(keywords: &Keywords, place: usize) -> Option<u32>
    ensures { lists one result
        ≡ of_items_part (option_map items_view keywords.now.arrays.value.items)
        keywords.now.arrays.value.additional_items place }
{
    match &keywords.arrays.items {
        None => None,
        Some(ItemsPart::Each(entry)) => Some(*entry),
        Some(ItemsPart::Listed(list)) => listed(list, keywords.arrays.additional_items, place),
    }
}

fn listed(list: &EntryList, rest: Option<u32>, place: usize) -> Option<u32>
    ensures { lists one result ≡ of_listed list.now (lists one rest) place }
{
    let entries = list.as_slice();
    if place < entries.len() {
        return Some(entries[place]);
    }
    rest
}

/// The requests of `contains`.
pub(crate) fn of_contains(
    alloc: Global,
    schema: &Schema,
    owners: &[u32],
) -> Result<Vec<Request>, Memory>
    requires { every (λ o. nat_lt o (length (schema_view schema.now))) owners.now ≡ true }
    ensures { IfOk result (λ r. AskedByOwners (schema_view schema.now) of_contains owners.now
        (owners_in r.items) (entries_in r.items)) }
{
    let mut requests = Vec::new(alloc);
    for (i, owner) in owners.iter().enumerate() {
        add_contains(&mut requests, i, schema.form(*owner))?;
    }
    Ok(requests)
}

fn add_contains(requests: &mut Vec<Request>, owner: usize, form: &Form) -> Result<(), Memory>
    ensures { IsOk result → AsksMore owner (of_contains (form_view form.now))
        (owners_in requests.old.items) (entries_in requests.old.items)
        (owners_in requests.new.items) (entries_in requests.new.items) }
{
    match form {
        Form::Keywords(keywords) => add_option(requests, owner, keywords.arrays.contains),
        _ => Ok(()),
    }
}

pub(crate) fn contained_entry(form: &Form) -> Option<u32>
    ensures { result ≡ contained (form_view form.now) }
{
    match form {
        Form::Keywords(keywords) => keywords.arrays.contains,
        _ => None,
    }
}

/// The requests of `propertyNames`.
pub(crate) fn of_name(
    alloc: Global,
    schema: &Schema,
    owners: &[u32],
) -> Result<Vec<Request>, Memory>
    requires { every (λ o. nat_lt o (length (schema_view schema.now))) owners.now ≡ true }
    ensures { IfOk result (λ r. AskedByOwners (schema_view schema.now) of_name owners.now
        (owners_in r.items) (entries_in r.items)) }
{
    let mut requests = Vec::new(alloc);
    for (i, owner) in owners.iter().enumerate() {
        add_name(&mut requests, i, schema.form(*owner))?;
    }
    Ok(requests)
}

fn add_name(requests: &mut Vec<Request>, owner: usize, form: &Form) -> Result<(), Memory>
    ensures { IsOk result → AsksMore owner (of_name (form_view form.now))
        (owners_in requests.old.items) (entries_in requests.old.items)
        (owners_in requests.new.items) (entries_in requests.new.items) }
{
    match form {
        Form::Keywords(keywords) => add_option(requests, owner, keywords.objects.property_names),
        _ => Ok(()),
    }
}

/// The places of the owners that ask anything of the values of members.
pub(crate) fn asking_of_members(
    alloc: Global,
    schema: &Schema,
    owners: &[u32],
) -> Result<Vec<usize>, Memory>
    requires { every (λ o. nat_lt o (length (schema_view schema.now))) owners.now ≡ true }
    ensures within { IfOk result (λ places. (i : ℕ) → i < length places.items
        → get_or places.items i 0 < length owners.now) }
    ensures others { IfOk result (λ places. (w : List ℕ) → OthersAskNothing (schema_view schema.now)
        (λ f. of_member matches f w) owners.now places.items) }
{
    let mut places = Vec::new(alloc);
    for (i, owner) in owners.iter().enumerate() {
        add_place(&mut places, i, asks_members(schema.form(*owner)))?;
    }
    Ok(places)
}

fn asks_members(form: &Form) -> bool
    ensures { result ≡ false → (w : List ℕ) → of_member matches (form_view form.now) w ≡ [] }
{
    match form {
        Form::Keywords(keywords) => {
            keywords.objects.properties.is_some()
                || keywords.objects.pattern_properties.is_some()
                || keywords.objects.additional_properties.is_some()
        }
        _ => false,
    }
}

/// The requests for the value of a member with that name, of the owners at those places.
pub(crate) fn of_member(
    alloc: Global,
    schema: &Schema,
    owners: &[u32],
    asking: &[usize],
    name: &Str,
) -> Result<Vec<Request>, Memory>
    requires table { is_table (schema_view schema.now) ≡ true }
    requires owners { every (λ o. nat_lt o (length (schema_view schema.now))) owners.now ≡ true }
    requires within { (i : ℕ) → i < length asking.now → get_or asking.now i 0 < length owners.now }
    ensures { IfOk result (λ r. AskedAtPlaces (schema_view schema.now) (λ f.
        of_member matches f name.now) owners.now
        asking.now (owners_in r.items) (entries_in r.items)) }
{
    let mut requests = Vec::new(alloc);
    // One list for all owners, so that memory isn't taken for each.
    let mut found = Vec::new(alloc);
    for i in asking {
        add_member(
            alloc,
            &mut requests,
            &mut found,
            *i,
            schema.form(owners[*i]),
            name,
        )?;
    }
    Ok(requests)
}

fn add_member(
    alloc: Global,
    requests: &mut Vec<Request>,
    found: &mut Vec<u32>,
    owner: usize,
    form: &Form,
    name: &Str,
) -> Result<(), Memory>
    requires { form_in_range (form_view form.now) ≡ true }
    ensures { IsOk result → AsksMore owner (of_member matches (form_view form.now) name.now)
        (owners_in requests.old.items) (entries_in requests.old.items)
        (owners_in requests.new.items) (entries_in requests.new.items) }
{
    find_entries(alloc, found, form, name)?;
    add(requests, owner, found)
}

/// The entries for a member with that name.
pub(crate) fn member_entries(alloc: Global, form: &Form, name: &Str) -> Result<Vec<u32>, Memory>
    requires { form_in_range (form_view form.now) ≡ true }
    ensures { IfOk result (λ found. found.items ≡ of_member matches (form_view form.now) name.now) }
{
    let mut found = Vec::new(alloc);
    find_entries(alloc, &mut found, form, name)?;
    Ok(found)
}

/// The same in a list that is there already, in place of what it has.
fn find_entries(alloc: Global, found: &mut Vec<u32>, form: &Form, name: &Str) -> Result<(), Memory>
    requires { form_in_range (form_view form.now) ≡ true }
    ensures { IsOk result → found.new.items ≡ of_member matches (form_view form.now) name.now }
{
    found.clear();
    match form {
        Form::Keywords(keywords) => add_named(alloc, found, keywords, name),
        _ => Ok(()),
    }
}

fn add_named(
    alloc: Global,
    found: &mut Vec<u32>,
    keywords: &Keywords,
    name: &Str,
) -> Result<(), Memory>
    requires range { is_in_range (keywords_view keywords.now) ≡ true }
    requires empty { found.old.items ≡ [] }
    ensures { IsOk result → found.new.items ≡ or_else (of_names matches (keywords_view keywords.now) name.now)
        (lists one keywords.now.objects.value.additional_properties) }
{
    if let Some(entry) = property_of(keywords, name) {
        found.push(entry)?;
    }
    add_patterns(alloc, found, &keywords.objects.pattern_properties, name)?;
    if found.is_empty()
        && let Some(entry) = keywords.objects.additional_properties
    {
        found.push(entry)?;
    }
    Ok(())
}

/// The entry that `properties` has for the name.
fn property_of(keywords: &Keywords, name: &Str) -> Option<u32>
    requires { is_in_range (keywords_view keywords.now) ≡ true }
    ensures { lists one result ≡ lists (of_named (λ n. same_word n name.now)) (option_map
        (λ ps. map property_view ps) keywords.now.objects.value.properties) }
{
    match &keywords.objects.properties {
        None => None,
        Some(list) => property_entry(list, name.as_text()),
    }
}

/// The one entry for a member with that name, where no pattern matches it.
pub(crate) fn only_entry(keywords: &Keywords, name: &Str) -> Option<u32>
    requires range { is_in_range (keywords_view keywords.now) ≡ true }
    requires patterns { keywords.now.objects.value.pattern_properties ≡ None }
    ensures { lists one result ≡ of_member matches (Asks (keywords_view keywords.now)) name.now }
{
    match property_of(keywords, name) {
        Some(entry) => Some(entry),
        None => keywords.objects.additional_properties,
    }
}

fn add_patterns(
    alloc: Global,
    found: &mut Vec<u32>,
    list: &Option<PatternPropertyList>,
    name: &Str,
) -> Result<(), Memory>
    ensures { IsOk result → found.new.items ≡ found.old.items
        ++ lists (of_named (λ t. matches t name.now)) (option_map pattern_properties_view list.now) }
{
    match list {
        None => Ok(()),
        Some(list) => add_matching(alloc, found, list, name),
    }
}

fn add_matching(
    alloc: Global,
    found: &mut Vec<u32>,
    list: &PatternPropertyList,
    name: &Str,
) -> Result<(), Memory>
    ensures { IsOk result → found.new.items ≡ found.old.items
        ++ of_named (λ t. matches t name.now) (pattern_properties_view list.now) }
{
    let letters = letters(alloc, name.as_text())?;
    add_found(alloc, found, list, &letters)
}

fn add_found(
    alloc: Global,
    found: &mut Vec<u32>,
    list: &PatternPropertyList,
    name: &[char],
) -> Result<(), Memory>
    ensures { IsOk result → found.new.items ≡ found.old.items
        ++ of_named (λ t. matches t name.now) (pattern_properties_view list.now) }
{
    for property in list.as_slice() {
        if is_found(alloc, &property.pattern, name)? {
            found.push(property.entry)?;
        }
    }
    Ok(())
}
