//! What a form asks of a document itself, where the verdicts of the entries that it names in place are known.

ghost use Rattle.std.specs.Prelude.{◌≡◌, ℕ, List, ◌||◌, not, nat_le, int_le, int_lt, true, false, IfOk, map, option_map};
ghost use Rattle.documents.specs.Tests.{every, some};
ghost use Rattle.documents.specs.Document.{elements, entries};
ghost use Rattle.documents.specs.Measures.{is_multiple, has_name, exactly_one, same_document};
ghost use Rattle.schemas.specs.Entry.{Asks};
ghost use Rattle.schemas.specs.Schema.{meets};
ghost use Rattle.draft06.specs.EntryValidity.{has_type, need_asks, asks_number, asks_string};
ghost use Rattle.js_doc.specs.View.{view, list_view, map_view};
ghost use Rattle.js_keywords.specs.TypeView.{type_view};
ghost use Rattle.js_schema.specs.View.{form_view, keywords_view, needs_view, dependency_view};
ghost use Rattle.js_match.specs.Matching.{matches};
ghost use Rattle.js_valid.specs.Choices.{AreChoices};
ghost use Rattle.js_valid.specs.Frame.{any_asks, frame_asks, is_given};
ghost use Rattle.js_valid.specs.Parts.{flag, own, own_keywords, own_array, own_object, no_parts, no_entry};

use crate::choices::is_among;
use crate::found::is_found;
use crate::search::has_member;
use crate::tables::{all_hold, holds, just_one_holds, one_holds};
use js_doc::{Doc, DocList, DocMap, Memory, Str, StrList, equal};
use js_keywords::TypeName;
use js_match::letters;
use js_schema::{Dependency, DependencyList, EntryList, Form, Keywords, Needs, TypeList};
use std::alloc::Global;

/// The choices are the values of the form's `enum`, in order.
pub(crate) fn meets_own(
    alloc: Global,
    form: &Form,
    choices: &[&Doc],
    here: &[bool],
    doc: &Doc,
) -> Result<bool, Memory>
    requires { AreChoices (form_view form.now) choices.now }
    ensures { IfOk result (λ b. b ≡ own matches (flag here.now) (form_view form.now) (view doc.now)) }
{
    match form {
        Form::Always => Ok(true),
        Form::Never => Ok(false),
        Form::Ref(target) => Ok(holds(here, *target)),
        Form::Keywords(keywords) => meets_keywords(alloc, keywords, choices, here, doc),
    }
}

fn meets_keywords(
    alloc: Global,
    keywords: &Keywords,
    choices: &[&Doc],
    here: &[bool],
    doc: &Doc,
) -> Result<bool, Memory>
    requires { AreChoices (Asks (keywords_view keywords.now)) choices.now }
    ensures { IfOk result (λ b. b ≡ own_keywords matches (flag here.now) (keywords_view keywords.now) (view doc.now)) }
{
    if !is_given(keywords, choices, doc) {
        return Ok(false);
    }
    meets_frame(alloc, keywords, here, doc)
}

/// What a form asks but for `enum` and `const`: it depends on no element and no member's value.
pub(crate) fn meets_frame(
    alloc: Global,
    keywords: &Keywords,
    here: &[bool],
    doc: &Doc,
) -> Result<bool, Memory>
    ensures { IfOk result (λ b. b ≡ frame_asks matches (flag here.now) (keywords_view keywords.now) (view doc.now)) }
{
    if !meets_any(keywords, here, doc) {
        return Ok(false);
    }
    match doc {
        Doc::Null | Doc::Bool(_) => Ok(true),
        Doc::Num(number) => Ok(meets_number(keywords, *number)),
        Doc::Text(text) => meets_text(alloc, keywords, text.as_str()),
        Doc::List(list) => Ok(meets_list(keywords, list)),
        Doc::Members(members) => Ok(meets_members(keywords, here, members)),
    }
}

fn meets_any(keywords: &Keywords, here: &[bool], doc: &Doc) -> bool
    ensures { result ≡ any_asks (flag here.now) (keywords_view keywords.now) (view doc.now) }
{
    has_types(keywords, doc)
        && meets_all_of(&keywords.in_place.all_of, here)
        && meets_any_of(&keywords.in_place.any_of, here)
        && meets_one_of(&keywords.in_place.one_of, here)
        && meets_not(keywords.in_place.not, here)
}

pub(crate) fn is_given(keywords: &Keywords, choices: &[&Doc], doc: &Doc) -> bool
    requires { AreChoices (Asks (keywords_view keywords.now)) choices.now }
    ensures { result ≡ is_given (keywords_view keywords.now) (view doc.now) }
{
    is_listed(keywords, choices, doc) && is_constant(keywords, doc)
}

fn is_listed(keywords: &Keywords, choices: &[&Doc], doc: &Doc) -> bool
    requires { AreChoices (Asks (keywords_view keywords.now)) choices.now }
    ensures { result ≡ meets (some (λ d. same_document d (view doc.now)))
        (option_map (λ ds. elements (list_view ds)) keywords.now.any.value.enumeration) }
{
    keywords.any.enumeration.is_none() || is_among(choices, doc)
}

fn is_same(a: &Doc, b: &Doc) -> bool
    ensures { result ≡ same_document (view a.now) (view b.now) }
{
    equal(a, b)
}

fn is_constant(keywords: &Keywords, doc: &Doc) -> bool
    ensures { result ≡ meets (λ d. same_document d (view doc.now)) (option_map view keywords.now.any.value.constant) }
{
    match &keywords.any.constant {
        None => true,
        Some(constant) => is_same(constant, doc),
    }
}

pub(crate) fn has_types(keywords: &Keywords, doc: &Doc) -> bool
    ensures { result ≡ meets (some (has_type (view doc.now)))
        (option_map (λ ts. map type_view ts) keywords.now.any.value.types) }
{
    match &keywords.any.types {
        None => true,
        Some(types) => has_one_type(types, doc),
    }
}

fn has_one_type(types: &TypeList, doc: &Doc) -> bool
    ensures { result ≡ some (has_type (view doc.now)) (map type_view types.now) }
{
    types.as_slice().iter().any(|name| is_of_type(*name, doc))
}

fn is_of_type(name: TypeName, doc: &Doc) -> bool
    ensures { result ≡ has_type (view doc.now) (type_view name) }
{
    match (name, doc) {
        (TypeName::Null, Doc::Null) => true,
        (TypeName::Boolean, Doc::Bool(_)) => true,
        (TypeName::Number, Doc::Num(_)) => true,
        (TypeName::Integer, Doc::Num(_)) => true,
        (TypeName::Text, Doc::Text(_)) => true,
        (TypeName::Array, Doc::List(_)) => true,
        (TypeName::Object, Doc::Members(_)) => true,
        _ => false,
    }
}

pub(crate) fn meets_all_of(list: &Option<EntryList>, here: &[bool]) -> bool
    ensures { result ≡ meets (every (flag here.now)) list.now }
{
    match list {
        None => true,
        Some(list) => all_hold(here, list.as_slice()),
    }
}

pub(crate) fn meets_any_of(list: &Option<EntryList>, here: &[bool]) -> bool
    ensures { result ≡ meets (some (flag here.now)) list.now }
{
    match list {
        None => true,
        Some(list) => one_holds(here, list.as_slice()),
    }
}

pub(crate) fn meets_one_of(list: &Option<EntryList>, here: &[bool]) -> bool
    ensures { result ≡ meets (exactly_one (flag here.now)) list.now }
{
    match list {
        None => true,
        Some(list) => just_one_holds(here, list.as_slice()),
    }
}

pub(crate) fn meets_not(entry: Option<u32>, here: &[bool]) -> bool
    ensures { result ≡ meets (λ e. not (flag here.now e)) entry }
{
    match entry {
        None => true,
        Some(entry) => !holds(here, entry),
    }
}

pub(crate) fn meets_number(keywords: &Keywords, number: i128) -> bool
    ensures { result ≡ asks_number matches no_entry no_parts (keywords_view keywords.now) number }
{
    is_multiple_of(keywords.numbers.multiple_of, number)
        && is_up_to(keywords.numbers.maximum, number)
        && is_under(keywords.numbers.exclusive_maximum, number)
        && is_from(keywords.numbers.minimum, number)
        && is_over(keywords.numbers.exclusive_minimum, number)
}

fn is_up_to(most: Option<i128>, number: i128) -> bool
    ensures { result ≡ meets (λ n. int_le number n) most }
{
    match most {
        None => true,
        Some(most) => number <= most,
    }
}

fn is_under(end: Option<i128>, number: i128) -> bool
    ensures { result ≡ meets (λ n. int_lt number n) end }
{
    match end {
        None => true,
        Some(end) => number < end,
    }
}

fn is_from(least: Option<i128>, number: i128) -> bool
    ensures { result ≡ meets (λ n. int_le n number) least }
{
    match least {
        None => true,
        Some(least) => least <= number,
    }
}

fn is_over(start: Option<i128>, number: i128) -> bool
    ensures { result ≡ meets (λ n. int_lt n number) start }
{
    match start {
        None => true,
        Some(start) => start < number,
    }
}

fn is_multiple_of(divisor: Option<u64>, number: i128) -> bool
    ensures { result ≡ meets (λ m. is_multiple m number) divisor }
{
    match divisor {
        None => true,
        Some(0) => number == 0,
        Some(divisor) => number.unsigned_abs() % divisor as u128 == 0,
    }
}

pub(crate) fn meets_text(alloc: Global, keywords: &Keywords, text: &Str) -> Result<bool, Memory>
    ensures { IfOk result (λ b. b ≡ asks_string matches no_entry no_parts (keywords_view keywords.now) text.now) }
{
    if asks_no_text(keywords) {
        return Ok(true);
    }
    let letters = letters(alloc, text.as_text())?;
    meets_letters(alloc, keywords, &letters)
}

fn asks_no_text(keywords: &Keywords) -> bool
    ensures { result ≡ true → (w : List ℕ)
        → true ≡ asks_string matches no_entry no_parts (keywords_view keywords.now) w }
{
    keywords.strings.max_length.is_none()
        && keywords.strings.min_length.is_none()
        && keywords.strings.pattern.is_none()
}

fn meets_letters(alloc: Global, keywords: &Keywords, word: &[char]) -> Result<bool, Memory>
    ensures { IfOk result (λ b. b ≡ asks_string matches no_entry no_parts (keywords_view keywords.now) word.now) }
{
    if !at_most(word.len(), keywords.strings.max_length)
        || !at_least(word.len(), keywords.strings.min_length)
    {
        return Ok(false);
    }
    match &keywords.strings.pattern {
        None => Ok(true),
        Some(pattern) => is_found(alloc, pattern, word),
    }
}

pub(crate) fn at_most(count: usize, most: Option<u64>) -> bool
    ensures { result ≡ meets (λ n. nat_le count n) most }
{
    match most {
        None => true,
        Some(most) => count as u64 <= most,
    }
}

pub(crate) fn at_least(count: usize, least: Option<u64>) -> bool
    ensures { result ≡ meets (λ n. nat_le n count) least }
{
    match least {
        None => true,
        Some(least) => least <= count as u64,
    }
}

pub(crate) fn meets_list(keywords: &Keywords, list: &DocList) -> bool
    ensures { result ≡ own_array matches no_entry (keywords_view keywords.now) (elements (list_view list.now)) }
{
    at_most(list.len(), keywords.arrays.max_items)
        && at_least(list.len(), keywords.arrays.min_items)
}

fn meets_members(keywords: &Keywords, here: &[bool], members: &DocMap) -> bool
    ensures { result ≡ own_object matches (flag here.now) (keywords_view keywords.now) (entries
        (map_view members.now)) }
{
    if !at_most(members.len(), keywords.objects.max_properties)
        || !at_least(members.len(), keywords.objects.min_properties)
    {
        return false;
    }
    if keywords.objects.required.is_none() && keywords.objects.dependencies.is_none() {
        return true;
    }
    has_required(&keywords.objects.required, members)
        && meets_dependencies(&keywords.objects.dependencies, here, members)
}

pub(crate) fn has_required(names: &Option<StrList>, members: &DocMap) -> bool
    ensures { result ≡ meets (every (λ w. has_name w (entries (map_view members.now)))) names.now }
{
    match names {
        None => true,
        Some(names) => has_names(names, members),
    }
}

fn has_names(names: &StrList, members: &DocMap) -> bool
    ensures { result ≡ every (λ w. has_name w (entries (map_view members.now))) names.now }
{
    names
        .as_slice()
        .iter()
        .all(|name| has_member(members, name))
}

pub(crate) fn meets_dependencies(
    list: &Option<DependencyList>,
    here: &[bool],
    members: &DocMap,
) -> bool
    ensures { result ≡ meets (every (λ n. not (has_name n.0 (entries (map_view members.now)))
        || need_asks (flag here.now) n.1 (entries (map_view members.now)))) (option_map
        (λ ds. map dependency_view ds) list.now) }
{
    match list {
        None => true,
        Some(list) => meets_each_dependency(list, here, members),
    }
}

fn meets_each_dependency(list: &DependencyList, here: &[bool], members: &DocMap) -> bool
    ensures { result ≡ every (λ n. not (has_name n.0 (entries (map_view members.now)))
        || need_asks (flag here.now) n.1 (entries (map_view members.now))) (map dependency_view list.now) }
{
    list.as_slice()
        .iter()
        .all(|dependency| is_dependency_met(dependency, here, members))
}

fn is_dependency_met(dependency: &Dependency, here: &[bool], members: &DocMap) -> bool
    ensures { result ≡ (not (has_name (dependency_view dependency.now).0 (entries (map_view members.now)))
        || need_asks (flag here.now) (dependency_view dependency.now).1 (entries (map_view members.now))) }
{
    !has_member(members, &dependency.key) || meets_needs(&dependency.needs, here, members)
}

fn meets_needs(needs: &Needs, here: &[bool], members: &DocMap) -> bool
    ensures { result ≡ need_asks (flag here.now) (needs_view needs.now) (entries (map_view members.now)) }
{
    match needs {
        Needs::Names(names) => has_names(names, members),
        Needs::Whole(entry) => holds(here, *entry),
    }
}
