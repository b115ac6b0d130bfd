//! What a form asks of a document by itself, and what it asks by the verdicts of the entries that it names in place. An
//! entry that doesn't stand by itself leads to no other.

ghost use Rattle.std.specs.Prelude.{◌≡◌, List, IfOk};
ghost use Rattle.documents.specs.Document.{entries};
ghost use Rattle.schemas.specs.Entry.{Asks};
ghost use Rattle.js_doc.specs.View.{view, map_view};
ghost use Rattle.js_schema.specs.View.{form_view, keywords_view};
ghost use Rattle.js_match.specs.Matching.{matches};
ghost use Rattle.js_valid.specs.Choices.{AreChoices};
ghost use Rattle.js_valid.specs.Parts.{flag};
ghost use Rattle.js_valid.specs.Standing.{stands, keywords_stand, object_stands, depends, place_asks, place_keywords};

use crate::own::{
    at_least, at_most, has_required, has_types, is_given, meets_all_of, meets_any_of,
    meets_dependencies, meets_list, meets_not, meets_number, meets_one_of, meets_text,
};
use crate::tables::holds;
use js_doc::{Doc, DocMap, Memory};
use js_schema::{Form, Keywords};
use std::alloc::Global;

/// Whether the form asks nothing by itself that the document doesn't have.
/// The choices are the values of the form's `enum`, in order.
pub(crate) fn stands(
    alloc: Global,
    form: &Form,
    choices: &[&Doc],
    doc: &Doc,
) -> Result<bool, Memory>
    requires { AreChoices (form_view form.now) choices.now }
    ensures { IfOk result (λ b. b ≡ stands matches (form_view form.now) (view doc.now)) }
{
    match form {
        Form::Always | Form::Ref(_) => Ok(true),
        Form::Never => Ok(false),
        Form::Keywords(keywords) => keywords_stand(alloc, keywords, choices, doc),
    }
}

fn keywords_stand(
    alloc: Global,
    keywords: &Keywords,
    choices: &[&Doc],
    doc: &Doc,
) -> Result<bool, Memory>
    requires { AreChoices (Asks (keywords_view keywords.now)) choices.now }
    ensures { IfOk result (λ b. b ≡ keywords_stand matches (keywords_view keywords.now) (view doc.now)) }
{
    if !has_types(keywords, doc) || !is_given(keywords, choices, doc) {
        return Ok(false);
    }
    match doc {
        Doc::Null | Doc::Bool(_) => Ok(true),
        Doc::Num(number) => Ok(meets_number(keywords, *number)),
        Doc::Text(text) => meets_text(alloc, keywords, text.as_str()),
        Doc::List(list) => Ok(meets_list(keywords, list)),
        Doc::Members(members) => Ok(object_stands(keywords, members)),
    }
}

fn object_stands(keywords: &Keywords, members: &DocMap) -> bool
    ensures { result ≡ object_stands (keywords_view keywords.now) (entries (map_view members.now)) }
{
    at_most(members.len(), keywords.objects.max_properties)
        && at_least(members.len(), keywords.objects.min_properties)
        && has_required(&keywords.objects.required, members)
}

/// Whether the form has what it asks by the verdicts of others on the same document.
pub(crate) fn meets_in_place(form: &Form, here: &[bool], doc: &Doc) -> bool
    ensures { result ≡ place_asks (flag here.now) (form_view form.now) (view doc.now) }
{
    match form {
        Form::Always | Form::Never => true,
        Form::Ref(target) => holds(here, *target),
        Form::Keywords(keywords) => keywords_in_place(keywords, here, doc),
    }
}

fn keywords_in_place(keywords: &Keywords, here: &[bool], doc: &Doc) -> bool
    ensures { result ≡ place_keywords (flag here.now) (keywords_view keywords.now) (view doc.now) }
{
    meets_all_of(&keywords.in_place.all_of, here)
        && meets_any_of(&keywords.in_place.any_of, here)
        && meets_one_of(&keywords.in_place.one_of, here)
        && meets_not(keywords.in_place.not, here)
        && depends(keywords, here, doc)
}

fn depends(keywords: &Keywords, here: &[bool], doc: &Doc) -> bool
    ensures { result ≡ depends (flag here.now) (keywords_view keywords.now) (view doc.now) }
{
    match doc {
        Doc::Members(members) => meets_dependencies(&keywords.objects.dependencies, here, members),
        _ => true,
    }
}
