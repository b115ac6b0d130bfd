//! What a form asks of the document of a part itself. The part is given as a document too, its frame, in which `null`
//! stands for each element and each member's value: only `enum` and `const` look at these.

ghost use Rattle.std.specs.Prelude.{◌≡◌, ◌<◌, IfOk, length, option_map};
ghost use Rattle.documents.specs.Tests.{some};
ghost use Rattle.documents.specs.Document.{elements};
ghost use Rattle.documents.specs.Measures.{same_document};
ghost use Rattle.schemas.specs.Entry.{Asks};
ghost use Rattle.schemas.specs.Schema.{meets};
ghost use Rattle.shared_documents.specs.Unshared.{unshared};
ghost use Rattle.js_doc.specs.View.{view, list_view};
ghost use Rattle.js_schema.specs.View.{form_view, keywords_view};
ghost use Rattle.js_match.specs.Matching.{matches};
ghost use Rattle.js_valid.specs.Choices.{AreChoices};
ghost use Rattle.js_valid.specs.Frame.{is_given};
ghost use Rattle.js_valid.specs.PartTables.{IsFramed, document_of};
ghost use Rattle.js_valid.specs.Parts.{flag, own, own_keywords};

use crate::choices::is_part_among;
use crate::own::meets_frame;
use crate::part_frame::FramedPart;
use crate::same::is_part;
use crate::tables::holds;
use js_doc::{Doc, Memory, PartId, Parts};
use js_schema::{Form, Keywords};
use std::alloc::Global;

/// The choices are the values of the form's `enum`, in order.
pub(crate) fn meets_own_part(
    alloc: Global,
    form: &Form,
    choices: &[&Doc],
    here: &[bool],
    part: &FramedPart<'_>,
) -> Result<bool, Memory>
    requires choices { AreChoices (form_view form.now) choices.now }
    requires within { part.now.id.0 < length part.now.parts.now }
    requires frame { IsFramed part.now }
    ensures { IfOk result (λ b. b ≡ own matches (flag here.now) (form_view form.now) (document_of part.now)) }
{
    match form {
        Form::Always => Ok(true),
        Form::Never => Ok(false),
        Form::Ref(target) => Ok(holds(here, *target)),
        Form::Keywords(keywords) => meets_keywords(alloc, keywords, choices, here, part),
    }
}

fn meets_keywords(
    alloc: Global,
    keywords: &Keywords,
    choices: &[&Doc],
    here: &[bool],
    part: &FramedPart<'_>,
) -> Result<bool, Memory>
    requires choices { AreChoices (Asks (keywords_view keywords.now)) choices.now }
    requires within { part.now.id.0 < length part.now.parts.now }
    requires frame { IsFramed part.now }
    ensures { IfOk result (λ b. b ≡ own_keywords matches (flag here.now) (keywords_view keywords.now)
        (document_of part.now)) }
{
    // A table tells what holds of it.
    let _ = part.parts.get(part.id);
    if !is_given(keywords, choices, part.parts, part.id) {
        return Ok(false);
    }
    meets_frame(alloc, keywords, here, part.frame)
}

fn is_given(keywords: &Keywords, choices: &[&Doc], parts: &Parts, id: PartId) -> bool
    requires choices { AreChoices (Asks (keywords_view keywords.now)) choices.now }
    requires within { id.0 < length parts.now }
    ensures { result ≡ is_given (keywords_view keywords.now) (unshared parts.now id.0) }
{
    is_listed(keywords, choices, parts, id) && is_constant(keywords, parts, id)
}

fn is_listed(keywords: &Keywords, choices: &[&Doc], parts: &Parts, id: PartId) -> bool
    requires choices { AreChoices (Asks (keywords_view keywords.now)) choices.now }
    requires within { id.0 < length parts.now }
    ensures { result ≡ meets (some (λ d. same_document d (unshared parts.now id.0)))
        (option_map (λ ds. elements (list_view ds)) keywords.now.any.value.enumeration) }
{
    keywords.any.enumeration.is_none() || is_part_among(choices, parts, id)
}

fn is_constant(keywords: &Keywords, parts: &Parts, id: PartId) -> bool
    requires { id.0 < length parts.now }
    ensures { result ≡ meets (λ d. same_document d (unshared parts.now id.0))
        (option_map view keywords.now.any.value.constant) }
{
    match &keywords.any.constant {
        None => true,
        Some(constant) => is_part(constant, parts, id),
    }
}
