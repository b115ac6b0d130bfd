//! Forms that depend on no other entry's verdict on the same document: where an entry is applied alone, and references
//! end at such a form, no table of verdicts is needed.

ghost use Rattle.std.specs.Prelude.{◌≡◌};
ghost use Rattle.js_schema.specs.View.{form_view, keywords_view};
ghost use Rattle.js_valid.specs.Plain.{is_plain};
ghost use Rattle.schemas.specs.Entry.{Asks};

use js_schema::{Form, Keywords};

/// Whether the form depends on no other entry's verdict on the same document, and requires something of each part at
/// one place only.
pub(crate) fn is_plain(form: &Form) -> bool
    ensures { result ≡ is_plain (form_view form.now) }
{
    match form {
        Form::Always | Form::Never => true,
        Form::Ref(_) => false,
        Form::Keywords(keywords) => are_plain(keywords),
    }
}

fn are_plain(keywords: &Keywords) -> bool
    ensures { result ≡ is_plain (Asks (keywords_view keywords.now)) }
{
    keywords.in_place.all_of.is_none()
        && keywords.in_place.any_of.is_none()
        && keywords.in_place.one_of.is_none()
        && keywords.in_place.not.is_none()
        && keywords.objects.dependencies.is_none()
        && keywords.arrays.contains.is_none()
        && keywords.objects.property_names.is_none()
}
