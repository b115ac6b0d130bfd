//! The values of the `enum` of each entry, in the order of documents: made once for a document, so that a part is
//! looked up among them and not compared with each.

ghost use Rattle.std.specs.Prelude.{◌≡◌, ◌<◌, IfOk, map, length, option_map, Some};
ghost use Rattle.documents.specs.Document.{Document, elements};
ghost use Rattle.shared_documents.specs.Unshared.{unshared};
ghost use Rattle.js_doc.specs.View.{view, list_view};
ghost use Rattle.js_schema.specs.SchemaView.{schema_view};
ghost use Rattle.js_schema.specs.View.{form_view};
ghost use Rattle.js_valid.specs.Choices.{AreChoices, AreValues, HasChoices, IsInOrder, is_one_of, values_of};
ghost use Rattle.js_valid.specs.DocumentOrder.{document_cmp};

use crate::comparison::compare;
use crate::part_comparison::compare_part;
use js_doc::{Doc, DocList, Memory, PartId, Parts};
use js_schema::{Form, Schema};
use std::alloc::Global;
use std::cmp::Ordering;

/// The values of each entry. Time and memory for all values, each with the logarithm of how many are beside it.
pub(crate) fn all_choices(alloc: Global, schema: &Schema) -> Result<Vec<Vec<&Doc>>, Memory>
    ensures { IfOk result (λ v. HasChoices (schema_view schema.now) v.items) }
{
    let mut choices = Vec::with_capacity(alloc, schema.len() as usize)?;
    for entry in 0..schema.len() {
        choices.push(choices_of(alloc, schema.form(entry))?)?;
    }
    Ok(choices)
}

#[tactic(auto, using(crate::proofs::ChoicesLaws::no_values))]
fn choices_of(alloc: Global, form: &Form) -> Result<Vec<&Doc>, Memory>
    ensures { IfOk result (λ v. AreChoices (form_view form.now) v.items) }
{
    match form {
        Form::Keywords(keywords) => values(alloc, &keywords.any.enumeration),
        _ => Ok(Vec::new(alloc)),
    }
}

#[tactic(auto, using(crate::proofs::ChoicesLaws::no_values))]
fn values(alloc: Global, list: &Option<DocList>) -> Result<Vec<&Doc>, Memory>
    ensures { IfOk result (λ v. AreValues (option_map (λ ds. elements (list_view ds)) list.now) v.items) }
{
    match list {
        None => Ok(Vec::new(alloc)),
        Some(list) => values_in(alloc, list),
    }
}

fn values_in(alloc: Global, list: &DocList) -> Result<Vec<&Doc>, Memory>
    ensures { IfOk result (λ v. AreValues (Some (elements (list_view list.now))) v.items) }
{
    let values = borrowed(alloc, list.as_slice())?;
    Ok(in_order(values))
}

fn borrowed(alloc: Global, docs: &[Doc]) -> Result<Vec<&Doc>, Memory>
    ensures { IfOk result (λ v. values_of v.items ≡ map view docs.now) }
{
    let mut values = Vec::with_capacity(alloc, docs.len())?;
    for doc in docs {
        values.push(doc)?;
    }
    Ok(values)
}

fn in_order(mut values: Vec<&Doc>) -> Vec<&Doc>
    ensures sorted { IsInOrder result.items }
    ensures same { (J : Document) → is_one_of J (values_of values.entry.items)
        ≡ is_one_of J (values_of result.items) }
{
    values.sort_unstable_by(compare_values);
    values
}

fn compare_values(a: &&Doc, b: &&Doc) -> Ordering
    ensures { result ≡ document_cmp (view a.now.now) (view b.now.now) }
{
    compare(a, b)
}

/// Whether the document is one of the values. As many comparisons as the logarithm of their number.
pub(crate) fn is_among(values: &[&Doc], doc: &Doc) -> bool
    requires { IsInOrder values.now }
    ensures { result ≡ is_one_of (view doc.now) (values_of values.now) }
{
    let found = values.binary_search_by(
        |value: &&Doc| -> Ordering
            ensures { result ≡ document_cmp (view value.now.now) (view doc.entry.now) }
        { compare(value, doc) },
    );
    match found {
        Ok(_) => true,
        Err(_) => false,
    }
}

/// The same of the document that a part of a table stands for.
pub(crate) fn is_part_among(values: &[&Doc], parts: &Parts, id: PartId) -> bool
    requires within { id.0 < length parts.now }
    requires sorted { IsInOrder values.now }
    ensures { result ≡ is_one_of (unshared parts.now id.0) (values_of values.now) }
{
    let found = values.binary_search_by(
        |value: &&Doc| -> Ordering
            requires { id.0 < length parts.now }
            ensures { result ≡ document_cmp (view value.now.now) (unshared parts.entry.now id.0) }
        { compare_part(value, parts, id) },
    );
    match found {
        Ok(_) => true,
        Err(_) => false,
    }
}
