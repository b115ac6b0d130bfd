//! Reading a JSON text, as a JSON value or as a document.
//!
//! Values are made once, of the tokens that the kit's reader of JSON gives. Time is linear in the text, but for the
//! look-ups that put an object's names in order; memory is linear in what is made, and a byte for each of the text.
//! Reading nests as deep as the text's arrays and objects, at most 127 levels.

ghost use Rattle.std.specs.Prelude.{◌≡◌, ◌≢◌, ℕ, List, [], true, Some, None, IfOk, Err, option_map, slice_get};
ghost use Rattle.serde_json.specs.Read.{read};
ghost use Rattle.js_doc.specs.JsonView.{view};
ghost use Rattle.js_json.specs.Value.{json_of, value_of};
ghost use Rattle.js_json.specs.Documents.{unwhole_places};
ghost use Rattle.js_json.specs.DocumentView.{as_json};
ghost use Rattle.documents.specs.Json as J;
ghost use Rattle.documents.specs.WellFormed.{is_json};

use crate::document::to_doc;
use crate::fault::JsonFault;
use crate::take::take;
use js_doc::{Doc, Json};
use json::{Reader, Scratch};
use simdutf8::compat::from_utf8;
use std::alloc::Global;

/// How deep arrays and objects nest at most.
const DEEPEST: usize = 127;

/// The value of a JSON text. A text that nests deeper than 127 arrays and objects has none here.
pub fn read_json(alloc: Global, bytes: &[u8]) -> Result<Json, JsonFault>
    ensures ok { IfOk result (λ j. value_of bytes.now ≡ Some (view j)) }
    ensures well_formed { IfOk result (λ j. is_json (view j) ≡ true) }
    ensures not_json { result ≡ Err JsonFault.NotJson → value_of bytes.now ≡ None }
    ensures any_number { (place : List (List ℕ)) → result ≢ Err (JsonFault.NotWhole place) }
{
    match from_utf8(bytes) {
        Ok(text) => json_of_text(alloc, text),
        Err(_) => Err(JsonFault::NotJson),
    }
}

fn json_of_text(alloc: Global, text: &str) -> Result<Json, JsonFault>
    ensures ok { IfOk result (λ j. option_map json_of (read text.now) ≡ Some (view j)) }
    ensures not_json { result ≡ Err JsonFault.NotJson → option_map json_of (read text.now) ≡ None }
    ensures any_number { (place : List (List ℕ)) → result ≢ Err (JsonFault.NotWhole place) }
{
    let mut scratch = Scratch::new(alloc);
    json_within(alloc, text, &mut scratch)
}

/// The value of a text, by the memory that is lent.
fn json_within(alloc: Global, text: &str, scratch: &mut Scratch) -> Result<Json, JsonFault>
    ensures ok { IfOk result (λ j. option_map json_of (read text.now) ≡ Some (view j)) }
    ensures not_json { result ≡ Err JsonFault.NotJson → option_map json_of (read text.now) ≡ None }
    ensures any_number { (place : List (List ℕ)) → result ≢ Err (JsonFault.NotWhole place) }
{
    let mut reader = Reader::new(text, scratch)?;
    let json: Json = take(alloc, &mut reader, DEEPEST)?;
    if reader.next().is_some() {
        return Err(JsonFault::NotJson);
    }
    Ok(json)
}

/// The document of a JSON text: what `to_doc` makes of the value that `read_json` reads, without that value.
///
/// Where a number isn't whole the text is read once more: its name may come again, so that it isn't in the value, and
/// the first in the order of names is reported.
pub fn read_doc(alloc: Global, bytes: &[u8]) -> Result<Doc, JsonFault>
    ensures document { IfOk result (λ d. value_of bytes.now ≡ Some (as_json d)) }
    ensures whole { IfOk result (λ d. unwhole_places (as_json d) ≡ []) }
    ensures not_json { result ≡ Err JsonFault.NotJson → value_of bytes.now ≡ None }
    ensures not_whole { (place : List (List ℕ)) → result ≡ Err (JsonFault.NotWhole place)
        → (j : J.Json) × (value_of bytes.now ≡ Some j) × (slice_get (unwhole_places j) 0 ≡ Some place) }
{
    match doc_of_bytes(alloc, bytes) {
        Ok(doc) => Ok(doc),
        Err(JsonFault::NotWhole(_)) => doc_of_value(alloc, bytes),
        Err(fault) => Err(fault),
    }
}

/// The document of the text, by the text's value.
fn doc_of_value(alloc: Global, bytes: &[u8]) -> Result<Doc, JsonFault>
    ensures document { IfOk result (λ d. value_of bytes.now ≡ Some (as_json d)) }
    ensures whole { IfOk result (λ d. unwhole_places (as_json d) ≡ []) }
    ensures not_json { result ≡ Err JsonFault.NotJson → value_of bytes.now ≡ None }
    ensures not_whole { (place : List (List ℕ)) → result ≡ Err (JsonFault.NotWhole place)
        → (j : J.Json) × (value_of bytes.now ≡ Some j) × (slice_get (unwhole_places j) 0 ≡ Some place) }
{
    let json = read_json(alloc, bytes)?;
    to_doc(alloc, &json)
}

/// The document of a text whose numbers are whole.
fn doc_of_bytes(alloc: Global, bytes: &[u8]) -> Result<Doc, JsonFault>
    ensures ok { IfOk result (λ d. value_of bytes.now ≡ Some (as_json d)) }
    ensures not_json { result ≡ Err JsonFault.NotJson → value_of bytes.now ≡ None }
{
    match from_utf8(bytes) {
        Ok(text) => doc_of_text(alloc, text),
        Err(_) => Err(JsonFault::NotJson),
    }
}

fn doc_of_text(alloc: Global, text: &str) -> Result<Doc, JsonFault>
    ensures ok { IfOk result (λ d. option_map json_of (read text.now) ≡ Some (as_json d)) }
    ensures not_json { result ≡ Err JsonFault.NotJson → option_map json_of (read text.now) ≡ None }
{
    let mut scratch = Scratch::new(alloc);
    doc_within(alloc, text, &mut scratch)
}

fn doc_within(alloc: Global, text: &str, scratch: &mut Scratch) -> Result<Doc, JsonFault>
    ensures ok { IfOk result (λ d. option_map json_of (read text.now) ≡ Some (as_json d)) }
    ensures not_json { result ≡ Err JsonFault.NotJson → option_map json_of (read text.now) ≡ None }
{
    let mut reader = Reader::new(text, scratch)?;
    let doc: Doc = take(alloc, &mut reader, DEEPEST)?;
    if reader.next().is_some() {
        return Err(JsonFault::NotJson);
    }
    Ok(doc)
}
