//! What a reference names (RFC 3986, section 3.5, and RFC 6901, section 6).
//!
//! A reference is cut at its first `#`: what comes before says which file, and the fragment after it is a pointer
//! into this one. It takes time in proportion to the text, and a look-up for each token.

ghost use Rattle.std.specs.Prelude.{◌≡◌, Some, chars, option_map, IfOk};
ghost use Rattle.documents.specs.Place.{value_at};
ghost use Rattle.js_doc.specs.JsonView.{view};
ghost use Rattle.js_json.specs.Reference as refers;
ghost use Rattle.js_json.specs.ReferentView.{place_told};

use crate::fault::RefFault;
use crate::fragment::read_fragment;
use crate::place::at_pointer;
use crate::pointer::Pointer;
use js_doc::Json;
use std::alloc::Global;

/// Where a reference leads: a place of the file, and the value there.
#[derive(Drop)]
pub struct Referent<'a> {
    pub place: Pointer,
    pub value: &'a Json,
}

/// The schema that `text` refers to in the file that `json` is. `root_id` is the file's own `$id`, where it has one
/// that is a string. The faults are tried in the order of `RefFault`.
pub fn target<'a>(
    alloc: Global,
    json: &'a Json,
    text: &str,
    root_id: Option<&str>,
) -> Result<Referent<'a>, RefFault>
    ensures place { refers.Answers
        (refers.target_of (view json.now) (chars text.now) (option_map (λ id. chars id.now) root_id.entry))
        (place_told result) }
    ensures value { IfOk result (λ t. value_at t.place (view json.now) ≡ Some (view t.value.now)) }
{
    let (base, fragment) = cut(text);
    if !is_own(base, root_id) {
        return Err(RefFault::Remote);
    }
    let place = read_fragment(alloc, fragment)?;
    let Some(value) = at_pointer(json, &place) else {
        return Err(RefFault::Missing);
    };
    match value {
        Json::Bool(_) | Json::Members(_) => Ok(Referent { place, value }),
        _ => Err(RefFault::NotASchema),
    }
}

/// What comes before and after the first `#`.
fn cut(text: &str) -> (&str, &str)
    ensures before { chars result.0.now ≡ refers.before_hash (chars text.now) }
    ensures after { chars result.1.now ≡ refers.after_hash (chars text.now) }
{
    text.split_once('#').unwrap_or((text, ""))
}

fn is_own(base: &str, root_id: Option<&str>) -> bool
    ensures { result ≡ refers.is_own (chars base.now) (option_map (λ id. chars id.now) root_id.entry) }
{
    match root_id {
        Some(id) => base.is_empty() || without_last_hash(id) == base,
        None => base.is_empty(),
    }
}

fn without_last_hash(id: &str) -> &str
    ensures { chars result.now ≡ refers.without_last_hash (chars id.now) }
{
    id.strip_suffix('#').unwrap_or(id)
}
