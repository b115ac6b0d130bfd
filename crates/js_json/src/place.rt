//! The value at a place of a JSON value (RFC 6901, section 4).
//!
//! Each token of a pointer takes one look-up: an element by its index, a member by a binary search among the names of
//! its object. No memory is taken.

ghost use Rattle.std.specs.Prelude.{◌≡◌, ◌^◌, ◌≤◌, ℕ, Some, MatchOption, option_map, chars};
ghost use Rattle.std.specs.Char.{is_ascii_digit};
ghost use Rattle.std.specs.List.{list_all};
ghost use Rattle.documents.specs.Json as D;
ghost use Rattle.js_doc.specs.JsonView.{view, list_view};
ghost use Rattle.documents.specs.Place as place;

use crate::pointer::Pointer;
use js_doc::{Json, JsonList};

/// The value that `pointer` leads to, and None exactly where there is no such place. Linear in the pointer, times the
/// logarithm of the number of members on the way.
pub fn at_pointer<'a>(json: &'a Json, pointer: &Pointer) -> Option<&'a Json>
    ensures { option_map (λ j. view j.now) result ≡ place.value_at pointer.now (view json.now) }
{
    let tokens = pointer.tokens();
    let mut here = json;
    for token in tokens {
        here = child(here, token.as_text())?;
    }
    Some(here)
}

/// The element or member that `token` names.
fn child<'a>(json: &'a Json, token: &str) -> Option<&'a Json>
    ensures { option_map (λ j. view j.now) result ≡ place.child_at (chars token.now) (view json.now) }
{
    match json {
        Json::Members(members) => members.get(token),
        Json::List(list) => element(list, token),
        _ => None,
    }
}

fn element<'a>(list: &'a JsonList, token: &str) -> Option<&'a Json>
    ensures { option_map (λ j. view j.now) result
        ≡ place.child_at (chars token.now) (D.array (list_view list.now)) }
{
    let items = list.as_slice();
    items.get(element_index(token)?)
}

/// The index that the token is, where it is one. An index that no machine has is beyond every list, and is reported as
/// none.
pub fn element_index(token: &str) -> Option<usize>
    ensures { MatchOption result
        ((i : ℕ) → place.index_of (chars token.now) ≡ Some i → 2 ^ 64 ≤ i)
        (λ i. place.index_of (chars token.now) ≡ Some i) }
{
    if is_index(token.as_bytes()) {
        token.parse::<usize>().ok()
    } else {
        None
    }
}

/// A digit, or more digits of which the first is not `0`.
fn is_index(token: &[u8]) -> bool
    ensures { result ≡ place.is_index token.now }
{
    if token.is_empty() || token.len() > 1 && token[0] == b'0' {
        return false;
    }
    are_digits(token)
}

fn are_digits(token: &[u8]) -> bool
    ensures { result ≡ list_all is_ascii_digit token.now }
{
    token.iter().all(|c| c.is_ascii_digit())
}
