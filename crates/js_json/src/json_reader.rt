//! JSON values from tokens.

ghost use Rattle.std.specs.Prelude.{◌≡◌, ◌≢◌, ℕ, List, map, Some, None, IfOk, Err, option_map};
ghost use Rattle.json.specs.Reads.{token_of};
ghost use Rattle.serde_json.specs.Read.{number_of};
ghost use Rattle.documents.specs.Json as J;
ghost use Rattle.documents.specs.Json.{members_of};
ghost use Rattle.js_doc.specs.JsonView.{view, map_view};
ghost use Rattle.js_json.specs.Value.{json_number};
ghost use Rattle.js_json.specs.Reading.{scalar_of, spelled_by};

use crate::fault::JsonFault;
use crate::number::{Written, number};
use crate::take::Made;
use js_doc::{Json, JsonList, JsonMap, JsonMember, Str, Word};
use json::Token;
use std::alloc::Global;
use std::collections::BTreeMap;

impl Made for Json {
    ghost use Rattle.std.specs.Prelude.{true};

    ghost json = { λ j. view j };

    ghost takes_any = { true };

    fn scalar(alloc: Global, token: &Token<'_>) -> Result<Json, JsonFault> {
        scalar(alloc, token)
    }

    fn array(items: Vec<Json>) -> Json
        ensures { view result ≡ J.array (J.items_of (map view items.items)) }
    {
        Json::List(JsonList::from_vec(items))
    }

    fn object(alloc: Global, members: BTreeMap<String, Json>) -> Result<Json, JsonFault>
        ensures ok { IfOk result (λ j. view j ≡ J.object (J.members_of (map (spelled_by view) members.entries))) }
        ensures memory { (fault : JsonFault) → result ≡ Err fault → fault ≡ JsonFault.Memory }
    {
        Ok(Json::Members(members_from(alloc, members)?))
    }
}

/// The value of one token, where it is a value by itself.
fn scalar(alloc: Global, token: &Token<'_>) -> Result<Json, JsonFault>
    ensures ok { IfOk result (λ j. scalar_of (token_of token.now) ≡ Some (view j)) }
    ensures not_json { result ≡ Err JsonFault.NotJson → scalar_of (token_of token.now) ≡ None }
    ensures any_number { (place : List (List ℕ)) → result ≢ Err (JsonFault.NotWhole place) }
{
    match token {
        Token::Null => Ok(Json::Null),
        Token::Bool(b) => Ok(Json::Bool(*b)),
        Token::Number(text) => number_of(text),
        Token::String(text) => Ok(Json::Text(Word::new(Str::from_text(alloc, text)?))),
        _ => Err(JsonFault::NotJson),
    }
}

fn number_of(text: &str) -> Result<Json, JsonFault>
    ensures ok { IfOk result (λ j. option_map json_number (number_of text.now) ≡ Some (view j)) }
    ensures not_json { result ≡ Err JsonFault.NotJson → option_map json_number (number_of text.now) ≡ None }
    ensures any_number { (place : List (List ℕ)) → result ≢ Err (JsonFault.NotWhole place) }
{
    match number(text) {
        Written::Whole(n) => Ok(Json::Num(n)),
        Written::NotWhole => Ok(Json::NotWhole),
        Written::TooLarge => Err(JsonFault::NotJson),
    }
}

/// The members of a map, which has them in the order of their names.
fn members_from(alloc: Global, found: BTreeMap<String, Json>) -> Result<JsonMap, JsonFault>
    ensures ok { IfOk result (λ m. map_view m ≡ members_of (map (spelled_by view) found.entries)) }
    ensures memory { (fault : JsonFault) → result ≡ Err fault → fault ≡ JsonFault.Memory }
{
    let mut made = Vec::with_capacity(alloc, found.len())?;
    for (key, member) in found {
        made.push(JsonMember::new(Str::from_string(key), member))?;
    }
    Ok(JsonMap::from_vec(made))
}
