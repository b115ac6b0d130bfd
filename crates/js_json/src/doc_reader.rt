//! Documents from tokens.
//!
//! A number that isn't whole ends it: which one is reported depends on the order of names, which the tokens don't have.

ghost use Rattle.std.specs.Prelude.{◌≡◌, map, Some, None, IfOk, Err, option_map};
ghost use Rattle.json.specs.Reads.{token_of};
ghost use Rattle.serde_json.specs.Read.{number_of};
ghost use Rattle.documents.specs.Json as J;
ghost use Rattle.documents.specs.Json.{members_of};
ghost use Rattle.js_doc.specs.View.{map_view};
ghost use Rattle.js_json.specs.Value.{json_number};
ghost use Rattle.js_json.specs.Documents.{json_of_members};
ghost use Rattle.js_json.specs.DocumentView.{as_json};
ghost use Rattle.js_json.specs.Reading.{scalar_of, spelled_by};

use crate::fault::JsonFault;
use crate::number::{Written, number};
use crate::pointer::Pointer;
use crate::take::Made;
use js_doc::{Doc, DocList, DocMap, Member, Str, Word};
use json::Token;
use std::alloc::Global;
use std::collections::BTreeMap;

impl Made for Doc {
    ghost use Rattle.std.specs.Prelude.{false};

    ghost json = { λ d. as_json d };

    ghost takes_any = { false };

    fn scalar(alloc: Global, token: &Token<'_>) -> Result<Doc, JsonFault> {
        scalar(alloc, token)
    }

    fn array(items: Vec<Doc>) -> Doc
        ensures { as_json result ≡ J.array (J.items_of (map as_json items.items)) }
    {
        Doc::List(DocList::from_vec(items))
    }

    fn object(alloc: Global, members: BTreeMap<String, Doc>) -> Result<Doc, JsonFault>
        ensures ok { IfOk result (λ d. as_json d ≡ J.object (J.members_of (map (spelled_by as_json) members.entries))) }
        ensures memory { (fault : JsonFault) → result ≡ Err fault → fault ≡ JsonFault.Memory }
    {
        Ok(Doc::Members(members_from(alloc, members)?))
    }
}

/// The document of one token, where it is one by itself.
fn scalar(alloc: Global, token: &Token<'_>) -> Result<Doc, JsonFault>
    ensures ok { IfOk result (λ d. scalar_of (token_of token.now) ≡ Some (as_json d)) }
    ensures not_json { result ≡ Err JsonFault.NotJson → scalar_of (token_of token.now) ≡ None }
{
    match token {
        Token::Null => Ok(Doc::Null),
        Token::Bool(b) => Ok(Doc::Bool(*b)),
        Token::Number(text) => whole_number(alloc, text),
        Token::String(text) => Ok(Doc::Text(Word::new(Str::from_text(alloc, text)?))),
        _ => Err(JsonFault::NotJson),
    }
}

/// The number of a text. The place of one that isn't whole is not reported here.
fn whole_number(alloc: Global, text: &str) -> Result<Doc, JsonFault>
    ensures ok { IfOk result (λ d. option_map json_number (number_of text.now) ≡ Some (as_json d)) }
    ensures not_json { result ≡ Err JsonFault.NotJson → option_map json_number (number_of text.now) ≡ None }
{
    match number(text) {
        Written::Whole(n) => Ok(Doc::Num(n)),
        Written::NotWhole => Err(JsonFault::NotWhole(Pointer::root(alloc))),
        Written::TooLarge => Err(JsonFault::NotJson),
    }
}

/// The members of a map, which has them in the order of their names.
fn members_from(alloc: Global, found: BTreeMap<String, Doc>) -> Result<DocMap, JsonFault>
    ensures ok { IfOk result
        (λ m. json_of_members (map_view m) ≡ members_of (map (spelled_by as_json) found.entries)) }
    ensures memory { (fault : JsonFault) → result ≡ Err fault → fault ≡ JsonFault.Memory }
{
    let mut made = Vec::with_capacity(alloc, found.len())?;
    for (key, member) in found {
        made.push(Member::new(Str::from_string(key), member))?;
    }
    Ok(DocMap::from_vec(made))
}
