//! What is made of the tokens of a text, each part once: a JSON value (`json_reader`) or a document (`doc_reader`).
//!
//! What is taken is what the grammar reads; `specs/Reading.antt` says which. An object's members go into a map as they
//! come, and out of it in the order of their names; texts and what was made of tokens before are moved on the way. It
//! nests as deep as it is allowed to. `read_json` and `read_doc` stand on it.

ghost use Rattle.std.specs.Prelude.{◌≡◌, ◌≢◌, ◌<◌, ℕ, suc, List, [], length, map, true, Bool, Some, None, IfOk, OnOk, Err, MatchResult};
ghost use Rattle.json.specs.Json.{value, items, members};
ghost use Rattle.json.specs.Reads.{token_of};
ghost use Rattle.serde_json.specs.Read.{converted};
ghost use Rattle.documents.specs.Json as J;
ghost use Rattle.js_json.specs.Reading.{json_of_tree, items_of_tree, named_of_tree, scalar_of, named_by, spelled_by};

use crate::fault::JsonFault;
use json::{Reader, Token};
use std::alloc::Global;
use std::collections::BTreeMap;

/// What tokens are made into.
pub(crate) trait Made: Drop {
    // The JSON value that it is.
    ghost json: { Self → J.Json };

    // Whether each number is taken, so that no place of one is reported.
    ghost takes_any: { Bool };

    /// What one token is, where it is a value by itself.
    fn scalar(alloc: Global, token: &Token<'_>) -> Result<Self, JsonFault>
        ensures ok { IfOk result (λ v. scalar_of (token_of token.now) ≡ Some (json v)) }
        ensures not_json { result ≡ Err JsonFault.NotJson → scalar_of (token_of token.now) ≡ None }
        ensures any_number { takes_any ≡ true → (place : List (List ℕ)) → result ≢ Err (JsonFault.NotWhole place) };

    /// The array of these elements.
    fn array(items: Vec<Self>) -> Self
        ensures { json result ≡ J.array (J.items_of (map json items.items)) };

    /// The object of these members, which a map has in the order of their names.
    fn object(alloc: Global, members: BTreeMap<String, Self>) -> Result<Self, JsonFault>
        ensures ok { IfOk result (λ v. json v ≡ J.object (J.members_of (map (spelled_by json) members.entries))) }
        ensures memory { (fault : JsonFault) → result ≡ Err fault → fault ≡ JsonFault.Memory };
}

/// The next value, in which arrays and objects nest `depth` deep at most.
#[cycle(take)]
pub(crate) fn take<M: Made>(
    alloc: Global,
    reader: &mut Reader<'_>,
    depth: usize,
) -> Result<M, JsonFault>
    ensures ok { IfOk result (λ v. converted json_of_tree (value depth reader.old) ≡ Some (M.json v, reader.new)) }
    ensures shorter { OnOk result (length reader.new < length reader.old) }
    ensures not_json { result ≡ Err JsonFault.NotJson → converted json_of_tree (value depth reader.old) ≡ None }
    ensures any_number { M.takes_any ≡ true → (place : List (List ℕ)) → result ≢ Err (JsonFault.NotWhole place) }
{
    let token = reader.next().ok_or(JsonFault::NotJson)?;
    match token {
        Token::BeginArray => {
            let within = depth_within(depth)?;
            Ok(M::array(take_items(alloc, reader, within)?))
        }
        Token::BeginObject => {
            let within = depth_within(depth)?;
            let members = take_members(alloc, reader, within)?;
            M::object(alloc, members)
        }
        _ => M::scalar(alloc, &token),
    }
}

/// How deep the parts of an array or an object nest, where it nests this deep.
fn depth_within(depth: usize) -> Result<usize, JsonFault>
    ensures { MatchResult result (λ n. depth ≡ suc n) (λ fault. (depth ≡ 0) × (fault ≡ JsonFault.NotJson)) }
{
    if depth == 0 {
        return Err(JsonFault::NotJson);
    }
    Ok(depth - 1)
}

#[cycle(take)]
fn take_items<M: Made>(
    alloc: Global,
    reader: &mut Reader<'_>,
    depth: usize,
) -> Result<Vec<M>, JsonFault>
    ensures ok { IfOk result
        (λ found. converted items_of_tree (items (value depth) (length reader.old) reader.old)
        ≡ Some (J.items_of (map M.json found.items), reader.new)) }
    ensures shorter { OnOk result (length reader.new < length reader.old) }
    ensures not_json { result ≡ Err JsonFault.NotJson
        → converted items_of_tree (items (value depth) (length reader.old) reader.old) ≡ None }
    ensures any_number { M.takes_any ≡ true → (place : List (List ℕ)) → result ≢ Err (JsonFault.NotWhole place) }
{
    let mut found = Vec::new(alloc);
    'items: while !reader.take_end_array() {
        let item = take(alloc, reader, depth)?;
        found.push(item)?;
    }
    Ok(found)
}

#[cycle(take)]
fn take_members<M: Made>(
    alloc: Global,
    reader: &mut Reader<'_>,
    depth: usize,
) -> Result<BTreeMap<String, M>, JsonFault>
    ensures ok { IfOk result
        (λ found. converted (λ ms. named_of_tree ms []) (members (value depth) (length reader.old) reader.old)
        ≡ Some (map (named_by M.json) found.entries, reader.new)) }
    ensures shorter { OnOk result (length reader.new < length reader.old) }
    ensures not_json { result ≡ Err JsonFault.NotJson
        → converted (λ ms. named_of_tree ms []) (members (value depth) (length reader.old) reader.old) ≡ None }
    ensures any_number { M.takes_any ≡ true → (place : List (List ℕ)) → result ≢ Err (JsonFault.NotWhole place) }
{
    let mut found = BTreeMap::new(alloc);
    'members: while let Some(name) = reader.next_key()? {
        let key = String::from_str(alloc, name)?;
        let member = take(alloc, reader, depth)?;
        drop(found.insert(key, member)?);
    }
    Ok(found)
}
