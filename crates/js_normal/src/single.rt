//! The keywords that make one node each, where they are there.

ghost use Rattle.std.specs.Prelude.{◌≡◌, ◌+ℤ◌, ◌-ℤ◌, ◌++◌, ◌∷◌, [], pos, true, filter, map, option_map, IfOk, OnOk};
ghost use Rattle.documents.specs.Kind as K;
ghost use Rattle.documents.specs.Tests.{some};
ghost use Rattle.schemas.specs.Keyword.{is_held};
ghost use Rattle.schemas.specs.Schema.{meets};
ghost use Rattle.draft06.specs.EntryValidity.{kind_named};
ghost use Rattle.positions.specs.Position as P;
ghost use Rattle.normal_forms.specs.Nodes as M;
ghost use Rattle.normal_forms.specs.KeywordNodes as W;
ghost use Rattle.js_algebra.specs.View.{node_view, kind_view, pattern_view};
ghost use Rattle.js_keywords.specs.TypeView.{type_view};
ghost use Rattle.js_schema.specs.Patterns.{source_of};
ghost use Rattle.js_values.specs.Runs.{run};
ghost use Rattle.js_normal.specs.PatternTrees.{tree_of};

use crate::lists::positions;
use js_algebra::{JsonKind, KindList, Node, Pattern, Pos};
use js_doc::Memory;
use js_keywords::TypeName;
use js_schema::{EntryList, PatternText, TypeList};
use js_values::Sink;
use std::alloc::Global;

/// Appends a node where there is one.
pub(crate) fn optional(node: Option<Node>, sink: &mut Sink) -> Result<(), Memory>
    ensures { OnOk result (sink.new ≡ run (M.if_some M.node (option_map node_view node)) sink.old) }
{
    match node {
        Some(node) => sink.push(node),
        None => Ok(()),
    }
}

pub(crate) fn types(alloc: Global, types: &Option<TypeList>) -> Result<Option<Node>, Memory>
    ensures { IfOk result (λ n. option_map node_view n
        ≡ option_map (λ ts. P.Types (W.kinds_of ts)) (option_map (λ ts. map type_view ts) types.now)) }
{
    match types {
        Some(types) => Ok(Some(Node::Types(kinds_of(alloc, types)?))),
        None => Ok(None),
    }
}

pub(crate) fn multiple_of(divisor: Option<u64>) -> Option<Node>
    ensures { option_map node_view result ≡ option_map P.Multiple divisor }
{
    divisor.map(|n| Node::Multiple(n))
}

pub(crate) fn minimum(bound: Option<i128>) -> Option<Node>
    ensures { option_map node_view result ≡ option_map P.NumMin bound }
{
    bound.map(|n| Node::NumMin(n))
}

pub(crate) fn exclusive_minimum(bound: Option<i128>) -> Option<Node>
    requires { meets is_held bound ≡ true }
    ensures { option_map node_view result ≡ option_map (λ n. P.NumMin (n +ℤ pos 1)) bound }
{
    match bound {
        Some(n) => Some(Node::NumMin(after(n))),
        None => None,
    }
}

pub(crate) fn maximum(bound: Option<i128>) -> Option<Node>
    ensures { option_map node_view result ≡ option_map P.NumMax bound }
{
    bound.map(|n| Node::NumMax(n))
}

pub(crate) fn exclusive_maximum(bound: Option<i128>) -> Option<Node>
    requires { meets is_held bound ≡ true }
    ensures { option_map node_view result ≡ option_map (λ n. P.NumMax (n -ℤ pos 1)) bound }
{
    match bound {
        Some(n) => Some(Node::NumMax(before(n))),
        None => None,
    }
}

pub(crate) fn min_length(count: Option<u64>) -> Option<Node>
    ensures { option_map node_view result ≡ option_map P.LengthMin count }
{
    count.map(|n| Node::LengthMin(n))
}

pub(crate) fn max_length(count: Option<u64>) -> Option<Node>
    ensures { option_map node_view result ≡ option_map P.LengthMax count }
{
    count.map(|n| Node::LengthMax(n))
}

pub(crate) fn pattern(alloc: Global, pattern: &Option<PatternText>) -> Result<Option<Node>, Memory>
    ensures { IfOk result (λ n. option_map node_view n
        ≡ option_map (λ t. P.Match (W.pattern_of tree_of t)) (option_map source_of pattern.now)) }
{
    match pattern {
        Some(pattern) => Ok(Some(Node::Match(pattern_of(alloc, pattern)?))),
        None => Ok(None),
    }
}

pub(crate) fn contains(entry: Option<u32>) -> Option<Node>
    ensures { option_map node_view result ≡ option_map P.Contains entry }
{
    entry.map(|e| Node::Contains(Pos(e)))
}

pub(crate) fn min_items(count: Option<u64>) -> Option<Node>
    ensures { option_map node_view result ≡ option_map P.CountMin count }
{
    count.map(|n| Node::CountMin(n))
}

pub(crate) fn max_items(count: Option<u64>) -> Option<Node>
    ensures { option_map node_view result ≡ option_map P.CountMax count }
{
    count.map(|n| Node::CountMax(n))
}

pub(crate) fn property_names(entry: Option<u32>) -> Option<Node>
    ensures { option_map node_view result ≡ option_map P.NamesIn entry }
{
    entry.map(|e| Node::NamesIn(Pos(e)))
}

pub(crate) fn min_properties(count: Option<u64>) -> Option<Node>
    ensures { option_map node_view result ≡ option_map P.PropsMin count }
{
    count.map(|n| Node::PropsMin(n))
}

pub(crate) fn max_properties(count: Option<u64>) -> Option<Node>
    ensures { option_map node_view result ≡ option_map P.PropsMax count }
{
    count.map(|n| Node::PropsMax(n))
}

pub(crate) fn all_of(alloc: Global, entries: &Option<EntryList>) -> Result<Option<Node>, Memory>
    ensures { IfOk result (λ n. option_map node_view n ≡ option_map P.All entries.now) }
{
    match entries {
        Some(entries) => Ok(Some(Node::All(positions(alloc, entries)?))),
        None => Ok(None),
    }
}

pub(crate) fn any_of(alloc: Global, entries: &Option<EntryList>) -> Result<Option<Node>, Memory>
    ensures { IfOk result (λ n. option_map node_view n ≡ option_map P.Any entries.now) }
{
    match entries {
        Some(entries) => Ok(Some(Node::Any(positions(alloc, entries)?))),
        None => Ok(None),
    }
}

pub(crate) fn one_of(alloc: Global, entries: &Option<EntryList>) -> Result<Option<Node>, Memory>
    ensures { IfOk result (λ n. option_map node_view n ≡ option_map P.One entries.now) }
{
    match entries {
        Some(entries) => Ok(Some(Node::One(positions(alloc, entries)?))),
        None => Ok(None),
    }
}

pub(crate) fn not(entry: Option<u32>) -> Option<Node>
    ensures { option_map node_view result ≡ option_map P.Not entry }
{
    entry.map(|e| Node::Not(Pos(e)))
}

pub(crate) fn pattern_of(alloc: Global, pattern: &PatternText) -> Result<Pattern, Memory>
    ensures { IfOk result (λ r. pattern_view r ≡ W.pattern_of tree_of (source_of pattern.now)) }
{
    let source = pattern.source().copy(alloc)?;
    match pattern.re().copy(alloc) {
        Ok(re) => Ok(Pattern { source, re }),
        Err(_) => Err(Memory),
    }
}

fn after(n: i128) -> i128
    requires { is_held n ≡ true }
    ensures { result ≡ n +ℤ pos 1 }
{
    n + 1
}

fn before(n: i128) -> i128
    requires { is_held n ≡ true }
    ensures { result ≡ n -ℤ pos 1 }
{
    n - 1
}

/// The kinds that the types name, each once, in the order of kinds.
fn kinds_of(alloc: Global, types: &TypeList) -> Result<KindList, Memory>
    ensures { IfOk result (λ ks. map kind_view ks ≡ W.kinds_of (map type_view types.now)) }
{
    kinds_among(alloc, types, &JsonKind::ALL)
}

/// Those of the kinds that the types name.
fn kinds_among(alloc: Global, types: &TypeList, kinds: &[JsonKind]) -> Result<KindList, Memory>
    ensures { IfOk result (λ ks. map kind_view ks ≡ filter
        (λ k. some (λ t. K.same_kind k (kind_named t)) (map type_view types.now)) (map kind_view kinds.now)) }
{
    let mut named = Vec::with_capacity(alloc, kinds.len())?;
    for kind in kinds {
        add_kind(types, *kind, &mut named)?;
    }
    Ok(KindList::from_vec(named))
}

fn add_kind(types: &TypeList, kind: JsonKind, kinds: &mut Vec<JsonKind>) -> Result<(), Memory>
    ensures { OnOk result (map kind_view kinds.new.items ≡ map kind_view kinds.old.items
        ++ filter (λ k. some (λ t. K.same_kind k (kind_named t)) (map type_view types.now)) (kind_view kind ∷ [])) }
{
    if is_named(types, kind) {
        kinds.push(kind)?;
    }
    Ok(())
}

fn is_named(types: &TypeList, kind: JsonKind) -> bool
    ensures { result ≡ some (λ t. K.same_kind (kind_view kind) (kind_named t)) (map type_view types.now) }
{
    types.as_slice().iter().any(|name| kind_of(*name) == kind)
}

/// The kind that the name of a type names.
fn kind_of(name: TypeName) -> JsonKind
    ensures { kind_view result ≡ kind_named (type_view name) }
{
    match name {
        TypeName::Null => JsonKind::Null,
        TypeName::Boolean => JsonKind::Boolean,
        TypeName::Object => JsonKind::Object,
        TypeName::Array => JsonKind::Array,
        TypeName::Number | TypeName::Integer => JsonKind::Number,
        TypeName::Text => JsonKind::Text,
    }
}
