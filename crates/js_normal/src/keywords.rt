//! The nodes of an object's keywords, in their order.
//!
//! Each keyword costs time and memory in proportion to its value; `additionalProperties` costs a copy of the names and
//! patterns beside it.

ghost use Rattle.std.specs.Prelude.{◌≡◌, None, true, map, option_map, IfOk, OnOk};
ghost use Rattle.documents.specs.Document as D;
ghost use Rattle.documents.specs.Tests.{same_word};
ghost use Rattle.draft06.specs.Names.{keys};
ghost use Rattle.schemas.specs.Schema.{is_in_range, meets};
ghost use Rattle.schemas.specs.Keyword.{is_held};
ghost use Rattle.schemas.specs.Entry as E;
ghost use Rattle.positions.specs.Position as P;
ghost use Rattle.normal_forms.specs.Nodes as M;
ghost use Rattle.normal_forms.specs.Values as V;
ghost use Rattle.normal_forms.specs.KeywordNodes as W;
ghost use Rattle.js_algebra.specs.View.{node_view, pattern_view, name_set_view, places};
ghost use Rattle.js_doc.specs.View.{view, list_view};
ghost use Rattle.js_schema.specs.View.{keywords_view, items_view, property_view, pattern_properties_view, needs_view, dependency_view};
ghost use Rattle.js_values.specs.Runs.{run};
ghost use Rattle.js_normal.specs.PatternTrees.{tree_of};

use crate::lists::{depends_of, positions};
use crate::single;
use crate::single::{optional, pattern_of};
use js_algebra::{NameList, NameSet, Node, PatternList, Pos, PosList};
use js_doc::{Doc, DocList, Memory, StrList};
use js_schema::{
    AnyKeywords, ArrayKeywords, Dependency, DependencyList, EntryList, InPlaceKeywords, ItemsPart,
    Keywords, Needs, NumberKeywords, ObjectKeywords, PatternPropertyList, PropertyList,
    StringKeywords,
};
use js_values::{Sink, distinct, group_nodes, the_one, value_node};
use std::alloc::Global;

pub(crate) fn keyword_nodes(keywords: &Keywords, sink: &mut Sink) -> Result<(), Memory>
    requires { is_in_range (keywords_view keywords.now) ≡ true }
    ensures { OnOk result (sink.new ≡ run (W.keyword_nodes tree_of (keywords_view keywords.now)) sink.old) }
{
    any_nodes(keywords, sink)?;
    number_nodes(keywords, sink)?;
    string_nodes(keywords, sink)?;
    array_nodes(keywords, sink)?;
    member_nodes(keywords, sink)?;
    count_nodes(keywords, sink)?;
    in_place_nodes(keywords, sink)
}

/// Of each kind of document.
fn any_nodes(keywords: &Keywords, sink: &mut Sink) -> Result<(), Memory>
    ensures { OnOk result (sink.new ≡ run (W.any_nodes tree_of (keywords_view keywords.now)) sink.old) }
{
    let any: &AnyKeywords = &keywords.any;
    let types = single::types(sink.alloc(), &any.types)?;
    optional(types, sink)?;
    enumeration(&any.enumeration, sink)?;
    constant(&any.constant, sink)
}

fn number_nodes(keywords: &Keywords, sink: &mut Sink) -> Result<(), Memory>
    requires least { meets is_held keywords.now.numbers.value.exclusive_minimum ≡ true }
    requires most { meets is_held keywords.now.numbers.value.exclusive_maximum ≡ true }
    ensures { OnOk result (sink.new ≡ run (W.number_nodes tree_of (keywords_view keywords.now)) sink.old) }
{
    let numbers: &NumberKeywords = &keywords.numbers;
    optional(single::multiple_of(numbers.multiple_of), sink)?;
    optional(single::minimum(numbers.minimum), sink)?;
    optional(single::exclusive_minimum(numbers.exclusive_minimum), sink)?;
    optional(single::maximum(numbers.maximum), sink)?;
    optional(single::exclusive_maximum(numbers.exclusive_maximum), sink)
}

fn string_nodes(keywords: &Keywords, sink: &mut Sink) -> Result<(), Memory>
    ensures { OnOk result (sink.new ≡ run (W.string_nodes tree_of (keywords_view keywords.now)) sink.old) }
{
    let strings: &StringKeywords = &keywords.strings;
    optional(single::min_length(strings.min_length), sink)?;
    optional(single::max_length(strings.max_length), sink)?;
    let pattern = single::pattern(sink.alloc(), &strings.pattern)?;
    optional(pattern, sink)
}

fn array_nodes(keywords: &Keywords, sink: &mut Sink) -> Result<(), Memory>
    ensures { OnOk result (sink.new ≡ run (W.array_nodes tree_of (keywords_view keywords.now)) sink.old) }
{
    let arrays: &ArrayKeywords = &keywords.arrays;
    items(&arrays.items, arrays.additional_items, sink)?;
    optional(single::contains(arrays.contains), sink)?;
    optional(single::min_items(arrays.min_items), sink)?;
    optional(single::max_items(arrays.max_items), sink)
}

fn member_nodes(keywords: &Keywords, sink: &mut Sink) -> Result<(), Memory>
    ensures { OnOk result (sink.new ≡ run (W.member_nodes tree_of (keywords_view keywords.now)) sink.old) }
{
    let objects: &ObjectKeywords = &keywords.objects;
    required(&objects.required, sink)?;
    properties(&objects.properties, sink)?;
    pattern_properties(&objects.pattern_properties, sink)?;
    let additional = additional_properties(sink.alloc(), keywords)?;
    optional(additional, sink)?;
    optional(single::property_names(objects.property_names), sink)?;
    dependencies(&objects.dependencies, sink)
}

fn count_nodes(keywords: &Keywords, sink: &mut Sink) -> Result<(), Memory>
    ensures { OnOk result (sink.new ≡ run (W.count_nodes tree_of (keywords_view keywords.now)) sink.old) }
{
    let objects: &ObjectKeywords = &keywords.objects;
    optional(single::min_properties(objects.min_properties), sink)?;
    optional(single::max_properties(objects.max_properties), sink)
}

/// Nodes of keywords whose schemas apply to the same document.
fn in_place_nodes(keywords: &Keywords, sink: &mut Sink) -> Result<(), Memory>
    ensures { OnOk result (sink.new ≡ run (W.in_place_nodes tree_of (keywords_view keywords.now)) sink.old) }
{
    let in_place: &InPlaceKeywords = &keywords.in_place;
    let all_of = single::all_of(sink.alloc(), &in_place.all_of)?;
    optional(all_of, sink)?;
    let any_of = single::any_of(sink.alloc(), &in_place.any_of)?;
    optional(any_of, sink)?;
    let one_of = single::one_of(sink.alloc(), &in_place.one_of)?;
    optional(one_of, sink)?;
    optional(single::not(in_place.not), sink)
}

/// One of the values, by groups.
fn enumeration(values: &Option<DocList>, sink: &mut Sink) -> Result<(), Memory>
    ensures { OnOk result (sink.new
        ≡ run (M.if_some (λ ds. M.above P.Any (W.groups ds))
        (option_map (λ ds. D.elements (list_view ds)) values.now)) sink.old) }
{
    match values {
        Some(values) => enum_node(values, sink),
        None => Ok(()),
    }
}

fn enum_node(values: &DocList, sink: &mut Sink) -> Result<(), Memory>
    ensures { OnOk result (sink.new ≡ run (M.above P.Any (W.groups (D.elements (list_view values.now)))) sink.old) }
{
    let outer = sink.take_named();
    group_nodes(values, sink)?;
    let below = sink.swap_named(outer);
    sink.push(Node::Any(PosList::from_vec(below)))
}

fn constant(value: &Option<Doc>, sink: &mut Sink) -> Result<(), Memory>
    ensures { OnOk result (sink.new ≡ run (M.if_some V.value_node (option_map view value.now)) sink.old) }
{
    match value {
        Some(value) => value_node(value, sink),
        None => Ok(()),
    }
}

fn items(items: &Option<ItemsPart>, rest: Option<u32>, sink: &mut Sink) -> Result<(), Memory>
    ensures { OnOk result (sink.new ≡ run (M.if_some (W.items_node rest) (option_map items_view items.now)) sink.old) }
{
    match items {
        Some(items) => items_node(items, rest, sink),
        None => Ok(()),
    }
}

fn items_node(items: &ItemsPart, rest: Option<u32>, sink: &mut Sink) -> Result<(), Memory>
    ensures { OnOk result (sink.new ≡ run (W.items_node rest (items_view items.now)) sink.old) }
{
    match items {
        ItemsPart::Each(entry) => {
            let prefix = PosList::from_vec(Vec::new(sink.alloc()));
            sink.push(Node::Items(prefix, Pos(*entry)))
        }
        ItemsPart::Listed(entries) => listed_items(entries, rest, sink),
    }
}

/// Schemas in order, and what is required of all further elements.
fn listed_items(entries: &EntryList, rest: Option<u32>, sink: &mut Sink) -> Result<(), Memory>
    ensures { OnOk result (sink.new ≡ run (W.items_node rest (E.Listed entries.now)) sink.old) }
{
    let prefix = positions(sink.alloc(), entries)?;
    match rest {
        Some(entry) => sink.push(Node::Items(prefix, Pos(entry))),
        None => free_items(prefix, sink),
    }
}

/// Schemas in order, where further elements are not constrained.
fn free_items(prefix: PosList, sink: &mut Sink) -> Result<(), Memory>
    ensures { OnOk result (sink.new ≡ run (W.items_node None (E.Listed (places prefix))) sink.old) }
{
    let outer = sink.take_named();
    sink.push(Node::True)?;
    let below = sink.swap_named(outer);
    sink.push(Node::Items(prefix, the_one(below.as_slice())))
}

fn required(words: &Option<StrList>, sink: &mut Sink) -> Result<(), Memory>
    ensures { OnOk result (sink.new
        ≡ run (M.if_some (λ ws. M.each (λ w. M.node (P.Has w)) (W.once same_word ws)) words.now) sink.old) }
{
    match words {
        Some(words) => required_nodes(words, sink),
        None => Ok(()),
    }
}

/// Repeats are dropped.
fn required_nodes(words: &StrList, sink: &mut Sink) -> Result<(), Memory>
    ensures { OnOk result (sink.new ≡ run (M.each (λ w. M.node (P.Has w)) (W.once same_word words.now)) sink.old) }
{
    let words = distinct(sink.alloc(), words)?;
    has_nodes(&words, sink)
}

fn has_nodes(words: &StrList, sink: &mut Sink) -> Result<(), Memory>
    ensures { OnOk result (sink.new ≡ run (M.each (λ w. M.node (P.Has w)) words.now) sink.old) }
{
    for word in words.as_slice() {
        let has = Node::Has(word.copy(sink.alloc())?);
        sink.push(has)?;
    }
    Ok(())
}

fn properties(properties: &Option<PropertyList>, sink: &mut Sink) -> Result<(), Memory>
    ensures { OnOk result (sink.new
        ≡ run (M.if_some (M.each (λ p. M.node (P.MembersOf (P.Named p.0) p.1)))
        (option_map (λ ps. map property_view ps) properties.now)) sink.old) }
{
    match properties {
        Some(properties) => property_nodes(properties, sink),
        None => Ok(()),
    }
}

fn property_nodes(properties: &PropertyList, sink: &mut Sink) -> Result<(), Memory>
    ensures { OnOk result (sink.new
        ≡ run (M.each (λ p. M.node (P.MembersOf (P.Named p.0) p.1)) (map property_view properties.now)) sink.old) }
{
    for property in properties.as_slice() {
        let set = NameSet::Named(property.name.copy(sink.alloc())?);
        sink.push(Node::MembersOf(set, Pos(property.entry)))?;
    }
    Ok(())
}

fn pattern_properties(
    properties: &Option<PatternPropertyList>,
    sink: &mut Sink,
) -> Result<(), Memory>
    ensures { OnOk result (sink.new
        ≡ run (M.if_some (M.each (λ p. M.node (P.MembersOf (P.Matching (W.pattern_of tree_of p.0)) p.1)))
        (option_map pattern_properties_view properties.now)) sink.old) }
{
    match properties {
        Some(properties) => pattern_property_nodes(properties, sink),
        None => Ok(()),
    }
}

fn pattern_property_nodes(properties: &PatternPropertyList, sink: &mut Sink) -> Result<(), Memory>
    ensures { OnOk result (sink.new
        ≡ run (M.each (λ p. M.node (P.MembersOf (P.Matching (W.pattern_of tree_of p.0)) p.1))
        (pattern_properties_view properties.now)) sink.old) }
{
    for property in properties.as_slice() {
        let set = NameSet::Matching(pattern_of(sink.alloc(), &property.pattern)?);
        sink.push(Node::MembersOf(set, Pos(property.entry)))?;
    }
    Ok(())
}

fn additional_properties(alloc: Global, keywords: &Keywords) -> Result<Option<Node>, Memory>
    ensures { IfOk result (λ n. option_map node_view n
        ≡ option_map (P.MembersOf (W.others_of tree_of (keywords_view keywords.now)))
        keywords.now.objects.value.additional_properties) }
{
    match keywords.objects.additional_properties {
        Some(entry) => Ok(Some(Node::MembersOf(others_of(alloc, keywords)?, Pos(entry)))),
        None => Ok(None),
    }
}

/// The names that are none of `properties` and that no name of `patternProperties` matches.
fn others_of(alloc: Global, keywords: &Keywords) -> Result<NameSet, Memory>
    ensures { IfOk result (λ s. name_set_view s ≡ W.others_of tree_of (keywords_view keywords.now)) }
{
    let objects: &ObjectKeywords = &keywords.objects;
    let names = names_of(alloc, &objects.properties)?;
    let patterns = patterns_of(alloc, &objects.pattern_properties)?;
    Ok(NameSet::Others(names, patterns))
}

fn names_of(alloc: Global, properties: &Option<PropertyList>) -> Result<NameList, Memory>
    ensures { IfOk result (λ ns. ns ≡ keys (option_map (λ ps. map property_view ps) properties.now)) }
{
    match properties {
        Some(properties) => copied_names(alloc, properties),
        None => Ok(NameList::from_vec(Vec::new(alloc))),
    }
}

fn copied_names(alloc: Global, properties: &PropertyList) -> Result<NameList, Memory>
    ensures { IfOk result (λ ns. ns ≡ map (λ p. p.0) (map property_view properties.now)) }
{
    let mut names = Vec::with_capacity(alloc, properties.as_slice().len())?;
    for property in properties.as_slice() {
        names.push(property.name.copy(alloc)?)?;
    }
    Ok(NameList::from_vec(names))
}

fn patterns_of(
    alloc: Global,
    properties: &Option<PatternPropertyList>,
) -> Result<PatternList, Memory>
    ensures { IfOk result (λ rs. map pattern_view rs
        ≡ map (W.pattern_of tree_of) (keys (option_map pattern_properties_view properties.now))) }
{
    match properties {
        Some(properties) => copied_patterns(alloc, properties),
        None => Ok(PatternList::from_vec(Vec::new(alloc))),
    }
}

fn copied_patterns(alloc: Global, properties: &PatternPropertyList) -> Result<PatternList, Memory>
    ensures { IfOk result (λ rs. map pattern_view rs
        ≡ map (W.pattern_of tree_of) (map (λ p. p.0) (pattern_properties_view properties.now))) }
{
    let mut patterns = Vec::with_capacity(alloc, properties.as_slice().len())?;
    for property in properties.as_slice() {
        patterns.push(pattern_of(alloc, &property.pattern)?)?;
    }
    Ok(PatternList::from_vec(patterns))
}

fn dependencies(dependencies: &Option<DependencyList>, sink: &mut Sink) -> Result<(), Memory>
    ensures { OnOk result (sink.new
        ≡ run (M.if_some (M.each W.dependency_node)
        (option_map (λ ds. map dependency_view ds) dependencies.now)) sink.old) }
{
    match dependencies {
        Some(dependencies) => dependency_nodes(dependencies, sink),
        None => Ok(()),
    }
}

fn dependency_nodes(dependencies: &DependencyList, sink: &mut Sink) -> Result<(), Memory>
    ensures { OnOk result (sink.new ≡ run (M.each W.dependency_node (map dependency_view dependencies.now)) sink.old) }
{
    for dependency in dependencies.as_slice() {
        dependency_node(dependency, sink)?;
    }
    Ok(())
}

fn dependency_node(dependency: &Dependency, sink: &mut Sink) -> Result<(), Memory>
    ensures { OnOk result (sink.new ≡ run (W.dependency_node (dependency_view dependency.now)) sink.old) }
{
    let outer = sink.take_named();
    let has = Node::Has(dependency.key.copy(sink.alloc())?);
    sink.push(has)?;
    need_node(&dependency.needs, sink)?;
    let below = sink.swap_named(outer);
    sink.push(depends_of(below.as_slice()))
}

fn need_node(needs: &Needs, sink: &mut Sink) -> Result<(), Memory>
    ensures { OnOk result (sink.new ≡ run (W.need_node (needs_view needs.now)) sink.old) }
{
    match needs {
        Needs::Names(words) => names_node(words, sink),
        Needs::Whole(entry) => sink.name(Pos(*entry)),
    }
}

/// All of the names are there.
fn names_node(words: &StrList, sink: &mut Sink) -> Result<(), Memory>
    ensures { OnOk result (sink.new ≡ run (W.need_node (E.Names words.now)) sink.old) }
{
    let outer = sink.take_named();
    has_nodes(words, sink)?;
    let below = sink.swap_named(outer);
    sink.push(Node::All(PosList::from_vec(below)))
}
