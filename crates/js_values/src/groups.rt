//! The values of an `enum` in groups: a node for null, one for truth values, for numbers and for strings, and then a
//! node for each list and object.

ghost use Rattle.std.specs.Prelude.{◌≡◌, [], ◌∷◌, IfOk, OnOk, filter, option_map};
ghost use Rattle.std.specs.Bool.{beq};
ghost use Rattle.std.specs.List.{filter_map};
ghost use Rattle.std.specs.Ordering.{int_eq};
ghost use Rattle.documents.specs.Tests.{some, same_word};
ghost use Rattle.documents.specs.Kind as K;
ghost use Rattle.documents.specs.Document as D;
ghost use Rattle.js_doc.specs.View.{view, list_view};
ghost use Rattle.positions.specs.Position as P;
ghost use Rattle.normal_forms.specs.Nodes as M;
ghost use Rattle.normal_forms.specs.Values as V;
ghost use Rattle.normal_forms.specs.KeywordNodes as W;
ghost use Rattle.js_values.specs.Runs.{run};
ghost use Rattle.js_values.specs.Distinct.{add_all, numbers_of, words_of};
ghost use Rattle.js_values.specs.GroupMakers.{null_maker, truth_maker, container_maker};

use crate::numbers::Numbers;
use crate::sink::Sink;
use crate::values::{of_kind, one_kind, value_node};
use crate::words::Words;
use js_algebra::{JsonKind, Node};
use js_doc::{Doc, DocList, Memory, NumList, Str, StrList};
use std::alloc::Global;

/// The nodes of all groups. A document meets one of those that are named exactly where it is one of the values.
pub fn group_nodes(values: &DocList, sink: &mut Sink) -> Result<(), Memory>
    ensures { OnOk result (sink.new ≡ run (W.groups (D.elements (list_view values.now))) sink.old) }
{
    null_group(values, sink)?;
    truth_group(values, sink)?;
    number_group(values, sink)?;
    word_group(values, sink)?;
    containers(values, sink)
}

fn null_group(values: &DocList, sink: &mut Sink) -> Result<(), Memory>
    ensures { OnOk result (sink.new ≡ run (null_maker (D.elements (list_view values.now))) sink.old) }
{
    if has_null(values) {
        let kinds = one_kind(sink.alloc(), JsonKind::Null)?;
        sink.push(Node::Types(kinds))
    } else {
        Ok(())
    }
}

/// Both truth values are all of their kind.
fn truth_group(values: &DocList, sink: &mut Sink) -> Result<(), Memory>
    ensures { OnOk result (sink.new ≡ run (truth_maker (D.elements (list_view values.now))) sink.old) }
{
    match (has_truth(values, false), has_truth(values, true)) {
        (true, true) => {
            let kinds = one_kind(sink.alloc(), JsonKind::Boolean)?;
            sink.push(Node::Types(kinds))
        }
        (false, true) => of_kind(JsonKind::Boolean, Node::BoolIs(true), sink),
        (true, false) => of_kind(JsonKind::Boolean, Node::BoolIs(false), sink),
        (false, false) => Ok(()),
    }
}

fn number_group(values: &DocList, sink: &mut Sink) -> Result<(), Memory>
    ensures { OnOk result (sink.new ≡ run (W.one_of_kind K.Number P.NumIn
        (W.once int_eq (filter_map W.number_in (D.elements (list_view values.now))))) sink.old) }
{
    let numbers = numbers_in(sink.alloc(), values)?;
    if numbers.as_slice().is_empty() {
        Ok(())
    } else {
        of_kind(JsonKind::Number, Node::NumIn(numbers), sink)
    }
}

fn word_group(values: &DocList, sink: &mut Sink) -> Result<(), Memory>
    ensures { OnOk result (sink.new ≡ run (W.one_of_kind K.Text P.Words
        (W.once same_word (filter_map W.word_in (D.elements (list_view values.now))))) sink.old) }
{
    let words = words_in(sink.alloc(), values)?;
    if words.as_slice().is_empty() {
        Ok(())
    } else {
        of_kind(JsonKind::Text, Node::Words(words), sink)
    }
}

/// Lists and objects one by one.
fn containers(values: &DocList, sink: &mut Sink) -> Result<(), Memory>
    ensures { OnOk result (sink.new
        ≡ run (M.each V.value_node (filter W.is_container (D.elements (list_view values.now)))) sink.old) }
{
    for doc in values.as_slice() {
        container(doc, sink)?;
    }
    Ok(())
}

fn container(doc: &Doc, sink: &mut Sink) -> Result<(), Memory>
    ensures { OnOk result (sink.new ≡ run (container_maker (view doc.now)) sink.old) }
{
    if is_container(doc) {
        value_node(doc, sink)
    } else {
        Ok(())
    }
}

fn has_null(values: &DocList) -> bool
    ensures { result ≡ some W.is_null (D.elements (list_view values.now)) }
{
    values.as_slice().iter().any(is_null)
}

fn has_truth(values: &DocList, truth: bool) -> bool
    ensures { result ≡ some (beq truth) (filter_map W.truth_in (D.elements (list_view values.now))) }
{
    values
        .as_slice()
        .iter()
        .any(|doc| truth_in(doc) == Some(truth))
}

/// The numbers among the values, each once.
fn numbers_in(alloc: Global, values: &DocList) -> Result<NumList, Memory>
    ensures { IfOk result (λ l. l ≡ W.once int_eq (filter_map W.number_in (D.elements (list_view values.now)))) }
{
    let mut numbers = Numbers::new(alloc);
    for doc in values.as_slice() {
        add_number(doc, &mut numbers)?;
    }
    numbers.into_list()
}

fn add_number(doc: &Doc, numbers: &mut Numbers) -> Result<(), Memory>
    ensures { OnOk result (numbers_of numbers.new
        ≡ add_all int_eq (numbers_of numbers.old) (filter_map W.number_in (view doc.now ∷ []))) }
{
    match number_in(doc) {
        Some(number) => numbers.add(number),
        None => Ok(()),
    }
}

/// The strings among the values, each once.
fn words_in(alloc: Global, values: &DocList) -> Result<StrList, Memory>
    ensures { IfOk result (λ l. l ≡ W.once same_word (filter_map W.word_in (D.elements (list_view values.now)))) }
{
    let mut words = Words::new(alloc);
    for doc in values.as_slice() {
        add_word(alloc, doc, &mut words)?;
    }
    Ok(words.into_list())
}

fn add_word(alloc: Global, doc: &Doc, words: &mut Words) -> Result<(), Memory>
    ensures { OnOk result (words_of words.new
        ≡ add_all same_word (words_of words.old) (filter_map W.word_in (view doc.now ∷ []))) }
{
    match word_in(doc) {
        Some(word) => words.add(alloc, word),
        None => Ok(()),
    }
}

fn is_null(doc: &Doc) -> bool
    ensures { result ≡ W.is_null (view doc.now) }
{
    match doc {
        Doc::Null => true,
        _ => false,
    }
}

fn truth_in(doc: &Doc) -> Option<bool>
    ensures { result ≡ W.truth_in (view doc.now) }
{
    match doc {
        Doc::Bool(truth) => Some(*truth),
        _ => None,
    }
}

fn number_in(doc: &Doc) -> Option<i128>
    ensures { result ≡ W.number_in (view doc.now) }
{
    match doc {
        Doc::Num(number) => Some(*number),
        _ => None,
    }
}

fn word_in(doc: &Doc) -> Option<&Str>
    ensures { option_map (λ w. w.now) result ≡ W.word_in (view doc.now) }
{
    match doc {
        Doc::Text(text) => Some(text.as_str()),
        _ => None,
    }
}

fn is_container(doc: &Doc) -> bool
    ensures { result ≡ W.is_container (view doc.now) }
{
    match doc {
        Doc::List(_) | Doc::Members(_) => true,
        _ => false,
    }
}
