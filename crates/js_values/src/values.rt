//! The nodes of values: a document meets one exactly where it is the value.
//!
//! One call a level of the value, and time and memory in proportion to it.

ghost use Rattle.std.specs.Prelude.{◌≡◌, ◌∷◌, [], IfOk, OnOk};
ghost use Rattle.documents.specs.Document as D;
ghost use Rattle.js_doc.specs.View.{view, list_view, map_view, member_view};
ghost use Rattle.normal_forms.specs.Nodes as M;
ghost use Rattle.normal_forms.specs.Values as V;
ghost use Rattle.positions.specs.Position as P;
ghost use Rattle.js_algebra.specs.View.{node_view, kind_view};
ghost use Rattle.js_values.specs.Runs.{run};
ghost use Rattle.js_values.specs.MemberMaker.{member_maker};

use crate::below::{items_of, the_one};
use crate::sink::Sink;
use js_algebra::{JsonKind, KindList, NameSet, Node, PatternList, PosList};
use js_doc::{Doc, DocList, DocMap, Member, Memory, NumList, Str, StrList};
use std::alloc::Global;

/// The nodes of a value. A document meets the one that is named exactly where it is the value.
#[cycle(value)]
pub fn value_node(doc: &Doc, sink: &mut Sink) -> Result<(), Memory>
    ensures { OnOk result (sink.new ≡ run (V.value_node (view doc.now)) sink.old) }
{
    match doc {
        Doc::Null => {
            let kinds = one_kind(sink.alloc(), JsonKind::Null)?;
            sink.push(Node::Types(kinds))
        }
        Doc::Bool(truth) => of_kind(JsonKind::Boolean, Node::BoolIs(*truth), sink),
        Doc::Num(number) => {
            let numbers = one_number(sink.alloc(), *number)?;
            of_kind(JsonKind::Number, Node::NumIn(numbers), sink)
        }
        Doc::Text(text) => {
            let words = one_word(sink.alloc(), text.as_str())?;
            of_kind(JsonKind::Text, Node::Words(words), sink)
        }
        Doc::List(list) => array_node(list, sink),
        Doc::Members(members) => object_node(members, sink),
    }
}

#[cycle(value)]
fn array_node(list: &DocList, sink: &mut Sink) -> Result<(), Memory>
    ensures { OnOk result (sink.new ≡ run (V.value_node (D.array (list_view list.now))) sink.old) }
{
    let outer = sink.take_named();
    let kinds = one_kind(sink.alloc(), JsonKind::Array)?;
    sink.push(Node::Types(kinds))?;
    elements_node(list, sink)?;
    sink.push(Node::CountMin(list.len() as u64))?;
    sink.push(Node::CountMax(list.len() as u64))?;
    let below = sink.swap_named(outer);
    sink.push(Node::All(PosList::from_vec(below)))
}

/// The elements one by one, and no more.
#[cycle(value)]
fn elements_node(list: &DocList, sink: &mut Sink) -> Result<(), Memory>
    ensures { OnOk result (sink.new
        ≡ run (M.above V.items_of (M.both (V.item_nodes (list_view list.now)) (M.node P.True))) sink.old) }
{
    let outer = sink.take_named();
    item_nodes(list, sink)?;
    sink.push(Node::True)?;
    let below = sink.swap_named(outer);
    sink.push(items_of(below))
}

#[cycle(value)]
fn item_nodes(list: &DocList, sink: &mut Sink) -> Result<(), Memory>
    ensures { OnOk result (sink.new ≡ run (V.item_nodes (list_view list.now)) sink.old) }
{
    for doc in list.as_slice() {
        value_node(doc, sink)?;
    }
    Ok(())
}

#[cycle(value)]
fn object_node(members: &DocMap, sink: &mut Sink) -> Result<(), Memory>
    ensures { OnOk result (sink.new ≡ run (V.value_node (D.object (map_view members.now))) sink.old) }
{
    let outer = sink.take_named();
    let kinds = one_kind(sink.alloc(), JsonKind::Object)?;
    sink.push(Node::Types(kinds))?;
    member_nodes(members, sink)?;
    no_others(members, sink)?;
    let below = sink.swap_named(outer);
    sink.push(Node::All(PosList::from_vec(below)))
}

#[cycle(value)]
fn member_nodes(members: &DocMap, sink: &mut Sink) -> Result<(), Memory>
    ensures { OnOk result (sink.new ≡ run (V.member_nodes (map_view members.now)) sink.old) }
{
    for member in members.as_slice() {
        member_node(member, sink)?;
    }
    Ok(())
}

/// A member of that name is there, and has that value.
#[cycle(value)]
fn member_node(member: &Member, sink: &mut Sink) -> Result<(), Memory>
    ensures { OnOk result (sink.new ≡ run (member_maker (member_view member.now)) sink.old) }
{
    let name = member.name();
    let has = Node::Has(name.copy(sink.alloc())?);
    sink.push(has)?;
    let outer = sink.take_named();
    value_node(member.value(), sink)?;
    let below = sink.swap_named(outer);
    let set = NameSet::Named(name.copy(sink.alloc())?);
    sink.push(Node::MembersOf(set, the_one(below.as_slice())))
}

/// There are no other members.
fn no_others(members: &DocMap, sink: &mut Sink) -> Result<(), Memory>
    ensures { OnOk result (sink.new ≡ run (V.no_others (V.names_of (map_view members.now))) sink.old) }
{
    let outer = sink.take_named();
    sink.push(Node::False)?;
    let below = sink.swap_named(outer);
    let alloc = sink.alloc();
    let names = names_of(alloc, members)?;
    let set = NameSet::Others(names, PatternList::from_vec(Vec::new(alloc)));
    sink.push(Node::MembersOf(set, the_one(below.as_slice())))
}

fn names_of(alloc: Global, members: &DocMap) -> Result<StrList, Memory>
    ensures { IfOk result (λ ns. ns ≡ V.names_of (map_view members.now)) }
{
    let mut names = Vec::with_capacity(alloc, members.len())?;
    for member in members.as_slice() {
        names.push(member.name().copy(alloc)?)?;
    }
    Ok(StrList::from_vec(names))
}

/// Documents of one kind that meet a further node.
pub(crate) fn of_kind(kind: JsonKind, node: Node, sink: &mut Sink) -> Result<(), Memory>
    ensures { OnOk result (sink.new ≡ run (V.of_kind (kind_view kind) (node_view node)) sink.old) }
{
    let outer = sink.take_named();
    let kinds = one_kind(sink.alloc(), kind)?;
    sink.push(Node::Types(kinds))?;
    sink.push(node)?;
    let below = sink.swap_named(outer);
    sink.push(Node::All(PosList::from_vec(below)))
}

pub(crate) fn one_kind(alloc: Global, kind: JsonKind) -> Result<KindList, Memory>
    ensures { IfOk result (λ ks. ks ≡ kind ∷ []) }
{
    let mut kinds = Vec::with_capacity(alloc, 1)?;
    kinds.push(kind)?;
    Ok(KindList::from_vec(kinds))
}

fn one_number(alloc: Global, number: i128) -> Result<NumList, Memory>
    ensures { IfOk result (λ ns. ns ≡ number ∷ []) }
{
    let mut numbers = Vec::with_capacity(alloc, 1)?;
    numbers.push(number)?;
    NumList::from_vec(numbers)
}

fn one_word(alloc: Global, word: &Str) -> Result<StrList, Memory>
    ensures { IfOk result (λ ws. ws ≡ word.now ∷ []) }
{
    let mut words = Vec::with_capacity(alloc, 1)?;
    words.push(word.copy(alloc)?)?;
    Ok(StrList::from_vec(words))
}
