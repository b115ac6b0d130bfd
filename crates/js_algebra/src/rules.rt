//! The choices of a signed position, and the literals, which have none.

ghost use Rattle.std.specs.Prelude.{◌≡◌, ◌<◌, map, length, IfOk, IfSome, true, [], option_map};
ghost use Rattle.documents.specs.Tests.{some};
ghost use Rattle.documents.specs.Document.{Document, kind_of};
ghost use Rattle.documents.specs.Kind.{same_kind};
ghost use Rattle.positions.specs.Holds.{holds};
ghost use Rattle.goals.specs.Choices.{choices, is_wrong, is_elsewhere};
ghost use Rattle.goals.specs.Signed.{met, meets};
ghost use Rattle.js_algebra.specs.View.{kind_view, node_view, signed_view, is_in_table};
ghost use Rattle.js_algebra.specs.Rules.{rule_view, choice_view, choices_of, are_choices_in_table, nothing_view, depends_view};

use crate::choice::{Choice, Rule};
use crate::lists::{Choices, SignedList};
use crate::node::{JsonKind, Node, Pos};
use crate::signed::Signed;
use crate::table::Core;
use js_doc::Memory;
use std::alloc::Global;
use std::slice;

impl Core {
    /// The rule of `x` at documents of the kind. Takes no memory, and one step.
    pub fn rule(&self, x: Signed, kind: JsonKind) -> Rule<'_>
        requires { is_in_table self.now.positions (signed_view x) ≡ true }
        ensures choices { rule_view result ≡ choices self.now.positions (kind_view kind) (signed_view x) }
        ensures named { are_choices_in_table self.now.positions (rule_view result) ≡ true }
    {
        self.node(x.pos).rule(x.plus, kind)
    }

    /// Whether `x` is a literal that no document of the kind meets.
    pub fn is_wrong(&self, x: Signed, kind: JsonKind) -> bool
        requires { is_in_table self.now.positions (signed_view x) ≡ true }
        ensures { result ≡ is_wrong self.now.positions (kind_view kind) (signed_view x) }
    {
        match self.node(x.pos) {
            Node::Types(kinds) => has_kind(kinds.as_slice(), kind) != x.plus,
            node => !x.plus && is_elsewhere(node.speaks_of(), kind),
        }
    }
}

impl Node {
    /// The rule of the position with that sign.
    fn rule(&self, plus: bool, kind: JsonKind) -> Rule<'_>
        ensures { rule_view result ≡ choices_of (kind_view kind) plus (node_view self.now) }
    {
        match self {
            Node::True => nothing(plus),
            Node::False => nothing(!plus),
            Node::Same(q) => Rule::Together(slice::from_ref(q), plus),
            Node::Not(q) => Rule::Together(slice::from_ref(q), !plus),
            Node::All(qs) if plus => Rule::Together(qs.as_slice(), true),
            Node::All(qs) => Rule::Apart(qs.as_slice(), false),
            Node::Any(qs) if plus => Rule::Apart(qs.as_slice(), true),
            Node::Any(qs) => Rule::Together(qs.as_slice(), false),
            Node::One(qs) if plus => Rule::ExactlyOne(qs.as_slice()),
            Node::One(qs) => Rule::NotExactlyOne(qs.as_slice()),
            Node::Depends(h, q) => dependency(*h, *q, plus, kind),
            _ => Rule::Literal,
        }
    }
}

/// One choice without positions where there is nothing to meet, and no choice where nothing can be met.
fn nothing(met: bool) -> Rule<'static>
    ensures { rule_view result ≡ nothing_view met }
{
    if met {
        Rule::Together(&[], true)
    } else {
        Rule::Apart(&[], true)
    }
}

/// The rule of a dependency: an object of which `h` holds needs `q`.
fn dependency(h: Pos, q: Pos, plus: bool, kind: JsonKind) -> Rule<'static>
    ensures { rule_view result ≡ depends_view h.0 q.0 plus (kind_view kind) }
{
    if kind != JsonKind::Object {
        nothing(plus)
    } else if plus {
        Rule::Either(Signed::minus(h), Signed::plus(q))
    } else {
        Rule::Both(Signed::plus(h), Signed::minus(q))
    }
}

fn has_kind(kinds: &[JsonKind], kind: JsonKind) -> bool
    ensures { result ≡ some (same_kind (kind_view kind)) (map kind_view kinds.now) }
{
    kinds.contains(&kind)
}

/// Whether a typed position speaks of another kind.
fn is_elsewhere(speaks_of: Option<JsonKind>, kind: JsonKind) -> bool
    ensures { result ≡ is_elsewhere (kind_view kind) (option_map kind_view speaks_of) }
{
    match speaks_of {
        Some(k) => k != kind,
        None => false,
    }
}

/// The choices of `x` at documents of the kind, none exactly for a literal.
pub fn rule_choices(
    alloc: Global,
    core: &Core,
    x: Signed,
    kind: JsonKind,
) -> Result<Option<Choices>, Memory>
    requires { is_in_table core.now.positions (signed_view x) ≡ true }
    ensures choices { IfOk result (λ o. o ≡ choices core.now.positions (kind_view kind) (signed_view x)) }

    // A document of the kind meets `x` exactly where it meets one of them.
    ensures meaning { IfOk result (λ o. (J : Document) → kind_of J ≡ kind_view kind
        → IfSome o (λ cs. some (λ C. meets core.now.positions C J) cs ≡ met (λ p. holds core.now.positions p J) (signed_view x))) }
{
    // The length comes with the fact that ranks fall, on which `meaning` rests.
    let _length = core.len();
    listed(alloc, core.rule(x, kind))
}

/// The choices of a rule, as lists.
fn listed(alloc: Global, rule: Rule<'_>) -> Result<Option<Choices>, Memory>
    ensures { IfOk result (λ o. o ≡ rule_view rule.entry) }
{
    if rule.is_literal() {
        return Ok(None);
    }
    let mut lists = Vec::new(alloc);
    for index in 0..rule.count() {
        lists.push(signed_list(alloc, rule.choice(index))?)?;
    }
    Ok(Some(Choices::from_vec(lists)))
}

/// The signed positions of a choice, as a list.
fn signed_list(alloc: Global, choice: Choice<'_>) -> Result<SignedList, Memory>
    ensures { IfOk result (λ l. l ≡ choice_view choice.entry) }
{
    let mut list = Vec::with_capacity(alloc, choice.len())?;
    for k in 0..choice.len() {
        list.push(choice.at(k))?;
    }
    Ok(SignedList::from_vec(list))
}
