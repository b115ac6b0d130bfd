//! Expansions of goals of one table, with the values worked out by hand from what each kind requires.

ghost use Rattle.std.specs.Prelude.{◌≡◌, length, true, IfOk, OnOk, map};
ghost use Rattle.expander_laws.specs.Expander.{takes};
ghost use Rattle.js_algebra.specs.View.{signed_view, are_in_table};

use js_algebra::{
    BranchId, Core, Goal, JsonKind, KindList, Node, NodeList, Pos, PosList, RankList, Signed, form,
};
use js_doc::{Memory, Str, StrList};
use js_expander::CoreExpander;
use js_expansion::{Alternative, Expander, Expansion, LimitKind, Shape, Slot};
use std::alloc::Global;
use std::test::Fail;

fn kinds(alloc: Global, kind: JsonKind) -> Result<KindList, Memory> {
    Ok(KindList::from_vec(vec![in alloc; kind]?))
}

/// Kinds, and what is required at each of them; two choices at 14 and 15. The divisors at 10 and 11 are primes.
fn table(alloc: Global) -> Result<Core, Fail> {
    let either = vec![in alloc; Pos(6), Pos(7)]?;
    let numbers = vec![in alloc; Pos(1), Pos(12)]?;
    let word = vec![in alloc; Str::from_text(alloc, "b")?]?;
    let nodes = vec![in alloc;
        Node::Types(kinds(alloc, JsonKind::Number)?),
        Node::NumMin(5),
        Node::Multiple(3),
        Node::Types(kinds(alloc, JsonKind::Boolean)?),
        Node::BoolIs(false),
        Node::Types(kinds(alloc, JsonKind::Text)?),
        Node::LengthMin(2),
        Node::Words(StrList::from_vec(word)),
        Node::Types(kinds(alloc, JsonKind::Array)?),
        Node::Contains(Pos(3)),
        Node::Multiple(18_446_744_073_709_551_557),
        Node::Multiple(18_446_744_073_709_551_533),
        Node::NumMax(-2),
        Node::CountMin(65_537),
        Node::Any(PosList::from_vec(either)),
        Node::Any(PosList::from_vec(numbers)),
        Node::LengthMin(65_535),
        Node::CountMin(65_536),
    ]?;
    let ranks = vec![in alloc; 0, 0, 0, 0, 0, 0, 0, 0, 0, 0, 0, 0, 0, 0, 1, 1, 0, 0]?;
    Ok(Core::make(alloc, NodeList::from_vec(nodes), RankList::from_vec(ranks))?)
}

/// The goal of these positions with their signs, as far as they are in the table.
fn goal(alloc: Global, core: &Core, places: &[(bool, u32)]) -> Result<Goal, Fail>
    ensures { IfOk result (λ g. takes core.now.positions core.now.ranks g ≡ true) }
{
    let mut list = Vec::new(alloc);
    for (plus, place) in places {
        add_place(core, *plus, *place, &mut list)?;
    }
    if core.len() == 0 {
        return Err("no table")?;
    }
    match form(alloc, core, list.as_slice())? {
        Some(goal) => Ok(goal),
        None => Err("a clash")?,
    }
}

#[tactic(auto, using(crate::proofs::TestSets::in_table_more))]
fn add_place(core: &Core, plus: bool, place: u32, list: &mut Vec<Signed>) -> Result<(), Fail>
    requires { are_in_table core.now.positions (map signed_view list.old.items) ≡ true }
    ensures { OnOk result (are_in_table core.now.positions (map signed_view list.new.items) ≡ true) }
{
    if place < core.len() {
        list.push(Signed {
            pos: Pos(place),
            plus,
        })?;
    }
    Ok(())
}

fn expanded(alloc: Global, core: &Core, places: &[(bool, u32)]) -> Result<Expansion, Fail> {
    let goal = goal(alloc, core, places)?;
    Ok(CoreExpander::new(core).expand(alloc, &goal)?)
}

/// Kind, branch and shape of an alternative without members and fillers.
fn is_scalar(alternative: &Alternative, kind: JsonKind, number: u32, shape: Shape) -> bool {
    alternative.branch == BranchId { kind, number }
        && alternative.shape == shape
        && alternative.members.as_slice().is_empty()
        && alternative.need == 0
        && alternative.fillers.as_slice().is_empty()
}

#[test]
fn each_kind_alone(rt: HostRuntime) -> Result<(), Fail> {
    let core = table(rt.alloc())?;
    // The least multiple of 3 from 5 on.
    let numbers = expanded(rt.alloc(), &core, &[(true, 0), (true, 1), (true, 2)])?;
    let found = numbers.alternatives.as_slice();
    assert!(rt; matches!(found, [a] if is_scalar(a, JsonKind::Number, 0, Shape::Num(6))));
    // A truth value that isn't false.
    let truths = expanded(rt.alloc(), &core, &[(true, 3), (false, 4)])?;
    let found = truths.alternatives.as_slice();
    assert!(rt; matches!(found, [a] if is_scalar(a, JsonKind::Boolean, 0, Shape::Bool(true))));
    // Two choices of a string: of two letters, or one word.
    let texts = expanded(rt.alloc(), &core, &[(true, 5), (true, 14)])?;
    let found = texts.alternatives.as_slice();
    assert!(rt;
        matches!(found, [a, b] if is_scalar(a, JsonKind::Text, 0, Shape::Text)
        && is_scalar(b, JsonKind::Text, 1, Shape::Text))
    );
    // An array with an element that is a truth value.
    let arrays = expanded(rt.alloc(), &core, &[(true, 8), (true, 9)])?;
    assert!(rt; matches!(arrays.alternatives.as_slice(), [a] if has_one_element(a)));
    Ok(())
}

/// An array of one element, at index 0, which meets position 3 and nothing else.
fn has_one_element(alternative: &Alternative) -> bool {
    let [member] = alternative.members.as_slice() else {
        return false;
    };
    let [x] = member.goal.as_slice() else {
        return false;
    };
    alternative.shape == Shape::List
        && alternative.need == 0
        && member.slot == Slot::Index(0)
        && x.plus
        && x.pos == Pos(3)
}

/// What requires nothing has a document of each kind, in the order of kinds.
#[test]
fn all_kinds(rt: HostRuntime) -> Result<(), Fail> {
    let core = table(rt.alloc())?;
    let any = expanded(rt.alloc(), &core, &[])?;
    let shapes = [
        Shape::Null,
        Shape::Bool(false),
        Shape::Bool(true),
        Shape::Num(0),
        Shape::Text,
        Shape::List,
        Shape::Members,
    ];
    assert!(rt; shapes_are(&any, &shapes));
    assert!(rt; any.hole.is_none());
    // At numbers and at arrays a limit is passed: the first one is reported, and the rest is kept.
    let limits = expanded(rt.alloc(), &core, &[(true, 10), (true, 11), (true, 13)])?;
    let rest = [
        Shape::Null,
        Shape::Bool(false),
        Shape::Bool(true),
        Shape::Text,
        Shape::Members,
    ];
    assert!(rt; shapes_are(&limits, &rest));
    assert!(rt; limits.hole == Some(LimitKind::Multiples));
    // Two branches of numbers, each with the number that is found for it.
    let branches = expanded(rt.alloc(), &core, &[(true, 0), (true, 15)])?;
    let found = branches.alternatives.as_slice();
    assert!(rt;
        matches!(found, [a, b] if is_scalar(a, JsonKind::Number, 0, Shape::Num(5))
        && is_scalar(b, JsonKind::Number, 1, Shape::Num(-2)))
    );
    Ok(())
}

fn shapes_are(expansion: &Expansion, shapes: &[Shape]) -> bool {
    let found = expansion.alternatives.as_slice();
    found.len() == shapes.len()
        && found
            .iter()
            .zip(shapes)
            .all(|(alternative, shape)| alternative.shape == *shape)
}

/// The words of the text of that number among the alternatives.
fn text<E: Expander>(
    alloc: Global,
    expander: &E,
    goal: &Goal,
    index: usize,
) -> Result<StrList, Fail>
    requires { E.takes expander.now goal.now ≡ true }
{
    let expansion = expander.expand(alloc, goal)?;
    let alternatives = expansion.alternatives.as_slice();
    if index < alternatives.len()
        && let Shape::Text = alternatives[index].shape
    {
        let branch = alternatives[index].branch;
        return Ok(expander.words(alloc, goal, branch, 0, 1)?);
    }
    Err("no text")?
}

/// The first word in order of two letters, and the listed word, each by the number of its branch.
#[test]
fn words_of_branches(rt: HostRuntime) -> Result<(), Fail> {
    let core = table(rt.alloc())?;
    let texts = goal(rt.alloc(), &core, &[(true, 5), (true, 14)])?;
    let expander = CoreExpander::new(&core);
    let first = text(rt.alloc(), &expander, &texts, 0)?;
    assert!(rt; matches!(first.as_slice(), [word] if word.as_text() == "aa"));
    let second = text(rt.alloc(), &expander, &texts, 1)?;
    assert!(rt; matches!(second.as_slice(), [word] if word.as_text() == "b"));
    Ok(())
}
