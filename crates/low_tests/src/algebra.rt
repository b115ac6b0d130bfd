//! Small tables, with the goals and choices that they give.

ghost use Rattle.std.specs.Prelude.{◌≡◌, ◌<◌, ◌+◌, ◌^◌, IfOk, length};

use indexmap::IndexSet;
use js_algebra::{
    Core, Goal, JsonKind, KindList, Node, NodeList, Pos, PosList, RankList, Signed, SignedSet,
    contains, form, rule_choices,
};
use js_doc::Str;
use std::alloc::Global;
use std::hash::{DefaultHasher, Hash, Hasher};
use std::test::Fail;

/// `{"not": {"type": "null"}}`.
fn table(alloc: Global) -> Result<Core, Fail>
    ensures { IfOk result (λ core. length core.positions ≡ 2) }
{
    let kinds = KindList::from_vec(vec![in alloc; JsonKind::Null]?);
    let nodes = vec![in alloc; Node::Not(Pos(1)), Node::Types(kinds)]?;
    let ranks = vec![in alloc; 1, 0]?;
    let nodes = NodeList::from_vec(nodes);
    Ok(Core::make(alloc, nodes, RankList::from_vec(ranks))?)
}

#[test]
fn goals_of_a_table(rt: HostRuntime) -> Result<(), Fail> {
    let core = table(rt.alloc())?;
    let list = [Signed::plus(Pos(0)), Signed::minus(Pos(1))];
    let goal = form(rt.alloc(), &core, &list)?.ok_or("a clash")?;
    assert_eq!(rt; goal.as_slice(), [Signed::minus(Pos(1))].as_slice());
    assert!(rt; contains(&goal, &goal));
    Ok(())
}

#[test]
fn choices_of_a_table(rt: HostRuntime) -> Result<(), Fail> {
    let core = table(rt.alloc())?;
    let x = Signed::minus(Pos(0));
    let choices = rule_choices(rt.alloc(), &core, x, JsonKind::Null)?.ok_or("a literal")?;
    assert_eq!(rt; choices.as_slice().len(), 1);
    assert!(rt; core.is_wrong(Signed::minus(Pos(1)), JsonKind::Null));
    Ok(())
}

/// `{"oneOf": [{"minimum": 1}, {"required": ["a"]}, {"minItems": 1}], "dependencies": {"a": {"minItems": 1}}}`, in
/// part, and a reference to the first.
fn wide_table(alloc: Global) -> Result<Core, Fail>
    ensures { IfOk result (λ core. length core.positions ≡ 6) }
{
    let one_of = PosList::from_vec(vec![in alloc; Pos(1), Pos(3), Pos(4)]?);
    let name = Str::from_text(alloc, "a")?;
    let mut nodes = Vec::new(alloc);
    nodes.push(Node::Same(Pos(1)))?;
    nodes.push(Node::NumMin(1))?;
    nodes.push(Node::One(one_of))?;
    nodes.push(Node::Has(name))?;
    nodes.push(Node::CountMin(1))?;
    nodes.push(Node::Depends(Pos(3), Pos(4)))?;
    let ranks = vec![in alloc; 1, 0, 1, 0, 0, 1]?;
    let nodes = NodeList::from_vec(nodes);
    Ok(Core::make(alloc, nodes, RankList::from_vec(ranks))?)
}

#[test]
fn references_are_followed(rt: HostRuntime) -> Result<(), Fail> {
    let core = wide_table(rt.alloc())?;
    let goal = form(rt.alloc(), &core, &[Signed::minus(Pos(0))])?.ok_or("a clash")?;
    assert_eq!(rt; goal.as_slice(), [Signed::minus(Pos(1))].as_slice());
    Ok(())
}

/// At least one character, and then so many positions, each the opposite of the one before it.
fn chain(alloc: Global, links: u32) -> Result<Core, Fail>
    requires { links < 2 ^ 20 }
    ensures { IfOk result (λ core. length core.positions ≡ links + 1) }
{
    let mut nodes = vec![in alloc; Node::LengthMin(1)]?;
    let mut ranks = vec![in alloc; 0]?;
    for k in 0..links {
        nodes.push(Node::Not(Pos(k)))?;
        ranks.push(u64::from(k) + 1)?;
    }
    let nodes = NodeList::from_vec(nodes);
    Ok(Core::make(alloc, nodes, RankList::from_vec(ranks))?)
}

/// Followed at each forming, the references would take fifty million steps.
#[test]
fn a_long_chain_is_followed_once(rt: HostRuntime) -> Result<(), Fail> {
    let core = chain(rt.alloc(), 10_000)?;
    for p in 0..10_000 {
        let goal = form(rt.alloc(), &core, &[Signed::plus(Pos(p))])?.ok_or("a clash")?;
        let end = Signed {
            pos: Pos(0),
            plus: p % 2 == 0,
        };
        assert!(rt; goal.as_slice() == [end].as_slice());
    }
    Ok(())
}

#[test]
fn one_of_three(rt: HostRuntime) -> Result<(), Fail> {
    let core = wide_table(rt.alloc())?;
    let one = rule_choices(rt.alloc(), &core, Signed::plus(Pos(2)), JsonKind::Number)?.ok_or(
        "a literal",
    )?;
    assert_eq!(rt; one.as_slice().len(), 3);
    let second = [
        Signed::minus(Pos(1)),
        Signed::plus(Pos(3)),
        Signed::minus(Pos(4)),
    ];
    assert_eq!(rt; one.as_slice()[1].as_slice(), second.as_slice());
    Ok(())
}

#[test]
fn not_one_of_three(rt: HostRuntime) -> Result<(), Fail> {
    let core = wide_table(rt.alloc())?;
    let not_one = rule_choices(rt.alloc(), &core, Signed::minus(Pos(2)), JsonKind::Number)?.ok_or(
        "a literal",
    )?;
    assert_eq!(rt; not_one.as_slice().len(), 4);
    let pair = [Signed::plus(Pos(1)), Signed::plus(Pos(4))];
    assert_eq!(rt; not_one.as_slice()[2].as_slice(), pair.as_slice());
    Ok(())
}

#[test]
fn dependencies_speak_of_objects(rt: HostRuntime) -> Result<(), Fail> {
    let core = wide_table(rt.alloc())?;
    let x = Signed::minus(Pos(5));
    let object = rule_choices(rt.alloc(), &core, x, JsonKind::Object)?.ok_or("a literal")?;
    assert_eq!(rt; object.as_slice().len(), 1);
    let elsewhere = rule_choices(rt.alloc(), &core, x, JsonKind::Number)?.ok_or("a literal")?;
    assert_eq!(rt; elsewhere.as_slice().len(), 0);
    Ok(())
}

#[test]
fn typed_literals_are_wrong_elsewhere(rt: HostRuntime) -> Result<(), Fail> {
    let core = wide_table(rt.alloc())?;
    assert!(rt; core.is_wrong(Signed::minus(Pos(3)), JsonKind::Number));
    assert!(rt; !core.is_wrong(Signed::plus(Pos(3)), JsonKind::Number));
    Ok(())
}

fn hash_of<T: Hash>(x: &T) -> u64 {
    let mut state = DefaultHasher::new();
    x.hash(&mut state);
    state.finish()
}

fn same_key<T: Hash + Eq>(a: &T, b: &T) -> bool {
    a == b && hash_of(a) == hash_of(b)
}

fn shared<T: Send + Sync>(x: &T) -> &T {
    x
}

/// Threads may send and share tables.
#[test]
fn tables_cross_threads(rt: HostRuntime) -> Result<(), Fail> {
    let core = table(rt.alloc())?;
    assert_eq!(rt; shared(&core).len(), 2);
    Ok(())
}

#[test]
fn goals_are_keys(rt: HostRuntime) -> Result<(), Fail> {
    let core = wide_table(rt.alloc())?;
    let plus = form(rt.alloc(), &core, &[Signed::plus(Pos(0))])?.ok_or("a clash")?;
    let minus = form(rt.alloc(), &core, &[Signed::minus(Pos(1))])?.ok_or("a clash")?;
    let followed: Goal = shared(&plus).clone()?;
    assert!(rt; same_key(&plus, &followed));
    assert!(rt; !same_key(&plus, &minus));
    Ok(())
}

#[test]
fn goals_have_numbers(rt: HostRuntime) -> Result<(), Fail> {
    let core = wide_table(rt.alloc())?;
    let plus = form(rt.alloc(), &core, &[Signed::plus(Pos(0))])?.ok_or("a clash")?;
    let same = form(rt.alloc(), &core, &[Signed::plus(Pos(1))])?.ok_or("a clash")?;
    let minus = form(rt.alloc(), &core, &[Signed::minus(Pos(1))])?.ok_or("a clash")?;
    let mut goals: IndexSet<Goal> = IndexSet::new(rt.alloc());
    assert_eq!(rt; goals.insert_full(plus)?, (0, true));
    assert_eq!(rt; goals.insert_full(minus)?, (1, true));
    assert_eq!(rt; goals.insert_full(same)?, (0, false));
    Ok(())
}

#[test]
fn kinds_have_words(rt: HostRuntime) -> Result<(), Fail> {
    let mut words = String::new(rt.alloc());
    for kind in JsonKind::ALL {
        words.push_str(kind.as_word())?;
        words.push(' ')?;
    }
    assert_eq!(rt; words.as_str(), "null boolean number string array object ");
    Ok(())
}

#[test]
fn a_set_grows_and_goes_back(rt: HostRuntime) -> Result<(), Fail> {
    let list = [
        Signed::minus(Pos(4)),
        Signed::plus(Pos(4)),
        Signed::plus(Pos(1)),
    ];
    let mut set = SignedSet::new(rt.alloc());
    set.add_all(&list)?;
    set.add(list[0])?;
    assert_eq!(rt; set.len(), 3);
    let rising = [list[2], list[1], list[0]];
    assert_eq!(rt; set.to_list(rt.alloc())?.as_slice(), rising.as_slice());
    set.go_back(1);
    assert!(rt; set.has(list[0]) && !set.has(list[1]) && !set.has(list[2]));
    Ok(())
}
