//! Positions of small tables at names, by truths that are all the same, and of chains that name each position twice;
//! the branches and steps of another table.

ghost use Rattle.std.specs.Prelude.{◌≡◌, ◌+◌, ◌<◌, ◌^◌, IfOk, length};

use js_algebra::{
    BranchId, Core, JsonKind, KindList, Node, NodeList, Pos, PosList, RankList, Signed, form,
};
use js_doc::StrList;
use js_pattern::Re;
use js_tableau::{BranchWalk, NamePlan, TableauStep, Truths, branches, name_truth, next_step};
use std::alloc::Global;
use std::test::Fail;

/// Each atom has this truth.
#[derive(Clone, Copy)]
struct Constant {
    truth: bool,
}

impl Truths for Constant {
    ghost use Rattle.std.specs.Prelude.{true};

    ghost knows = { λ s a. true };

    ghost truth = { λ s a. s.truth };

    fn matches(&self, _re: &Re) -> bool {
        self.truth
    }

    fn listed(&self, _words: &StrList) -> bool {
        self.truth
    }

    fn long(&self, _n: u128) -> bool {
        self.truth
    }
}

/// A negation, a length, exactly one of both, and the second where the first holds of an object.
fn table(alloc: Global) -> Result<Core, Fail>
    ensures { IfOk result (λ core. length core.positions ≡ 4) }
{
    let one = PosList::from_vec(vec![in alloc; Pos(0), Pos(1)]?);
    let nodes = vec![in alloc;
        Node::Not(Pos(1)),
        Node::LengthMax(2),
        Node::One(one),
        Node::Depends(Pos(0), Pos(1)),
    ]?;
    let ranks = vec![in alloc; 1, 0, 2, 2]?;
    let nodes = NodeList::from_vec(nodes);
    Ok(Core::make(alloc, nodes, RankList::from_vec(ranks))?)
}

#[test]
#[tactic(auto, using(name_laws::proofs::KnownLaws::all_are_known))]
fn names_of_a_table(rt: HostRuntime) -> Result<(), Fail> {
    let core = table(rt.alloc())?;
    for truth in [true, false] {
        let truths = Constant { truth };
        assert!(rt; name_truth(&core, Pos(0), &truths) == truth);
        assert!(rt; name_truth(&core, Pos(1), &truths) != truth);
        assert!(rt; name_truth(&core, Pos(2), &truths));
        assert!(rt; name_truth(&core, Pos(3), &truths));
    }
    Ok(())
}

/// Whether the position holds of a name, where each atom has this truth.
fn told(alloc: Global, core: &Core, p: Pos, truth: bool) -> Result<bool, Fail>
    requires { p.0 < length core.now.positions }
{
    let plan = NamePlan::new(alloc, core, p)?;
    let truths = vec![in alloc; truth; plan.leaves().len()]?;
    let mut room = vec![in alloc; false; core.len() as usize]?;
    Ok(plan.truth(core, truths.as_slice(), room.as_mut_slice()))
}

#[test]
fn plans_of_a_table(rt: HostRuntime) -> Result<(), Fail> {
    let core = table(rt.alloc())?;
    for truth in [true, false] {
        assert!(rt; told(rt.alloc(), &core, Pos(0), truth)? == truth);
        assert!(rt; told(rt.alloc(), &core, Pos(1), truth)? != truth);
        assert!(rt; told(rt.alloc(), &core, Pos(2), truth)?);
        assert!(rt; told(rt.alloc(), &core, Pos(3), truth)?);
    }
    let plan = NamePlan::new(rt.alloc(), &core, Pos(2))?;
    assert!(rt; plan.root() == Pos(2));
    assert!(rt; plan.leaves() == [Pos(1)].as_slice());
    Ok(())
}

/// At least one character, and then so many positions, each of which names the one before it twice.
fn chain(alloc: Global, links: u32) -> Result<Core, Fail>
    requires { links < 2 ^ 20 }
    ensures { IfOk result (λ core. length core.positions ≡ links + 1) }
{
    let mut nodes = vec![in alloc; Node::LengthMin(1)]?;
    let mut ranks = vec![in alloc; 0]?;
    for k in 0..links {
        let twice = PosList::from_vec(vec![in alloc; Pos(k), Pos(k)]?);
        nodes.push(Node::All(twice))?;
        ranks.push(u64::from(k) + 1)?;
    }
    let nodes = NodeList::from_vec(nodes);
    Ok(Core::make(alloc, nodes, RankList::from_vec(ranks))?)
}

/// Entered once for each way to it, the shorter one would take a thousand million visits, and the longer one has no
/// end.
#[test]
fn plans_of_chains(rt: HostRuntime) -> Result<(), Fail> {
    for links in [30, 10_000] {
        let core = chain(rt.alloc(), links)?;
        for truth in [true, false] {
            assert!(rt; told(rt.alloc(), &core, Pos(links), truth)? == truth);
        }
        let plan = NamePlan::new(rt.alloc(), &core, Pos(links))?;
        assert!(rt; plan.leaves() == [Pos(0)].as_slice());
    }
    Ok(())
}

/// `{"anyOf": [{"type": "null"}, {"type": ["null", "array"]}]}`.
fn choice(alloc: Global) -> Result<Core, Fail>
    ensures { IfOk result (λ core. length core.positions ≡ 3) }
{
    let any = PosList::from_vec(vec![in alloc; Pos(1), Pos(2)]?);
    let null = KindList::from_vec(vec![in alloc; JsonKind::Null]?);
    let both = KindList::from_vec(vec![in alloc; JsonKind::Null, JsonKind::Array]?);
    let nodes = vec![in alloc; Node::Any(any), Node::Types(null), Node::Types(both)]?;
    let ranks = vec![in alloc; 1, 0, 0]?;
    let nodes = NodeList::from_vec(nodes);
    Ok(Core::make(alloc, nodes, RankList::from_vec(ranks))?)
}

#[test]
fn branches_of_a_table(rt: HostRuntime) -> Result<(), Fail> {
    let core = choice(rt.alloc())?;
    let goal = form(rt.alloc(), &core, &[Signed::plus(Pos(0))])?.ok_or("a clash")?;
    let null = branches(rt.alloc(), &core, &goal, JsonKind::Null)?;
    let second = BranchId {
        kind: JsonKind::Null,
        number: 1,
    };
    assert!(rt; matches!(null.as_slice(), [_, b] if b.id == second));
    let array = branches(rt.alloc(), &core, &goal, JsonKind::Array)?;
    let set = [Signed::plus(Pos(0)), Signed::plus(Pos(2))];
    assert!(rt; matches!(array.as_slice(), [b] if b.set.as_slice() == set.as_slice()));
    let number = branches(rt.alloc(), &core, &goal, JsonKind::Number)?;
    assert!(rt; number.as_slice().is_empty());
    let mut walk = BranchWalk::new(rt.alloc(), &core, &goal, JsonKind::Array)?;
    let first = walk.next(rt.alloc(), &core)?;
    assert!(rt; matches!(&first, Some(s) if s.as_slice() == set.as_slice()));
    assert!(rt; walk.next(rt.alloc(), &core)?.is_none());
    Ok(())
}

#[test]
fn steps_of_a_table(rt: HostRuntime) -> Result<(), Fail> {
    let core = choice(rt.alloc())?;
    let set = [Signed::plus(Pos(0)), Signed::plus(Pos(1))];
    let first = next_step(rt.alloc(), &core, &set[..1], JsonKind::Array)?;
    assert!(rt; matches!(&first, TableauStep::Rule(_, choices) if choices.as_slice().len() == 2));
    let array = next_step(rt.alloc(), &core, &set, JsonKind::Array)?;
    assert!(rt; matches!(&array, TableauStep::Kind(x) if *x == set[1]));
    let null = next_step(rt.alloc(), &core, &set, JsonKind::Null)?;
    assert!(rt; matches!(&null, TableauStep::Saturated));
    Ok(())
}
