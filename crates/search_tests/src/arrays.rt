//! Branches over one table: first elements and what one element has to be, counts that cross or are too large, and many
//! elements that are required.

ghost use Rattle.std.specs.Prelude.{◌≡◌, ◌<◌, ◌≤◌, IfOk, length, nat_lt, true};
ghost use Rattle.documents.specs.Tests.{every};

use js_algebra::{
    BranchId, Core, JsonKind, KindList, Node, NodeList, Pos, PosList, RankList, Signed, SignedList,
};
use js_arrays::{ArrayFault, array_alternatives};
use js_doc::Memory;
use js_expansion::{Alternative, Leaf, Slot};
use js_tableau::Branch;
use std::alloc::Global;
use std::test::Fail;

/// So many times the position of strings.
fn strings(alloc: Global, count: u32) -> Result<Vec<Pos>, Memory>
    ensures { IfOk result (λ v. every (λ p. nat_lt p.0 14) v.items ≡ true) }
{
    let mut first = Vec::new(alloc);
    for _ in 0..count {
        first.push(Pos(1))?;
    }
    Ok(first)
}

/// Null, a string and their opposites; so many first strings; what one element has to be; and counts.
fn table(alloc: Global, first: Vec<Pos>) -> Result<Core, Fail>
    requires { every (λ p. nat_lt p.0 14) first.items ≡ true }
    ensures { IfOk result (λ core. length core.positions ≡ 14) }
{
    let null = KindList::from_vec(vec![in alloc; JsonKind::Null]?);
    let text = KindList::from_vec(vec![in alloc; JsonKind::Text]?);
    let nodes = vec![in alloc;
        Node::Types(null),
        Node::Types(text),
        Node::True,
        Node::Items(PosList::from_vec(first), Pos(2)),
        Node::Contains(Pos(0)),
        Node::Contains(Pos(1)),
        Node::Not(Pos(0)),
        Node::Contains(Pos(6)),
        Node::CountMax(1),
        Node::CountMax(2),
        Node::CountMax(3),
        Node::CountMin(1_023),
        Node::CountMin(65_536),
        Node::CountMin(65_537),
    ]?;
    let ranks = vec![in alloc; 0, 0, 0, 0, 0, 0, 1, 0, 0, 0, 0, 0, 0, 0]?;
    Ok(Core::make(alloc, NodeList::from_vec(nodes), RankList::from_vec(ranks))?)
}

/// The answer for the branch of these positions, as far as they are in the table.
fn answer(alloc: Global, core: &Core, set: &[u32]) -> Result<Result<Leaf, ArrayFault>, Fail> {
    let mut items = Vec::new(alloc);
    for p in set {
        if *p < core.len() {
            items.push(Signed::plus(Pos(*p)))?;
        }
    }
    let branch = Branch {
        id: BranchId {
            kind: JsonKind::Array,
            number: 3,
        },
        set: SignedList::from_vec(items),
    };
    Ok(array_alternatives(alloc, core, &branch))
}

/// For each alternative: how many members it has, the positions of each of them, and the need, the room and the slot of
/// its fillers.
fn numbers(alloc: Global, alternatives: &[Alternative]) -> Result<Vec<u32>, Memory> {
    let mut all = Vec::new(alloc);
    for alternative in alternatives {
        all.push(1_000_000)?;
        for member in alternative.members.as_slice() {
            all.push(slot(member.slot))?;
            for x in member.goal.as_slice() {
                all.push(if x.plus { x.pos.0 } else { 100 })?;
            }
        }
        all.push(alternative.need)?;
        for filler in alternative.fillers.as_slice() {
            all.push(slot(filler.slot))?;
            all.push(filler.room)?;
        }
    }
    Ok(all)
}

/// An index as a number from 1,000 on, so that it isn't taken for a position.
fn slot(slot: Slot) -> u32 {
    match slot {
        Slot::Index(i) if i < 1_000 => 1_000 + i,
        _ => 0,
    }
}

struct Case {
    set: &'static [u32],
    numbers: &'static [u32],
}

const CASES: [Case; 7] = [
    // A string first, one null, and one element at most: it has to be both.
    Case {
        set: &[3, 4, 8],
        numbers: &[1_000_000, 1_000, 0, 1, 0],
    },
    // With two elements the null may come after the string.
    Case {
        set: &[3, 4, 9],
        numbers: &[1_000_000, 1_000, 0, 1, 0, 1_000_000, 1_000, 1, 1_001, 0, 0],
    },
    // A null and a string, by one element or by two.
    Case {
        set: &[4, 5],
        numbers: &[1_000_000, 1_000, 0, 1, 0, 1_000_000, 1_000, 0, 1_001, 1, 0],
    },
    // A null and something else: not by one element.
    Case {
        set: &[4, 7],
        numbers: &[1_000_000, 1_000, 0, 1_001, 100, 0],
    },
    // Fillers of any kind.
    Case {
        set: &[12],
        numbers: &[1_000_000, 65_536, 1_000, 65_537],
    },
    // Bounds that cross, of which the lower one is too large.
    Case {
        set: &[10, 13],
        numbers: &[],
    },
    Case {
        set: &[],
        numbers: &[1_000_000, 0],
    },
];

#[test]
fn branches(rt: HostRuntime) -> Result<(), Fail> {
    let first = strings(rt.alloc(), 1)?;
    let core = table(rt.alloc(), first)?;
    for case in &CASES {
        let leaf = answer(rt.alloc(), &core, case.set)?.ok().ok_or("a limit")?;
        let told = numbers(rt.alloc(), leaf.alternatives.as_slice())?;
        assert!(rt; told.as_slice() == case.numbers);
    }
    let counts = answer(rt.alloc(), &core, &[13])?;
    assert!(rt; matches!(counts, Err(ArrayFault::LimitCounts)));
    Ok(())
}

/// Each of the first elements has its place.
#[test]
fn many_first_elements(rt: HostRuntime) -> Result<(), Fail> {
    let first = strings(rt.alloc(), 1_023)?;
    let core = table(rt.alloc(), first)?;
    let leaf = answer(rt.alloc(), &core, &[3, 11])?.ok().ok_or("a limit")?;
    let alternatives = leaf.alternatives.as_slice();
    assert!(rt; matches!(alternatives, [a] if a.members.as_slice().len() == 1_023 && a.need == 0));
    Ok(())
}

/// Sixteen demands are served by one element or by up to sixteen, in more ways than may be listed.
#[test]
fn many_demands(rt: HostRuntime) -> Result<(), Fail> {
    let first = strings(rt.alloc(), 0)?;
    let core = table(rt.alloc(), first)?;
    let same = [4, 4, 4, 4, 4, 4, 4, 4, 4, 4, 4, 4, 4, 4, 4, 4];
    let plans = answer(rt.alloc(), &core, &same)?;
    assert!(rt; matches!(plans, Err(ArrayFault::LimitPlans)));
    Ok(())
}
