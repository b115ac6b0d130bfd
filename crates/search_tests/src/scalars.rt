//! Number branches of one table, and the truth values of another. The numbers that are expected were worked out by a
//! script of its own from the rules of number groups.

ghost use Rattle.std.specs.Prelude.{◌≡◌, map, IfOk, OnOk, true};
ghost use Rattle.js_algebra.specs.View.{signed_view, are_in_table};

use js_algebra::{BranchId, Core, JsonKind, Node, NodeList, Pos, RankList, Signed, SignedList};
use js_doc::NumList;
use js_expansion::{Leaf, Shape};
use js_scalars::{NumberFault, null_alternatives, number_alternatives, truth_alternatives};
use js_tableau::Branch;
use std::alloc::Global;
use std::test::Fail;

fn list(alloc: Global, values: &[i128]) -> Result<NumList, Fail> {
    let mut items = Vec::new(alloc);
    for value in values {
        items.push(*value)?;
    }
    Ok(NumList::from_vec(items)?)
}

/// Bounds, divisors and lists. The divisors at 8 and 9 are the two greatest primes below 2^64.
fn table(alloc: Global) -> Result<Core, Fail> {
    let nodes = vec![in alloc;
        Node::NumMin(3),
        Node::NumMax(20),
        Node::Multiple(4),
        Node::Multiple(6),
        Node::NumIn(list(alloc, &[24, 12, 7])?),
        Node::NumIn(list(alloc, &[12, 13])?),
        Node::BoolIs(true),
        Node::NumMax(-5),
        Node::Multiple(18_446_744_073_709_551_557),
        Node::Multiple(18_446_744_073_709_551_533),
        Node::Multiple(8),
    ]?;
    let ranks = vec![in alloc; 0, 0, 0, 0, 0, 0, 0, 0, 0, 0, 0]?;
    let nodes = NodeList::from_vec(nodes);
    Ok(Core::make(alloc, nodes, RankList::from_vec(ranks))?)
}

/// Signed positions, by sign and place.
type Places = &'static [(bool, u32)];

/// A branch with those of the places that the table has.
fn branch(alloc: Global, core: &Core, kind: JsonKind, places: Places) -> Result<Branch, Fail>
    ensures { IfOk result (λ b. are_in_table core.now.positions b.set ≡ true) }
{
    let mut set = Vec::new(alloc);
    for (plus, place) in places {
        add_place(core, *plus, *place, &mut set)?;
    }
    Ok(Branch {
        id: BranchId { kind, number: 7 },
        set: SignedList::from_vec(set),
    })
}

#[tactic(auto, using(crate::proofs::TestSets::in_table_more))]
fn add_place(core: &Core, plus: bool, place: u32, set: &mut Vec<Signed>) -> Result<(), Fail>
    requires { are_in_table core.now.positions (map signed_view set.old.items) ≡ true }
    ensures { OnOk result (are_in_table core.now.positions (map signed_view set.new.items) ≡ true) }
{
    if place < core.len() {
        set.push(Signed {
            pos: Pos(place),
            plus,
        })?;
    }
    Ok(())
}

/// The numbers that a leaf's alternatives build, where they are of this branch.
fn numbers(alloc: Global, leaf: &Leaf) -> Result<Vec<i128>, Fail> {
    let mut found = Vec::new(alloc);
    for alternative in leaf.alternatives.as_slice() {
        if let Shape::Num(n) = alternative.shape
            && alternative.branch.number == 7
        {
            found.push(n)?;
        }
    }
    Ok(found)
}

/// A set, and the numbers of its alternatives.
const CASES: [(Places, &[i128]); 15] = [
    (&[], &[0]),
    (&[(true, 0), (true, 1), (true, 2)], &[4]),
    (&[(true, 0), (false, 1)], &[21]),
    (&[(false, 0), (true, 2)], &[0]),
    // Crossed bounds.
    (&[(true, 0), (true, 7)], &[]),
    // The first value of the first list, in its order.
    (&[(true, 4), (true, 5)], &[12]),
    (&[(true, 4), (false, 5)], &[24]),
    (&[(true, 1), (true, 4)], &[12]),
    (&[(true, 2), (true, 3)], &[0]),
    // What is ruled out strikes 0.
    (&[(true, 2), (false, 3)], &[4]),
    (&[(false, 2), (true, 3)], &[6]),
    // 4 divides each multiple of 8.
    (&[(false, 2), (true, 10)], &[]),
    (&[(true, 0), (true, 1), (true, 2), (true, 3)], &[12]),
    // Truth values aren't spoken of at numbers.
    (
        &[(true, 0), (true, 1), (false, 2), (false, 3), (true, 6)],
        &[3],
    ),
    (&[(false, 1), (false, 7)], &[21]),
];

#[test]
fn numbers_of_sets(rt: HostRuntime) -> Result<(), Fail> {
    let core = table(rt.alloc())?;
    for (places, expected) in CASES {
        let branch = branch(rt.alloc(), &core, JsonKind::Number, places)?;
        let leaf = number_alternatives(rt.alloc(), &core, &branch)?;
        assert!(rt; numbers(rt.alloc(), &leaf)?.as_slice() == expected);
    }
    let primes = branch(rt.alloc(), &core, JsonKind::Number, &[(true, 8), (true, 9)])?;
    let answer = number_alternatives(rt.alloc(), &core, &primes);
    assert!(rt; matches!(answer, Err(NumberFault::Multiples)));
    Ok(())
}

#[test]
fn truth_values_of_sets(rt: HostRuntime) -> Result<(), Fail> {
    let core = table(rt.alloc())?;
    let any = branch(rt.alloc(), &core, JsonKind::Boolean, &[(true, 0)])?;
    let both = truth_alternatives(rt.alloc(), &core, &any)?;
    let [first, second] = both.alternatives.as_slice() else {
        return Err("no two alternatives")?;
    };
    assert!(rt; first.shape == Shape::Bool(false) && second.shape == Shape::Bool(true));
    let not_true = branch(rt.alloc(), &core, JsonKind::Boolean, &[(false, 6)])?;
    let one = truth_alternatives(rt.alloc(), &core, &not_true)?;
    assert_eq!(rt; one.alternatives.as_slice().len(), 1);
    let null = null_alternatives(rt.alloc(), &any)?;
    assert_eq!(rt; null.alternatives.as_slice().len(), 1);
    Ok(())
}
