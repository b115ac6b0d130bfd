//! The alternatives of a number branch.

ghost use Rattle.std.specs.Prelude.{◌≡◌, [], ◌∷◌, map, true, IfOk};
ghost use Rattle.documents.specs.Kind as K;
ghost use Rattle.alternatives.specs.Alternative as A;
ghost use Rattle.expansions.specs.Leaves as L;
ghost use Rattle.expansions.specs.Leaves.{scalar_leaf};
ghost use Rattle.number_finder.specs.SetGroup.{number_group};
ghost use Rattle.number_finder.specs.NumbersOf.{numbers_of};
ghost use Rattle.js_algebra.specs.View.{signed_view, are_in_table};
ghost use Rattle.js_scalars.specs.SoFar.{group_so_far};
ghost use Rattle.js_scalars.specs.Answers.{Answers, IsFoundAt, IsNoneAt};

use crate::asked::Asked;
use crate::fault::NumberFault;
use crate::scalar::scalar;
use js_algebra::{Core, JsonKind, Signed};
use js_doc::Memory;
use js_expansion::{AlternativeList, Leaf, Shape};
use js_numbers::{Cases, decide};
use js_tableau::Branch;
use std::alloc::Global;

/// The alternative of the number that is found for the branch's set, none where no number meets it, or the limit that
/// was passed. It takes memory for the divisors and lists of the set, and the time of `js_numbers::decide`.
pub fn number_alternatives(alloc: Global, core: &Core, branch: &Branch) -> Result<Leaf, NumberFault>
    requires { are_in_table core.now.positions branch.now.set ≡ true }
    ensures answer { Answers (scalar_leaf K.Number A.Number branch.now.id.number
        (numbers_of core.now.positions branch.now.set)) result }

    // Where the set is saturated, the number of the alternative meets it, and without an alternative no number does.
    ensures found { IfOk result (λ l. IsFoundAt core.now.positions branch.now.set branch.now.id.number l.alternatives) }
    ensures none { IfOk result (λ l. IsNoneAt core.now.positions branch.now.set l.alternatives) }
{
    // The length comes with the fact that the positions are those of a table, on which the meaning rests.
    let _length = core.len();
    decided(alloc, core, branch)
}

/// The answer alone; what it means follows in `number_alternatives`.
fn decided(alloc: Global, core: &Core, branch: &Branch) -> Result<Leaf, NumberFault>
    requires { are_in_table core.now.positions branch.now.set ≡ true }
    ensures { Answers (scalar_leaf K.Number A.Number branch.now.id.number
        (numbers_of core.now.positions branch.now.set)) result }
{
    // The length comes with the fact that the numbers of positions have their ranges.
    let _length = core.len();
    let asked = read_set(alloc, core, branch.set.as_slice())?;
    match decide(&asked.group()) {
        Cases::Found(n) => Ok(one_number(alloc, branch.id.number, n)?),
        Cases::Empty => Ok(Leaf {
            alternatives: AlternativeList::from_vec(Vec::new(alloc)),
        }),
        Cases::LimitMultiples => Err(NumberFault::Multiples),
        Cases::LimitCandidates => Err(NumberFault::Candidates),
    }
}

/// What the set requires of whole numbers.
fn read_set<'a>(alloc: Global, core: &'a Core, set: &[Signed]) -> Result<Asked<'a>, Memory>
    requires { are_in_table core.now.positions (map signed_view set.now) ≡ true }
    ensures { IfOk result (λ a. group_so_far a ≡ number_group core.now.positions (map signed_view set.now)) }
{
    let mut asked = Asked::new(alloc);
    for x in set {
        asked.add(core.node(x.pos), x.plus)?;
    }
    Ok(asked)
}

/// The alternative of one number.
fn one_number(alloc: Global, branch: u32, n: i128) -> Result<Leaf, Memory>
    ensures { IfOk result (λ l. l.alternatives ≡ L.scalar K.Number branch (A.Number n) ∷ []) }
{
    let mut alternatives = Vec::new(alloc);
    alternatives.push(scalar(alloc, JsonKind::Number, branch, Shape::Num(n)))?;
    Ok(Leaf {
        alternatives: AlternativeList::from_vec(alternatives),
    })
}
