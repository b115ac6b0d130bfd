//! An expander that answers every goal alike, used through its trait.

ghost use Rattle.std.specs.Prelude.{◌≡◌, true, [], ◌∷◌, None, chars, codes, refl};
ghost use Rattle.documents.specs.Kind as K;
ghost use Rattle.alternatives.specs.Alternative as A;
ghost use Rattle.alternatives.specs.Expansion.{expansion_of};

use js_algebra::{BranchId, Core, Goal, JsonKind, Node, NodeList, Pos, RankList, Signed, form};
use js_doc::{Memory, Str, StrList};
use js_expansion::{
    Alternative, AlternativeList, Dead, Expander, Expansion, FillerList, Placed, PlacedList, Shape,
    Slot,
};
use std::alloc::Global;
use std::test::Fail;

/// Each goal requires an object with a member `a` that meets the same goal.
struct Nested;

impl Expander for Nested {
    ghost takes = { λ x g. true };

    ghost expansion = { λ x g. expansion_of (record {
      kind = K.Object;
      branch = 0;
      shape = A.Members;
      members = record { slot = A.Name 0 0; goal = g } ∷ [];
      need = 0;
      fillers = [];
    } ∷ []) None };

    ghost branches = { λ x g t. 1 };

    ghost cells = { λ x g t k. (chars (codes "a") ∷ []) ∷ [] };

    fn expand(&self, alloc: Global, goal: &Goal) -> Result<Expansion, Memory> {
        let member = Placed {
            slot: Slot::Name(0, 0),
            goal: goal.clone()?,
        };
        let alternative = Alternative {
            branch: BranchId {
                kind: JsonKind::Object,
                number: 0,
            },
            shape: Shape::Members,
            members: PlacedList::from_vec(vec![in alloc; member]?),
            need: 0,
            fillers: FillerList::from_vec(Vec::new(alloc)),
        };
        Ok(Expansion {
            alternatives: AlternativeList::from_vec(vec![in alloc; alternative]?),
            hole: None,
        })
    }

    #[tactic(auto, using(crate::proofs::OneWord::no_words, crate::proofs::OneWord::one_word))]
    fn words(
        &self,
        alloc: Global,
        _: &Goal,
        _: BranchId,
        cell: u32,
        count: u32,
    ) -> Result<StrList, Memory> {
        let _ = cell;
        let mut words = Vec::new(alloc);
        if count == 0 {
            return Ok(StrList::from_vec(words));
        }
        words.push(Str::from_text(alloc, "a")?)?;
        Ok(StrList::from_vec(words))
    }

    ghost named_taken = { λ x g h. refl };

    ghost of_branches = { λ x g h. refl };

    ghost words_named = { λ x g h. refl };

    ghost slots_fit = { λ x g h. refl };

    ghost slots_differ = { λ x g h. refl };

    ghost words_differ = { λ x g h. refl };
}

/// No goal is numbered.
struct Nothing;

impl Dead for Nothing {
    ghost number_of = { λ x g. None };

    fn number(&self, _: &Goal) -> Option<u32> {
        None
    }
}

fn places<E: Expander>(alloc: Global, expander: &E, goal: &Goal) -> Result<u128, Memory>
    requires { E.takes expander.now goal.now ≡ true }
{
    let expansion = expander.expand(alloc, goal)?;
    Ok(expansion.alternatives.places())
}

fn is_dead<D: Dead>(dead: &D, goal: &Goal) -> bool {
    dead.number(goal).is_some()
}

/// The goal of a true truth value.
fn goal(alloc: Global) -> Result<Goal, Fail> {
    let nodes = vec![in alloc; Node::BoolIs(true)]?;
    let ranks = vec![in alloc; 0]?;
    let nodes = NodeList::from_vec(nodes);
    let core = Core::make(alloc, nodes, RankList::from_vec(ranks))?;
    Ok(form(alloc, &core, &[Signed::plus(Pos(0))])?.ok_or("a clash")?)
}

#[test]
fn an_expander_through_its_trait(rt: HostRuntime) -> Result<(), Fail> {
    let goal = goal(rt.alloc())?;
    assert_eq!(rt; places(rt.alloc(), &Nested, &goal)?, 2);
    let expansion = Nested.expand(rt.alloc(), &goal)?;
    let alternative = &expansion.alternatives.as_slice()[0];
    assert!(rt; alternative.members.as_slice()[0].goal == goal);
    let branch = alternative.branch;
    let words = Nested.words(rt.alloc(), &goal, branch, 0, 1)?;
    assert_eq!(rt; words.as_slice()[0].as_text(), "a");
    Ok(())
}

#[test]
fn no_goal_is_dead(rt: HostRuntime) -> Result<(), Fail> {
    let goal = goal(rt.alloc())?;
    assert!(rt; !is_dead(&Nothing, &goal));
    Ok(())
}
