//! Rounds and parts of a small search, worked by hand.

ghost use Rattle.std.specs.Prelude.{◌≡◌, [], ◌∷◌, map, true, false, None, IfOk};
ghost use Rattle.documents.specs.Kind as K;
ghost use Rattle.alternatives.specs.Alternative as A;
ghost use Rattle.alternatives.specs.Expansion.{expansion_of};
ghost use Rattle.js_algebra.specs.Equality.{same_goal};
ghost use Rattle.js_algebra.specs.View.{kind_view};
ghost use Rattle.js_expansion.specs.View.{placed_view, filler_view, shape_view, slot_view};
ghost use Rattle.js_expansion.specs.AlternativeView.{alternative_view};
ghost use Rattle.js_expansion.specs.ExpansionView.{expansion_view};
ghost use Rattle.search_tests.specs.Small.{cells, at, one_of, alternative, small, takes_named, in_branches, words_found, fitting_slots, different_slots, different_words};

use js_algebra::{BranchId, Core, Goal, JsonKind, Node, NodeList, Pos, RankList, Signed, form};
use js_doc::{Memory, Part, Str, StrList};
use js_expansion::{
    Alternative, AlternativeList, Expander, Expansion, Filler, FillerList, Placed, PlacedList,
    Shape, Slot,
};
use js_explore::explore;
use js_par::{OpenGate, Workers};
use js_rounds::Rounds;
use std::alloc::Global;
use std::test::Fail;

/// Four goals: of the second no round has any, and the third is used twice by the fourth.
#[derive(Drop)]
struct Small {
    root: Goal,
    second: Goal,
    third: Goal,
    fourth: Goal,
}

fn only(
    kind: JsonKind,
    shape: Shape,
    members: Vec<Placed>,
    need: u32,
    fillers: Vec<Filler>,
) -> Alternative
    ensures { alternative_view result ≡ alternative (kind_view kind) (shape_view shape)
        (map placed_view members.items) need (map filler_view fillers.items) }
{
    Alternative {
        branch: BranchId { kind, number: 0 },
        shape,
        members: PlacedList::from_vec(members),
        need,
        fillers: FillerList::from_vec(fillers),
    }
}

fn placed(slot: Slot, goal: &Goal) -> Result<Placed, Memory>
    ensures { IfOk result (λ p. placed_view p ≡ record { slot = slot_view slot; goal = goal.now }) }
{
    Ok(Placed {
        slot,
        goal: goal.clone()?,
    })
}

/// One document of a goal, at a slot.
fn filler(slot: Slot, goal: &Goal) -> Result<Filler, Memory>
    ensures { IfOk result (λ f. filler_view f ≡ one_of (slot_view slot) goal.now) }
{
    Ok(Filler {
        goal: goal.clone()?,
        room: 1,
        slot,
    })
}

/// An array of one goal, or of one goal twice.
fn array(alloc: Global, goal: &Goal, twice: bool) -> Result<Alternative, Memory>
    ensures once { twice ≡ false → IfOk result (λ a. alternative_view a
        ≡ alternative K.Array A.Elements (at (A.Index 0) goal.now ∷ []) 0 []) }
    ensures twice { twice ≡ true → IfOk result (λ a. alternative_view a
        ≡ alternative K.Array A.Elements (at (A.Index 0) goal.now ∷ at (A.Index 1) goal.now ∷ []) 0 []) }
{
    let first = placed(Slot::Index(0), goal)?;
    let fillers = Vec::new(alloc);
    if twice {
        let members = vec![in alloc; first, placed(Slot::Index(1), goal)?]?;
        return Ok(only(JsonKind::Array, Shape::List, members, 0, fillers));
    }
    let members = vec![in alloc; first]?;
    Ok(only(JsonKind::Array, Shape::List, members, 0, fillers))
}

fn expansion(alternatives: Vec<Alternative>) -> Expansion
    ensures { expansion_view result ≡ expansion_of (map alternative_view alternatives.items) None }
{
    Expansion {
        alternatives: AlternativeList::from_vec(alternatives),
        hole: None,
    }
}

impl Small {
    /// An array of the second goal; or an object of the third and the fourth, and of one more.
    fn of_root(&self, alloc: Global) -> Result<Expansion, Memory>
        ensures { IfOk result (λ e. expansion_view e
            ≡ small true true true self.now.root self.now.second self.now.third self.now.fourth) }
    {
        let members = vec![in alloc;
            placed(Slot::Name(1, 0), &self.third)?,
            placed(Slot::Name(0, 0), &self.fourth)?,
        ]?;
        let fillers = vec![in alloc;
            filler(Slot::Name(0, 1), &self.second)?,
            filler(Slot::Name(0, 2), &self.third)?,
        ]?;
        let object = only(JsonKind::Object, Shape::Members, members, 1, fillers);
        let array = array(alloc, &self.second, false)?;
        Ok(expansion(vec![in alloc; array, object]?))
    }

    fn of_second(&self, alloc: Global) -> Result<Expansion, Memory>
        ensures { IfOk result (λ e. expansion_view e
            ≡ small false true true self.now.root self.now.second self.now.third self.now.fourth) }
    {
        Ok(expansion(vec![in alloc; array(alloc, &self.second, false)?]?))
    }

    fn of_third(&self, alloc: Global) -> Result<Expansion, Memory>
        ensures { IfOk result (λ e. expansion_view e
            ≡ small false false true self.now.root self.now.second self.now.third self.now.fourth) }
    {
        let null = only(
            JsonKind::Null,
            Shape::Null,
            Vec::new(alloc),
            0,
            Vec::new(alloc),
        );
        Ok(expansion(vec![in alloc; null]?))
    }

    fn of_fourth(&self, alloc: Global) -> Result<Expansion, Memory>
        ensures { IfOk result (λ e. expansion_view e
            ≡ small false false false self.now.root self.now.second self.now.third self.now.fourth) }
    {
        Ok(expansion(vec![in alloc; array(alloc, &self.third, true)?]?))
    }
}

impl Expander for Small {
    ghost takes = { λ x g. true };

    ghost expansion = { λ x g. small (same_goal g x.root) (same_goal g x.second) (same_goal g x.third)
        x.root x.second x.third x.fourth };

    ghost branches = { λ x g t. 1 };

    ghost cells = { λ x g t k. cells };

    fn expand(&self, alloc: Global, goal: &Goal) -> Result<Expansion, Memory> {
        if *goal == self.root {
            return self.of_root(alloc);
        }
        if *goal == self.second {
            return self.of_second(alloc);
        }
        if *goal == self.third {
            return self.of_third(alloc);
        }
        self.of_fourth(alloc)
    }

    fn words(
        &self,
        alloc: Global,
        _: &Goal,
        _: BranchId,
        cell: u32,
        count: u32,
    ) -> Result<StrList, Memory> {
        let mut words = Vec::new(alloc);
        if count == 0 {
            return Ok(StrList::from_vec(words));
        }
        if cell == 1 {
            words.push(Str::from_text(alloc, "a")?)?;
            return Ok(StrList::from_vec(words));
        }
        words.push(Str::from_text(alloc, "b")?)?;
        if count == 1 {
            return Ok(StrList::from_vec(words));
        }
        words.push(Str::from_text(alloc, "c")?)?;
        if count == 2 {
            return Ok(StrList::from_vec(words));
        }
        words.push(Str::from_text(alloc, "d")?)?;
        Ok(StrList::from_vec(words))
    }

    ghost named_taken = { λ x g h. takes_named x.root x.second x.third x.fourth
        (same_goal g x.root) (same_goal g x.second) (same_goal g x.third) };

    ghost of_branches = { λ x g h. in_branches x.root x.second x.third x.fourth
        (same_goal g x.root) (same_goal g x.second) (same_goal g x.third) };

    ghost words_named = { λ x g h. words_found x.root x.second x.third x.fourth
        (same_goal g x.root) (same_goal g x.second) (same_goal g x.third) };

    ghost slots_fit = { λ x g h. fitting_slots x.root x.second x.third x.fourth
        (same_goal g x.root) (same_goal g x.second) (same_goal g x.third) };

    ghost slots_differ = { λ x g h. different_slots x.root x.second x.third x.fourth
        (same_goal g x.root) (same_goal g x.second) (same_goal g x.third) };

    ghost words_differ = { λ x g h. different_words x.root x.second x.third x.fourth
        (same_goal g x.root) (same_goal g x.second) (same_goal g x.third) };
}

/// Four goals, each of one position.
fn expander(alloc: Global) -> Result<Small, Fail> {
    let nodes = vec![in alloc;
        Node::BoolIs(true),
        Node::BoolIs(true),
        Node::BoolIs(true),
        Node::BoolIs(true),
    ]?;
    let ranks = vec![in alloc; 0, 1, 2, 3]?;
    let core = Core::make(alloc, NodeList::from_vec(nodes), RankList::from_vec(ranks))?;
    Ok(Small {
        root: form(alloc, &core, &[Signed::plus(Pos(0))])?.ok_or("a clash")?,
        second: form(alloc, &core, &[Signed::plus(Pos(1))])?.ok_or("a clash")?,
        third: form(alloc, &core, &[Signed::plus(Pos(2))])?.ok_or("a clash")?,
        fourth: form(alloc, &core, &[Signed::plus(Pos(3))])?.ok_or("a clash")?,
    })
}

#[test]
fn least_rounds_and_first_alternatives(rt: HostRuntime) -> Result<(), Fail> {
    let expander = expander(rt.alloc())?;
    let gate = OpenGate;
    let workers = Workers::new(&rt, &gate, 1);
    let explored = explore(&workers, rt.alloc(), &expander, expander.root.clone()?)?;
    let mut rounds = Rounds::new(rt.alloc(), &explored)?;
    rounds.run_uncounted(&explored);
    rounds.run_uncounted(&explored);
    let answers = [Some((3, 1)), None, Some((1, 0)), Some((2, 0)), None];
    for (goal, answer) in answers.iter().enumerate() {
        assert_eq!(rt; rounds.satisfied(goal as u32), *answer);
    }
    assert_eq!(rt; rounds.last_round(), 3);
    Ok(())
}

/// The names of a part's members, and the numbers of the parts that it names.
fn named(alloc: Global, part: &Part) -> Result<(Vec<Str>, Vec<u32>), Memory> {
    let mut names = Vec::new(alloc);
    let mut numbers = Vec::new(alloc);
    if let Part::List(ids) = part {
        for id in ids.as_slice() {
            numbers.push(id.0)?;
        }
    }
    if let Part::Members(members) = part {
        for member in members.as_slice() {
            names.push(member.name.copy(alloc)?)?;
            numbers.push(member.part.0)?;
        }
    }
    Ok((names, numbers))
}

struct Case {
    goal: u32,
    /// For each part the names of its members and the numbers that it names.
    parts: &'static [(&'static [&'static str], &'static [u32])],
}

const CASES: [Case; 3] = [
    Case {
        goal: 0,
        parts: &[(&[], &[]), (&[], &[0, 0]), (&["a", "b", "d"], &[0, 1, 0])],
    },
    Case {
        goal: 2,
        parts: &[(&[], &[])],
    },
    Case {
        goal: 3,
        parts: &[(&[], &[]), (&[], &[0, 0])],
    },
];

#[test]
fn parts_in_order_of_rounds(rt: HostRuntime) -> Result<(), Fail> {
    let expander = expander(rt.alloc())?;
    let gate = OpenGate;
    let workers = Workers::new(&rt, &gate, 1);
    let explored = explore(&workers, rt.alloc(), &expander, expander.root.clone()?)?;
    let mut rounds = Rounds::new(rt.alloc(), &explored)?;
    rounds.run_uncounted(&explored);
    for case in CASES.iter() {
        assert!(rt; rounds.satisfied(case.goal).is_some());
        if rounds.satisfied(case.goal).is_some() {
            let (parts, last) = rounds.witness(rt.alloc(), &explored, &expander, case.goal)?;
            assert_eq!(rt; parts.len() as usize, case.parts.len());
            assert_eq!(rt; last.index() + 1, case.parts.len());
            for (part, expected) in parts.as_slice().iter().zip(case.parts.iter()) {
                let (names, numbers) = named(rt.alloc(), part)?;
                assert_eq!(rt; names.len(), expected.0.len());
                for (name, text) in names.iter().zip(expected.0.iter()) {
                    assert_eq!(rt; name.as_text(), *text);
                }
                assert_eq!(rt; numbers.as_slice(), expected.1);
            }
        }
    }
    Ok(())
}
