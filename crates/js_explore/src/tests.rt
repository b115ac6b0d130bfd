//! A small search within several limits, by one worker and by several; and that the goals of a wave are expanded at
//! once, shown by a gate that holds each until the other has come.

ghost use Rattle.std.specs.Prelude.{◌≡◌, [], ◌∷◌, map, true, false, IfOk};
ghost use Rattle.js_algebra.specs.Equality.{same_goal};
ghost use Rattle.js_expansion.specs.View.{filler_view};
ghost use Rattle.js_expansion.specs.AlternativeView.{alternative_view};
ghost use Rattle.js_expansion.specs.ExpansionView.{expansion_view};
ghost use Rattle.js_explore.specs.Small.{at, array_of, small, takes_named, in_branches, words_found, fitting_slots, different_slots, different_words};

use crate::exploring::explore_within;
use crate::{Explored, explore};
use js_algebra::{BranchId, Core, Goal, JsonKind, Node, NodeList, Pos, RankList, Signed, form};
use js_doc::{Memory, StrList};
use js_expansion::{
    Alternative, AlternativeList, Expander, Expansion, Filler, FillerList, LimitKind, Placed,
    PlacedList, Shape, Slot,
};
use js_par::{Meeting, OpenGate, Workers};
use std::alloc::Global;
use std::test::Fail;
use std::thread::Threads;

/// The first goal requires an array of the second, to which one of the third may be added, or an array of the first.
/// Each other requires an array of the third, and has a hole. It waits at each goal for those that are to meet.
#[derive(Drop)]
struct Small {
    first: Goal,
    second: Goal,
    third: Goal,
    meeting: Meeting,
}

/// An array of one element and of what may be added to it.
fn array(alloc: Global, element: &Goal, fillers: Vec<Filler>) -> Result<Alternative, Memory>
    ensures { IfOk result (λ a. alternative_view a ≡ array_of (at 0 element.now ∷ []) (map filler_view fillers.items)) }
{
    let member = Placed {
        slot: Slot::Index(0),
        goal: element.clone()?,
    };
    Ok(Alternative {
        branch: BranchId {
            kind: JsonKind::Array,
            number: 0,
        },
        shape: Shape::List,
        members: PlacedList::from_vec(vec![in alloc; member]?),
        need: 0,
        fillers: FillerList::from_vec(fillers),
    })
}

impl Small {
    fn of_first(&self, alloc: Global) -> Result<Expansion, Memory>
        ensures { IfOk result (λ e. expansion_view e ≡ small true self.now.first self.now.second self.now.third) }
    {
        let filler = Filler {
            goal: self.third.clone()?,
            room: 1,
            slot: Slot::Index(1),
        };
        let second = array(alloc, &self.second, vec![in alloc; filler]?)?;
        let first = array(alloc, &self.first, Vec::new(alloc))?;
        Ok(Expansion {
            alternatives: AlternativeList::from_vec(vec![in alloc; second, first]?),
            hole: None,
        })
    }

    fn of_others(&self, alloc: Global) -> Result<Expansion, Memory>
        ensures { IfOk result (λ e. expansion_view e ≡ small false self.now.first self.now.second self.now.third) }
    {
        let only = array(alloc, &self.third, Vec::new(alloc))?;
        Ok(Expansion {
            alternatives: AlternativeList::from_vec(vec![in alloc; only]?),
            hole: Some(LimitKind::Plans),
        })
    }
}

impl Expander for Small {
    ghost takes = { λ x g. true };

    ghost expansion = { λ x g. small (same_goal g x.first) x.first x.second x.third };

    ghost branches = { λ x g t. 1 };

    ghost cells = { λ x g t k. [] ∷ [] };

    fn expand(&self, alloc: Global, goal: &Goal) -> Result<Expansion, Memory> {
        self.meeting.wait();
        self.meeting.go();
        if *goal == self.first {
            self.of_first(alloc)
        } else {
            self.of_others(alloc)
        }
    }

    #[tactic(auto, using(crate::proofs::NoWords::no_words))]
    fn words(
        &self,
        alloc: Global,
        _: &Goal,
        _: BranchId,
        cell: u32,
        count: u32,
    ) -> Result<StrList, Memory> {
        let _ = (cell, count);
        Ok(StrList::from_vec(Vec::new(alloc)))
    }

    ghost named_taken = { λ x g h. takes_named x.first x.second x.third (same_goal g x.first) };

    ghost of_branches = { λ x g h. in_branches x.first x.second x.third (same_goal g x.first) };

    ghost words_named = { λ x g h. words_found x.first x.second x.third (same_goal g x.first) };

    ghost slots_fit = { λ x g h. fitting_slots x.first x.second x.third (same_goal g x.first) };

    ghost slots_differ = { λ x g h. different_slots x.first x.second x.third (same_goal g x.first) };

    ghost words_differ = { λ x g h. different_words x.first x.second x.third (same_goal g x.first) };
}

/// Three goals, each of one position.
fn expander(alloc: Global, meeting: Meeting) -> Result<Small, Fail> {
    let nodes = vec![in alloc; Node::BoolIs(true), Node::BoolIs(true), Node::BoolIs(true)]?;
    let ranks = vec![in alloc; 0, 1, 2]?;
    let nodes = NodeList::from_vec(nodes);
    let core = Core::make(alloc, nodes, RankList::from_vec(ranks))?;
    Ok(Small {
        first: form(alloc, &core, &[Signed::plus(Pos(0))])?.ok_or("a clash")?,
        second: form(alloc, &core, &[Signed::plus(Pos(1))])?.ok_or("a clash")?,
        third: form(alloc, &core, &[Signed::plus(Pos(2))])?.ok_or("a clash")?,
        meeting,
    })
}

/// For each goal: how many alternatives it has, and for each the numbers of its members and of its fillers, with how
/// many there are before them.
fn numbers(alloc: Global, explored: &Explored) -> Result<Vec<usize>, Memory> {
    let mut all = Vec::new(alloc);
    for n in 0..explored.len() {
        all.push(explored.alternatives(n).len())?;
        for alternative in explored.alternatives(n) {
            all.push(alternative.members.as_slice().len())?;
            for member in alternative.members.as_slice() {
                all.push(member.goal as usize)?;
            }
            all.push(alternative.fillers.as_slice().len())?;
            for filler in alternative.fillers.as_slice() {
                all.push(filler.goal as usize)?;
            }
        }
    }
    Ok(all)
}

struct Case {
    most_goals: u32,
    most_total: u32,
    taken: u32,
    over: Option<LimitKind>,
    numbers: &'static [usize],
}

const CASES: [Case; 7] = [
    Case {
        most_goals: 3,
        most_total: 9,
        taken: 3,
        over: None,
        numbers: &[2, 1, 1, 1, 2, 1, 0, 0, 1, 1, 2, 0, 1, 1, 2, 0],
    },
    // The third goal has no number: it is no filler, and what has it as a member is left out.
    Case {
        most_goals: 2,
        most_total: 9,
        taken: 2,
        over: Some(LimitKind::Goals),
        numbers: &[2, 1, 1, 0, 1, 0, 0, 0],
    },
    Case {
        most_goals: 1,
        most_total: 9,
        taken: 1,
        over: Some(LimitKind::Goals),
        numbers: &[1, 1, 0, 0],
    },
    // The last goal isn't taken.
    Case {
        most_goals: 3,
        most_total: 8,
        taken: 2,
        over: Some(LimitKind::Total),
        numbers: &[2, 1, 1, 1, 2, 1, 0, 0, 1, 1, 2, 0, 0],
    },
    Case {
        most_goals: 3,
        most_total: 5,
        taken: 1,
        over: Some(LimitKind::Total),
        numbers: &[2, 1, 1, 1, 2, 1, 0, 0, 0, 0],
    },
    // Places are looked at before goals.
    Case {
        most_goals: 1,
        most_total: 4,
        taken: 0,
        over: Some(LimitKind::Total),
        numbers: &[0],
    },
    // The limit that is passed first is reported.
    Case {
        most_goals: 2,
        most_total: 5,
        taken: 1,
        over: Some(LimitKind::Goals),
        numbers: &[2, 1, 1, 0, 1, 0, 0, 0],
    },
];

/// Whether in each case what it says is found.
fn finds<R: Threads + Sync>(
    workers: &Workers<'_, R, OpenGate>,
    alloc: Global,
    expander: &Small,
) -> Result<bool, Memory> {
    for case in CASES.iter() {
        let root = expander.first.clone()?;
        let explored = explore_within(
            workers,
            alloc,
            expander,
            root,
            case.most_goals,
            case.most_total,
        )?;
        let numbers = numbers(alloc, &explored)?;
        if explored.taken() != case.taken
            || explored.over() != case.over
            || numbers.as_slice() != case.numbers
        {
            return Ok(false);
        }
    }
    Ok(true)
}

#[test]
fn searches_within_limits(rt: HostRuntime) -> Result<(), Fail> {
    let expander = expander(rt.alloc(), Meeting::new(0, 0))?;
    let gate = OpenGate;
    let alone = Workers::new(&rt, &gate, 1);
    assert!(rt; finds(&alone, rt.alloc(), &expander)?);
    let four = Workers::new(&rt, &gate, 4);
    assert!(rt; finds(&four, rt.alloc(), &expander)?);
    let many = Workers::new(&rt, &gate, 64);
    assert!(rt; finds(&many, rt.alloc(), &expander)?);
    Ok(())
}

/// The root is a wave by itself, and the two goals that it names are the second one.
#[test]
fn goals_of_a_wave_meet(rt: HostRuntime) -> Result<(), Fail> {
    let expander = expander(rt.alloc(), Meeting::new(1, 2))?;
    let gate = Meeting::new(1, 2);
    let workers = Workers::new(&rt, &gate, 2);
    let explored = explore(&workers, rt.alloc(), &expander, expander.first.clone()?)?;
    assert!(rt; gate.was_each_met());
    assert!(rt; expander.meeting.was_met());
    assert_eq!(rt; explored.len(), 3);
    assert!(rt; *explored.goal(2) == expander.third);
    assert_eq!(rt; explored.number(&expander.second), Some(1));
    assert_eq!(rt; explored.hole(0), None);
    assert_eq!(rt; explored.hole(1), Some(LimitKind::Plans));
    assert_eq!(rt; explored.hole(3), None);
    Ok(())
}
