//! What small searches show, worked by hand.

ghost use Rattle.std.specs.Prelude.{◌≡◌, [], ◌∷◌, ◌++◌, map, cond, true, nat_lt, refl, option_map, IfOk};
ghost use Rattle.alternatives.specs.Slots.{has_words, has_fitting_slots, has_different_slots, has_different_words};
ghost use Rattle.js_expansion.specs.View.{limit_view};
ghost use Rattle.js_expansion.specs.AlternativeView.{alternative_view};
ghost use Rattle.js_expansion.specs.ExpansionView.{expansion_view};
ghost use Rattle.search_tests.specs.Rows.{row, null, array_of, answer, answer_to, of_all, takes_all};

use js_algebra::{BranchId, Core, Goal, JsonKind, Node, NodeList, Pos, RankList, Signed, form};
use js_decide::{Outcome, search_root};
use js_doc::{Memory, Part, StrList};
use js_expansion::{
    Alternative, AlternativeList, Expander, Expansion, FillerList, LimitKind, Placed, PlacedList,
    Shape, Slot,
};
use js_par::{OpenGate, Workers};
use std::alloc::Global;
use std::test::Fail;

/// A goal, whether null meets it, the goals of which an array of one element meets it, and its hole.
#[derive(Drop)]
struct Row {
    goal: Goal,
    has_null: bool,
    elements: Vec<Goal>,
    hole: Option<LimitKind>,
}

/// A goal is answered by the first row that has it, and any other by nothing.
#[derive(Drop)]
struct Rows {
    rows: Vec<Row>,
}

fn null(alloc: Global) -> Alternative
    ensures { alternative_view result ≡ null }
{
    Alternative {
        branch: BranchId {
            kind: JsonKind::Null,
            number: 0,
        },
        shape: Shape::Null,
        members: PlacedList::from_vec(Vec::new(alloc)),
        need: 0,
        fillers: FillerList::from_vec(Vec::new(alloc)),
    }
}

fn array(alloc: Global, element: &Goal) -> Result<Alternative, Memory>
    ensures { IfOk result (λ a. alternative_view a ≡ array_of element.now) }
{
    let member = Placed {
        slot: Slot::Index(0),
        goal: element.clone()?,
    };
    Ok(Alternative {
        branch: BranchId {
            kind: JsonKind::Array,
            number: 0,
        },
        shape: Shape::List,
        members: PlacedList::from_vec(vec![in alloc; member]?),
        need: 0,
        fillers: FillerList::from_vec(Vec::new(alloc)),
    })
}

/// Null, where it is wanted.
fn scalars(alloc: Global, has_null: bool) -> Result<Vec<Alternative>, Memory>
    ensures { IfOk result (λ v. map alternative_view v.items ≡ cond has_null (null ∷ []) []) }
{
    let mut alternatives = Vec::new(alloc);
    if has_null {
        alternatives.push(null(alloc))?;
    }
    Ok(alternatives)
}

impl Row {
    fn answer(&self, alloc: Global) -> Result<Expansion, Memory>
        ensures { IfOk result (λ e. expansion_view e ≡ answer (row self.now.goal self.now.has_null
            self.now.elements.items (option_map limit_view self.now.hole))) }
    {
        let mut alternatives = scalars(alloc, self.has_null)?;
        for element in self.elements.as_slice() {
            alternatives.push(array(alloc, element)?)?;
        }
        Ok(Expansion {
            alternatives: AlternativeList::from_vec(alternatives),
            hole: self.hole,
        })
    }
}

impl Expander for Rows {
    ghost takes = { λ x g. true };

    ghost expansion = { λ x g. answer_to
        (map (λ r. row r.goal r.has_null r.elements.items (option_map limit_view r.hole)) x.rows.items) g };

    ghost branches = { λ x g t. 1 };

    ghost cells = { λ x g t k. [] ∷ [] };

    fn expand(&self, alloc: Global, goal: &Goal) -> Result<Expansion, Memory> {
        for row in self.rows.as_slice() {
            if *goal == row.goal {
                return row.answer(alloc);
            }
        }
        Ok(Expansion {
            alternatives: AlternativeList::from_vec(Vec::new(alloc)),
            hole: None,
        })
    }

    #[tactic(auto, using(js_explore::proofs::NoWords::no_words))]
    fn words(
        &self,
        alloc: Global,
        _: &Goal,
        _: BranchId,
        cell: u32,
        count: u32,
    ) -> Result<StrList, Memory> {
        let _ = (cell, count);
        Ok(StrList::from_vec(Vec::new(alloc)))
    }

    ghost named_taken = { λ x g h. takes_all
        (map (λ r. row r.goal r.has_null r.elements.items (option_map limit_view r.hole)) x.rows.items) g };

    ghost of_branches = { λ x g h. of_all (λ a. nat_lt a.branch 1) refl (λ e. refl)
        (map (λ r. row r.goal r.has_null r.elements.items (option_map limit_view r.hole)) x.rows.items) g };

    ghost words_named = { λ x g h. of_all (λ a. has_words ([] ∷ []) a) refl (λ e. refl)
        (map (λ r. row r.goal r.has_null r.elements.items (option_map limit_view r.hole)) x.rows.items) g };

    ghost slots_fit = { λ x g h. of_all has_fitting_slots refl (λ e. refl)
        (map (λ r. row r.goal r.has_null r.elements.items (option_map limit_view r.hole)) x.rows.items) g };

    ghost slots_differ = { λ x g h. of_all has_different_slots refl (λ e. refl)
        (map (λ r. row r.goal r.has_null r.elements.items (option_map limit_view r.hole)) x.rows.items) g };

    ghost words_differ = { λ x g h. of_all (λ a. has_different_words ([] ∷ [])) refl (λ e. refl)
        (map (λ r. row r.goal r.has_null r.elements.items (option_map limit_view r.hole)) x.rows.items) g };
}

/// So many goals, each of one position.
fn goals(alloc: Global, count: u32) -> Result<Vec<Goal>, Fail> {
    let mut nodes = Vec::new(alloc);
    let mut ranks = Vec::new(alloc);
    for i in 0..count {
        let _ = i;
        nodes.push(Node::BoolIs(true))?;
        ranks.push(0)?;
    }
    let core = Core::make(alloc, NodeList::from_vec(nodes), RankList::from_vec(ranks))?;
    let mut goals = Vec::new(alloc);
    for number in 0..core.len() {
        goals.push(form(alloc, &core, &[Signed::plus(Pos(number))])?.ok_or("a clash")?)?;
    }
    Ok(goals)
}

/// What is answered: for each part of a document the numbers that it names; the number of a goal among all.
#[derive(Drop)]
enum Told {
    Document(&'static [&'static [u32]]),
    Limit(LimitKind, Option<usize>),
    NoDocument,
}

struct Case {
    /// For each goal whether null meets it, the numbers of the goals of which an array meets it, and its hole.
    rows: &'static [(bool, &'static [usize], Option<LimitKind>)],
    told: Told,
    goals: u32,
    rounds: u32,
}

const CASES: [Case; 8] = [
    Case {
        rows: &[(true, &[], None)],
        told: Told::Document(&[&[]]),
        goals: 1,
        rounds: 1,
    },
    Case {
        rows: &[(false, &[1], None), (false, &[2], None), (true, &[], None)],
        told: Told::Document(&[&[], &[0], &[1]]),
        goals: 3,
        rounds: 3,
    },
    // A limit that a document shows to be of no account.
    Case {
        rows: &[
            (false, &[1, 2], None),
            (false, &[], Some(LimitKind::Plans)),
            (true, &[], None),
        ],
        told: Told::Document(&[&[], &[0]]),
        goals: 3,
        rounds: 2,
    },
    Case {
        rows: &[(true, &[], Some(LimitKind::Width))],
        told: Told::Document(&[&[]]),
        goals: 1,
        rounds: 1,
    },
    // The goal of least number that passes a limit.
    Case {
        rows: &[
            (false, &[0, 1, 2], None),
            (false, &[], Some(LimitKind::Plans)),
            (false, &[], Some(LimitKind::Counts)),
        ],
        told: Told::Limit(LimitKind::Plans, Some(1)),
        goals: 3,
        rounds: 0,
    },
    Case {
        rows: &[
            (false, &[2, 1], None),
            (false, &[0], None),
            (false, &[], Some(LimitKind::Counts)),
        ],
        told: Told::Limit(LimitKind::Counts, Some(2)),
        goals: 3,
        rounds: 0,
    },
    Case {
        rows: &[(false, &[1, 0], None), (false, &[0], None)],
        told: Told::NoDocument,
        goals: 2,
        rounds: 0,
    },
    // A goal that isn't explored.
    Case {
        rows: &[(false, &[0], None), (true, &[], Some(LimitKind::Plans))],
        told: Told::NoDocument,
        goals: 1,
        rounds: 0,
    },
];

/// The expander of a case, each row for the goal of its number.
fn expander(alloc: Global, case: &Case, goals: &[Goal]) -> Result<Rows, Fail> {
    let mut rows = Vec::new(alloc);
    for (row, goal) in case.rows.iter().zip(goals.iter()) {
        let mut elements = Vec::new(alloc);
        for number in row.1 {
            elements.push(goals.get(*number).ok_or("no goal")?.clone()?)?;
        }
        rows.push(Row {
            goal: goal.clone()?,
            has_null: row.0,
            elements,
            hole: row.2,
        })?;
    }
    Ok(Rows { rows })
}

/// The numbers of the parts that a part names.
fn named(alloc: Global, part: &Part) -> Result<Vec<u32>, Memory> {
    let mut numbers = Vec::new(alloc);
    if let Part::List(ids) = part {
        for id in ids.as_slice() {
            numbers.push(id.0)?;
        }
    }
    Ok(numbers)
}

fn is_told(alloc: Global, outcome: &Outcome, told: &Told, goals: &[Goal]) -> Result<bool, Memory> {
    match (outcome, told) {
        (Outcome::Document(parts, own), Told::Document(expected)) => {
            if Some(own.index()) != expected.len().checked_sub(1) {
                return Ok(false);
            }
            if parts.len() as usize != expected.len() {
                return Ok(false);
            }
            for (part, numbers) in parts.as_slice().iter().zip(expected.iter()) {
                if named(alloc, part)?.as_slice() != *numbers {
                    return Ok(false);
                }
            }
            Ok(true)
        }
        (Outcome::Limit(kind, None), Told::Limit(expected, None)) => Ok(*kind == *expected),
        (Outcome::Limit(kind, Some(goal)), Told::Limit(expected, Some(number))) => {
            match goals.get(*number) {
                Some(other) => Ok(*kind == *expected && *goal == *other),
                None => Ok(false),
            }
        }
        (Outcome::NoDocument, Told::NoDocument) => Ok(true),
        _ => Ok(false),
    }
}

#[test]
fn small_searches_are_decided(rt: HostRuntime) -> Result<(), Fail> {
    let goals = goals(rt.alloc(), 3)?;
    let gate = OpenGate;
    let workers = Workers::new(&rt, &gate, 2);
    for case in CASES.iter() {
        let expander = expander(rt.alloc(), case, &goals)?;
        let root = goals.first().ok_or("no goal")?.clone()?;
        let searched = search_root(&workers, rt.alloc(), &expander, root)?;
        assert!(rt; is_told(rt.alloc(), &searched.outcome, &case.told, &goals)?);
        assert_eq!(rt; searched.explored.len(), case.goals);
        assert_eq!(rt; searched.rounds.last_round(), case.rounds);
    }
    Ok(())
}

/// An array of each of 65,537 goals meets the first of them, and nothing is known of the others.
#[test]
fn too_many_goals(rt: HostRuntime) -> Result<(), Fail> {
    let elements = goals(rt.alloc(), 65_537)?;
    let gate = OpenGate;
    let workers = Workers::new(&rt, &gate, 2);
    let root = elements.first().ok_or("no goal")?.clone()?;
    let row = Row {
        goal: root.clone()?,
        has_null: false,
        elements,
        hole: None,
    };
    let expander = Rows {
        rows: vec![in rt.alloc(); row]?,
    };
    let searched = search_root(&workers, rt.alloc(), &expander, root)?;
    let told = Told::Limit(LimitKind::Goals, None);
    assert!(rt; is_told(rt.alloc(), &searched.outcome, &told, &[])?);
    assert_eq!(rt; searched.explored.len(), 65_536);
    assert_eq!(rt; searched.rounds.last_round(), 0);
    Ok(())
}
