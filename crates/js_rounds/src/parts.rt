//! The parts of the document of a goal.

ghost use Rattle.std.specs.Prelude.{◌≡◌, ◌<◌, ◌+◌, ◌++◌, ◌∷◌, [], true, None, IfOk, OnOk, List, is_some, length, map, set};
ghost use Rattle.documents.specs.Tests.{every, same_word};
ghost use Rattle.positions.specs.Position.{Position};
ghost use Rattle.alternatives.specs.Alternative as A;
ghost use Rattle.alternatives.specs.Slots.{capacity, cell_at, word_at, has_room, are_different};
ghost use Rattle.alternatives.specs.Expansion.{names_branch};
ghost use Rattle.shared_documents.specs.Part.{first_forward};
ghost use Rattle.shared_documents.specs.Unshared.{unshared};
ghost use Rattle.search.specs.Documents.{document};
ghost use Rattle.search.specs.Uses as U;
ghost use Rattle.search.specs.Witness as W;
ghost use Rattle.expander_laws.specs.Expander.{words_by};
ghost use Rattle.expander_laws.specs.Sound.{AreSound};
ghost use Rattle.js_algebra.specs.View.{kind_view};
ghost use Rattle.js_doc.specs.PartView.{part_view};
ghost use Rattle.js_expansion.specs.View.{shape_view};
ghost use Rattle.js_explore.specs.ExploredView.{explored_view};
ghost use Rattle.js_explore.specs.Exploration.{Explores};
ghost use Rattle.js_rounds.specs.Spread.{spread};
ghost use Rattle.js_rounds.specs.Slots.{place_at};
ghost use Rattle.js_rounds.specs.State.{IsFor, AreRounds};
ghost use Rattle.js_rounds.specs.Meets.{IsMet};

use crate::elements::elements;
use crate::names::{members, text};
use crate::rounds::Rounds;
use crate::runs::Run;
use js_algebra::Goal;
use js_doc::{Memory, Part, PartId, Parts};
use js_expansion::{Expander, Shape};
use js_explore::{Explored, Numbered};
use std::alloc::Global;

/// The part of an alternative and of what is in it.
fn part_of<E: Expander>(
    alloc: Global,
    expander: &E,
    goal: &Goal,
    alternative: &Numbered,
    runs: &[Run],
    places: &[u32],
) -> Result<Part, Memory>
    requires taken { E.takes expander.now goal.now ≡ true }
    requires branch { names_branch (E.expansion expander.now goal.now)
        (kind_view alternative.now.branch.kind) alternative.now.branch.number ≡ true }
    requires text { shape_view alternative.now.shape ≡ A.Text → 0 < capacity (cell_at
        (E.cells expander.now goal.now (kind_view alternative.now.branch.kind) alternative.now.branch.number) 0) }
    requires room { every (λ p. has_room
        (E.cells expander.now goal.now (kind_view alternative.now.branch.kind) alternative.now.branch.number) p.slot 1)
        (spread runs.now) ≡ true }
    requires differ { shape_view alternative.now.shape ≡ A.Members → are_different same_word (map (λ m. m.0)
        (map (W.named (word_at
        (E.cells expander.now goal.now (kind_view alternative.now.branch.kind) alternative.now.branch.number))
        (place_at places.now)) (spread runs.now))) ≡ true }
    ensures { IfOk result (λ p. part_view p ≡ W.by_shape (word_at
        (E.cells expander.now goal.now (kind_view alternative.now.branch.kind) alternative.now.branch.number))
        (place_at places.now) (shape_view alternative.now.shape) (spread runs.now)) }
{
    match alternative.shape {
        Shape::Null => Ok(Part::Null),
        Shape::Bool(truth) => Ok(Part::Bool(truth)),
        Shape::Num(number) => Ok(Part::Num(number)),
        Shape::Text => Ok(Part::Text(text(alloc, expander, goal, alternative.branch)?)),
        Shape::List => Ok(Part::List(elements(alloc, runs, places)?)),
        Shape::Members => {
            let members = members(alloc, expander, goal, alternative.branch, runs, places)?;
            Ok(Part::Members(members))
        }
    }
}

impl Rounds {
    /// The part of a goal, by the numbers of the parts of what it contains.
    fn part<E: Expander>(
        &self,
        alloc: Global,
        explored: &Explored,
        expander: &E,
        goal: u32,
        places: &[u32],
    ) -> Result<Part, Memory>
        requires explores { Explores (E.expansion expander.now) (explored_view explored.now) }
        requires rounds { AreRounds (E.expansion expander.now) (explored_view explored.now).found self.now }
        requires taken { every (E.takes expander.now) (explored_view explored.now).found.goals ≡ true }
        requires satisfied { is_some (U.satisfied (E.expansion expander.now) (explored_view explored.now).found goal)
            ≡ true }
        ensures { IfOk result (λ p. part_view p ≡ W.part (words_by (E.cells expander.now)) (E.expansion expander.now)
            (explored_view explored.now).found (place_at places.now) goal) }
    {
        let Some(choice) = self.choice(explored, goal) else {
            return Ok(Part::Null);
        };
        let runs = self.runs_of(alloc, explored, goal)?;
        part_of(
            alloc,
            expander,
            explored.goal(goal),
            choice.alternative,
            &runs,
            places,
        )
    }

    /// The part of the goal that comes next, behind those of what it contains.
    fn add_part<E: Expander>(
        &self,
        alloc: Global,
        explored: &Explored,
        expander: &E,
        goal: u32,
        places: &mut [u32],
        parts: &mut Parts,
    ) -> Result<PartId, Memory>
        requires explores { Explores (E.expansion expander.now) (explored_view explored.now) }
        requires rounds { AreRounds (E.expansion expander.now) (explored_view explored.now).found self.now }
        requires taken { every (E.takes expander.now) (explored_view explored.now).found.goals ≡ true }
        requires satisfied { is_some (U.satisfied (E.expansion expander.now) (explored_view explored.now).found goal)
            ≡ true }
        requires place { goal < length places.old }
        requires few { length parts.old < 4294967295 }
        requires below { first_forward (length parts.old) (W.part (words_by (E.cells expander.now))
            (E.expansion expander.now) (explored_view explored.now).found (place_at places.old) goal) ≡ None }
        ensures number { IfOk result (λ id. id.0 ≡ length parts.old) }
        ensures parts { OnOk result (parts.new ≡ parts.old ++ W.part (words_by (E.cells expander.now))
            (E.expansion expander.now) (explored_view explored.now).found (place_at places.old) goal ∷ []) }
        ensures places { OnOk result (places.new ≡ set places.old goal (length parts.old)) }
        ensures length { length places.new ≡ length places.old }
    {
        let part = self.part(alloc, explored, expander, goal, places)?;
        match parts.push(part) {
            Ok(id) => {
                places[goal as usize] = id.0;
                Ok(id)
            }
            // What a part names is below it, so memory was refused.
            Err(_) => Err(Memory),
        }
    }

    /// The document of a goal that has an answer, in parts: one for the goal and one for each goal that its document
    /// uses, directly or through others. They are in order of least round, then number, so the goal's own is last.
    ///
    /// It costs what the used goals contain, a step for each goal that has an answer, and the sorting of each object's
    /// members by name; each cell of a used goal's branch is requested once, with as many words as are needed.
    pub fn witness<E: Expander>(
        &self,
        alloc: Global,
        explored: &Explored,
        expander: &E,
        goal: u32,
    ) -> Result<(Parts, PartId), Memory>
        requires has_run { self.now.has_run ≡ true }
        requires same { IsFor (length (explored_view explored.now).found.goals) self.now }
        requires explores { Explores (E.expansion expander.now) (explored_view explored.now) }
        requires rounds { AreRounds (E.expansion expander.now) (explored_view explored.now).found self.now }
        requires taken { every (E.takes expander.now) (explored_view explored.now).found.goals ≡ true }
        requires satisfied { is_some (U.satisfied (E.expansion expander.now) (explored_view explored.now).found goal)
            ≡ true }
        ensures parts { IfOk result (λ w. w.0 ≡ W.parts (words_by (E.cells expander.now)) (E.expansion expander.now)
            (explored_view explored.now).found goal) }
        ensures last { IfOk result (λ w. w.1.0 + 1 ≡ length w.0) }
        ensures document { IfOk result (λ w. unshared w.0 w.1.0 ≡ document (words_by (E.cells expander.now))
            (E.expansion expander.now) (explored_view explored.now).found
            (length (explored_view explored.now).found.goals) goal) }

        // What the document means: whatever the table, where each alternative is sound for it.
        ensures meets { (T : List Position)
            → AreSound T (words_by (E.cells expander.now)) (E.expansion expander.now)
            (explored_view explored.now).found.goals
            → IfOk result (λ w. IsMet T (E.expansion expander.now) (explored_view explored.now).found goal
            (unshared w.0 w.1.0)) }
    {
        let mut goals = self.used(alloc, explored, goal)?;
        goals.reverse();
        let mut places = vec![in alloc; 0; explored.len() as usize]?;
        let mut parts = Parts::new(alloc);
        let mut last = PartId(0);
        for place in 0..goals.len() {
            last = self.add_part(
                alloc,
                explored,
                expander,
                goals[place],
                &mut places,
                &mut parts,
            )?;
        }
        Ok((parts, last))
    }
}
