//! The steps of a tree, one after another in pre-order.
//!
//! Sets still to be visited are in a list, the next one last, each as a choice to add to the first members of the walk:
//! so the choices of a rule share its set. Each has at least one end, so the tree has too many as soon as the ends that
//! were given and the sets that are left are too many; this bounds the list too.

ghost use Rattle.std.specs.Prelude.{◌≡◌, ◌<◌, ◌≤◌, ◌+◌, ◌++◌, ℕ, List, [], ◌∷◌, map, take, length, reverse, IfOk, IfErr, OnOk, MatchOption, IsNone, true};
ghost use Rattle.documents.specs.Kind.{Kind};
ghost use Rattle.goals.specs.Signed.{is_rising};
ghost use Rattle.goals.specs.Tree.{steps, ends};
ghost use Rattle.positions.specs.Position.{is_table};
ghost use Rattle.js_algebra.specs.View.{signed_view, kind_view, are_in_table};
ghost use Rattle.js_tableau.specs.Branches.{most_ends};
ghost use Rattle.js_algebra.specs.SignedSets.{set_of};
ghost use Rattle.js_tableau.specs.Walks.{is_clean, are_settled};
ghost use Rattle.js_tableau.specs.Progress.{Stands, Visits, entries, is_end, one_more, choice_count, steps_at_hand, left, told_set, IsTree, IsAtHand, Tells};

use crate::fault::TableauFault;
use crate::walk::{Step, Walk};
use js_algebra::{Core, Goal, JsonKind, Signed, SignedList};
use js_doc::Memory;
use std::alloc::Global;

/// The most ends that a tree may have, closed ends included.
pub const MOST_ENDS: usize = 16_384;

/// A set still to be visited: the choice of that number of a rule, added to the first `members` of the walk. The first
/// `settled` that were noted are settled in it.
#[derive(Clone, Copy)]
pub struct Pending {
    pub members: usize,
    pub settled: usize,
    pub rule: Signed,
    pub index: usize,
}

/// The tree of a goal, of which some steps were given; `left` are the others. From one `begin` to the next all its
/// calls are to be given the same table and the same kind.
#[derive(Drop)]
pub struct Tree {
    walk: Walk,
    pending: Vec<Pending>,
    ends: usize,
    /// Whether a step was given; else the set of the walk is still to be visited.
    begun: bool,
}

impl Tree {
    /// The tree of a goal, of which no step was given.
    pub fn new(alloc: Global, core: &Core, goal: &Goal) -> Result<Tree, Memory>
        requires { are_in_table core.now.positions goal.now ≡ true }
        ensures tree { IfOk result (λ tree. (t : Kind) → IsTree core.now.positions t tree) }
        ensures left { IfOk result (λ tree. (t : Kind) → left core.now.positions t tree ≡ steps core.now.positions t goal.now) }
        ensures ends { IfOk result (λ tree. tree.ends ≡ 0) }
        ensures table { OnOk result (is_table core.now.positions core.now.ranks ≡ true) }
        ensures rising { OnOk result (is_rising goal.now ≡ true) }
    {
        let mut tree = Tree {
            walk: Walk::new(alloc),
            pending: Vec::new(alloc),
            ends: 0,
            begun: false,
        };
        tree.begin(core, goal)?;
        Ok(tree)
    }

    /// Becomes the tree of a goal, of which no step was given, whatever it was before. It keeps its room, and takes the
    /// time of what it holds and of the goal.
    pub fn begin(&mut self, core: &Core, goal: &Goal) -> Result<(), Memory>
        requires { are_in_table core.now.positions goal.now ≡ true }
        ensures tree { OnOk result ((t : Kind) → IsTree core.now.positions t self.new) }
        ensures left { OnOk result ((t : Kind) → left core.now.positions t self.new ≡ steps core.now.positions t goal.now) }
        ensures ends { OnOk result (self.new.ends ≡ 0) }
        ensures table { OnOk result (is_table core.now.positions core.now.ranks ≡ true) }
        ensures rising { OnOk result (is_rising goal.now ≡ true) }
    {
        // so that the table is known to be one
        let _length = core.len();
        self.pending.clear();
        self.ends = 0;
        self.begun = false;
        self.walk.begin(goal.as_slice())?;
        Ok(())
    }

    /// The next step of the tree, none at its end. `LimitBranches` only where the whole tree has more than
    /// [`MOST_ENDS`] ends, and before more of them are given.
    pub fn next(&mut self, core: &Core, kind: JsonKind) -> Result<Option<Step>, TableauFault>
        requires { IsTree core.now.positions (kind_view kind) self.old }
        ensures told { IfOk result (λ step. MatchOption step (left core.now.positions (kind_view kind) self.old ≡ [])
            (λ s. Tells core.now.positions (kind_view kind) self.old self.new s)) }
        ensures end { IfOk result (λ step. IsNone step → (left core.now.positions (kind_view kind) self.new ≡ [])
            × (self.new.ends ≡ self.old.ends)) }
        ensures tree { OnOk result (IsTree core.now.positions (kind_view kind) self.new) }
        ensures limit { IfErr result (λ fault. fault ≡ TableauFault.LimitBranches
            → most_ends < self.old.ends + ends (left core.now.positions (kind_view kind) self.old)) }
    {
        // so that the table is known to be one
        let _length = core.len();
        match self.enter(core, kind)? {
            Some(from) => {
                let step = visit(
                    &mut self.walk,
                    core,
                    kind,
                    from,
                    &mut self.pending,
                    &mut self.ends,
                )?;
                Ok(Some(step))
            }
            None => Ok(None),
        }
    }

    /// The set of the step that was given last, in rising order.
    pub fn set(&self, alloc: Global) -> Result<SignedList, Memory>
        ensures { IfOk result (λ set. set ≡ told_set self.now) }
    {
        self.walk.trail.to_list(alloc)
    }

    /// Goes to the next set that is to be visited, and says how many of its members were visited before.
    fn enter(&mut self, core: &Core, kind: JsonKind) -> Result<Option<usize>, Memory>
        requires { IsTree core.now.positions (kind_view kind) self.old }
        ensures at_hand { IfOk result (λ o. MatchOption o
            ((left core.now.positions (kind_view kind) self.old ≡ [])
            × (left core.now.positions (kind_view kind) self.new ≡ [])
            × IsTree core.now.positions (kind_view kind) self.new)
            (λ from. IsAtHand core.now.positions (kind_view kind) self.new from × (steps_at_hand core.now.positions
            (kind_view kind) self.new.walk.trail self.new.pending.items
            ≡ left core.now.positions (kind_view kind) self.old))) }
        ensures ends { OnOk result (self.new.ends ≡ self.old.ends) }
    {
        if !self.begun {
            self.begun = true;
            return Ok(Some(0));
        }
        match self.pending.pop() {
            Some(next) => {
                self.walk.go_back(next.members, next.settled)?;
                self.walk.add_choice(core, kind, next.rule, next.index)?;
                Ok(Some(next.members))
            }
            None => Ok(None),
        }
    }
}

/// Gives the step at the set of the walk, of which the members after the first `from` are new, and adds the sets of its
/// choices.
fn visit(
    walk: &mut Walk,
    core: &Core,
    kind: JsonKind,
    from: usize,
    pending: &mut Vec<Pending>,
    told: &mut usize,
) -> Result<Step, TableauFault>
    requires table { is_table core.now.positions core.now.ranks ≡ true }
    requires stands { Stands core.now.positions (kind_view kind) walk.old pending.old.items }
    requires clean { is_clean core.now.positions (kind_view kind) (take from walk.old.trail) ≡ true }
    requires settled { are_settled core.now.positions (kind_view kind) walk.old.trail
        (map signed_view walk.old.settled.items) ≡ true }
    requires few { told.old + length pending.old.items ≤ most_ends }
    ensures limit { IfErr result (λ fault. fault ≡ TableauFault.LimitBranches → most_ends < told.old
        + ends (steps_at_hand core.now.positions (kind_view kind) walk.old.trail pending.old.items)) }
    ensures trail { OnOk result (walk.new.trail ≡ walk.old.trail) }
    ensures stands { OnOk result (Stands core.now.positions (kind_view kind) walk.new pending.new.items) }
    ensures visits { IfOk result (λ step. Visits core.now.positions (kind_view kind) walk.old.trail
        pending.old.items pending.new.items told.old told.new step) }
{
    let step = walk.next_step(core, kind, from)?;
    *told = with_end(*told, &step);
    let more = choice_count(&step);
    if more > MOST_ENDS as u128 || *told + pending.len() + more as usize > MOST_ENDS {
        return Err(TableauFault::LimitBranches);
    }
    if let Step::Rule(rule, count) = step {
        add_choices(
            pending,
            walk.trail.len(),
            walk.settled.len(),
            rule,
            count as usize,
        )?;
    }
    Ok(step)
}

/// The ends that were given, with the step if it is one.
fn with_end(told: usize, step: &Step) -> usize
    requires { told ≤ most_ends }
    ensures { result ≡ one_more (is_end step.now) told }
{
    if is_end(step) { told + 1 } else { told }
}

fn is_end(step: &Step) -> bool
    ensures { result ≡ is_end step.now }
{
    match step {
        Step::Rule(_, count) => *count == 0,
        _ => true,
    }
}

fn choice_count(step: &Step) -> u128
    ensures { result ≡ choice_count step.now }
{
    match step {
        Step::Rule(_, count) => *count,
        _ => 0,
    }
}

/// Adds the sets of the choices of a rule, the first one next.
fn add_choices(
    pending: &mut Vec<Pending>,
    members: usize,
    settled: usize,
    rule: Signed,
    count: usize,
) -> Result<(), Memory>
    ensures { OnOk result (reverse pending.new.items ≡ entries members settled rule 0 count
        ++ reverse pending.old.items) }
{
    let mut index = count;
    while index > 0 {
        index -= 1;
        pending.push(Pending {
            members,
            settled,
            rule,
            index,
        })?;
    }
    Ok(())
}
