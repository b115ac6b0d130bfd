//! The alternatives of the complete plans of a frame.

ghost use Rattle.std.specs.Prelude.{◌≡◌, ◌<◌, ◌≤◌, ◌+◌, ◌-◌, ◌^◌, ◌++◌, [], map, flat_map, take, length, reverse, max, slice_set, cond, nat_eq, IfOk, IfErr, OnOk, IfSome};
ghost use Rattle.std.specs.List.{range_with_len};
ghost use Rattle.std.specs.Option.{option_to_list};
ghost use Rattle.goals.specs.Signed as G;
ghost use Rattle.frames.specs.Plan.{ends, complete};
ghost use Rattle.expansions.specs.Leaves.{plan_alternative, filling_of};
ghost use Rattle.js_algebra.specs.View.{kind_view};
ghost use Rattle.js_expansion.specs.View.{placed_view, filler_view};
ghost use Rattle.js_expansion.specs.AlternativeView.{alternative_view};
ghost use Rattle.js_plans.specs.Serving.{plan_after};
ghost use Rattle.js_plans.specs.Servers.{cells_of, servers_of};
ghost use Rattle.js_plans.specs.Goals.{filler_goal, AreFirst, AreFillers};
ghost use Rattle.js_plans.specs.Placing.{put_heads, put_members};
ghost use Rattle.js_plans.specs.Walks.{size_of, placed_heads, IsPath, IsWalk, IsCounted, left, most_plans, told_plans};
ghost use Rattle.js_plans.specs.Named.{most_counts, IsSmall, naming_view, placed_from, filler_in, Answers};

use crate::choices::count;
use crate::fault::PlanFault;
use crate::formed::form_fillers;
use crate::naming::Naming;
use crate::path::{self, Extent, Served};
use crate::plan_frame::PlanFrame;
use crate::server::Server;
use crate::walk::{PlanStep, PlanWalk, size};
use js_algebra::{BranchId, Goal};
use js_doc::Memory;
use js_expansion::{Alternative, AlternativeList, Filler, FillerList, Placed, PlacedList};
use std::alloc::Global;

/// About how many goals alternatives may hold before the ends were counted.
const MOST_UNCOUNTED: usize = 16_384;

/// Puts a goal in the place of another one.
fn put(goals: &mut Vec<Goal>, k: usize, goal: Goal)
    ensures { goals.new.items ≡ slice_set goals.old.items k goal }
{
    if k < goals.len() {
        goals[k] = goal;
    }
}

/// The goals of the first places after a path, of which these are the ones that serve nothing.
fn head_goals(alloc: Global, path: &[Served], first: &[Goal]) -> Result<Vec<Goal>, Memory>
    ensures { IfOk result (λ v. v.items ≡ put_heads path.now first.now) }
{
    let mut goals = copies(alloc, first)?;
    for served in path {
        if let Server::Head(k) = served.server {
            put(&mut goals, k as usize, served.goal.clone()?);
        }
    }
    Ok(goals)
}

fn copies(alloc: Global, goals: &[Goal]) -> Result<Vec<Goal>, Memory>
    ensures { IfOk result (λ v. v.items ≡ goals.now) }
{
    let mut copies = Vec::with_capacity(alloc, goals.len())?;
    for goal in goals {
        copies.push(goal.clone()?)?;
    }
    Ok(copies)
}

/// Adds the goals of the members after a path.
fn member_goals(alloc: Global, path: &[Served]) -> Result<Vec<Goal>, Memory>
    ensures { IfOk result (λ v. v.items ≡ put_members path.now []) }
{
    let mut goals = Vec::new(alloc);
    for served in path {
        match served.server {
            Server::Head(_) => {}
            Server::Member(k) => put(&mut goals, k, served.goal.clone()?),
            Server::New(_) => goals.push(served.goal.clone()?)?,
        }
    }
    Ok(goals)
}

/// Adds what is placed in these cells to what is placed before, each with its slot.
fn add_placed(
    naming: Naming,
    goals: Vec<Goal>,
    cells: &[u32],
    placed: &mut Vec<Placed>,
    before: &mut Vec<u32>,
) -> Result<(), Memory>
    requires same { length goals.items ≡ length cells.now }
    requires few { length before.old.items + length cells.now < 2 ^ 32 }
    ensures placed { OnOk result (map placed_view placed.new.items ≡ map placed_view placed.old.items
        ++ placed_from (naming_view naming) (length before.old.items) (reverse before.old.items) cells.now
        goals.items) }
    ensures before { OnOk result (before.new.items ≡ before.old.items ++ cells.now) }
{
    let mut index = 0;
    for goal in goals {
        let cell = cells[index];
        placed.push(Placed {
            slot: naming.slot(before.as_slice(), cell),
            goal,
        })?;
        before.push(cell)?;
        index += 1;
    }
    Ok(())
}

fn numbers(alloc: Global, count: u32) -> Result<Vec<u32>, Memory>
    ensures { IfOk result (λ v. v.items ≡ range_with_len 0 count) }
{
    let mut numbers = Vec::with_capacity(alloc, count as usize)?;
    for k in 0..count {
        numbers.push(k)?;
    }
    Ok(numbers)
}

/// What the plan of a path places, of which these are the goals of first places that serve nothing.
fn placed(
    alloc: Global,
    naming: Naming,
    path: &[Served],
    first: &[Goal],
) -> Result<PlacedList, Memory>
    requires { length first.now + length path.now < 2 ^ 32 }
    ensures { IfOk result (λ l. l ≡ placed_from (naming_view naming) 0 [] (range_with_len 0 (length first.now))
        (put_heads path.now first.now)
        ++ placed_from (naming_view naming) (length first.now) (reverse (range_with_len 0 (length first.now)))
        (cells_of (servers_of path.now)) (put_members path.now [])) }
{
    let mut placed = Vec::new(alloc);
    let mut before = Vec::new(alloc);
    let heads = head_goals(alloc, path, first)?;
    let numbers = numbers(alloc, first.len() as u32)?;
    add_placed(naming, heads, numbers.as_slice(), &mut placed, &mut before)?;
    let members = member_goals(alloc, path)?;
    let cells = path::cells(alloc, path)?;
    add_placed(naming, members, cells.as_slice(), &mut placed, &mut before)?;
    Ok(PlacedList::from_vec(placed))
}

/// How many the plan of such a size doesn't place.
fn need<F: PlanFrame>(frame: &F, size: u64, extent: Extent) -> u32
    requires size { size ≡ size_of (F.frame frame.now) extent.used extent.members }
    requires lower { (F.frame frame.now).lower ≤ most_counts }
    requires floor { (F.frame frame.now).floor ≤ most_counts }
    requires used { extent.used ≤ (F.frame frame.now).heads }
    requires members { extent.members ≤ 2 ^ 63 }
    ensures { result ≡ max (F.frame frame.now).lower size - ((F.frame frame.now).heads + extent.members) }
{
    let total = size.max(u64::from(frame.lower()));
    let placed = u64::from(frame.heads()) + extent.members as u64;
    total.saturating_sub(placed) as u32
}

/// What may be added in a cell, if it has room, by the goal of what serves nothing there.
fn filler<F: PlanFrame>(
    frame: &F,
    naming: Naming,
    placed: usize,
    members: &[u32],
    cell: u32,
    goal: &Option<Goal>,
) -> Result<Option<Filler>, Memory>
    requires placed { placed < 2 ^ 32 }
    requires members { length members.now < 2 ^ 32 }
    requires goal { goal.now ≡ filler_goal (F.table frame.now) (F.frame frame.now) cell }
    ensures { IfOk result (λ o. map filler_view (option_to_list o) ≡ map (filling_of (naming_view naming) placed)
        (filler_in (F.table frame.now) (F.frame frame.now) members.now cell)) }
{
    let first = count(members, cell);
    let room = frame.room(cell, first);
    if room == 0 {
        return Ok(None);
    }
    match goal {
        Some(goal) => Ok(Some(Filler {
            goal: goal.clone()?,
            room,
            slot: naming.filling(placed, cell, first),
        })),
        None => Ok(None),
    }
}

/// What may be added where some are needed; only there the goals of cells are formed.
fn fillers<F: PlanFrame>(
    alloc: Global,
    frame: &F,
    naming: Naming,
    need: u32,
    placed: usize,
    members: &[u32],
    goals: &mut Vec<Option<Goal>>,
) -> Result<FillerList, Memory>
    requires placed { placed < 2 ^ 32 }
    requires members { length members.now < 2 ^ 32 }
    requires goals { AreFillers (F.table frame.now) (F.frame frame.now) goals.old.items }
    ensures fillers { IfOk result (λ l. l ≡ map (filling_of (naming_view naming) placed) (cond (nat_eq need 0) []
        (flat_map (filler_in (F.table frame.now) (F.frame frame.now) members.now) (F.frame frame.now).cells))) }
    ensures goals { OnOk result (AreFillers (F.table frame.now) (F.frame frame.now) goals.new.items) }
{
    let mut fillers = Vec::new(alloc);
    if need == 0 {
        return Ok(FillerList::from_vec(fillers));
    }
    form_fillers(alloc, frame, goals)?;
    for (k, cell) in frame.cells().iter().enumerate() {
        if let Some(filler) = filler(frame, naming, placed, members, *cell, &goals[k])? {
            fillers.push(filler)?;
        }
    }
    Ok(FillerList::from_vec(fillers))
}

/// The alternative of the complete plan of a path, of which these are the goals of first places that serve nothing, and
/// those of fillers as far as they were formed.
pub(crate) fn alternative<F: PlanFrame>(
    alloc: Global,
    frame: &F,
    naming: Naming,
    branch: BranchId,
    path: &[Served],
    first: &[Goal],
    filler_goals: &mut Vec<Option<Goal>>,
) -> Result<Alternative, Memory>
    requires path { IsPath (F.table frame.now) (F.frame frame.now) path.now }
    requires first { AreFirst (F.table frame.now) (F.frame frame.now) 0 first.now }
    requires fillers { AreFillers (F.table frame.now) (F.frame frame.now) filler_goals.old.items }
    requires placed { placed_heads (F.frame frame.now) (servers_of path.now) ≤ length first.now }
    requires small { IsSmall (F.frame frame.now) }
    ensures made { IfOk result (λ a. alternative_view a ≡ plan_alternative (naming_view naming) (kind_view branch.kind)
        branch.number (F.table frame.now) (F.frame frame.now) (plan_after (F.frame frame.now) (servers_of path.now))) }
    ensures fillers { OnOk result (AreFillers (F.table frame.now) (F.frame frame.now) filler_goals.new.items) }
{
    let extent = Extent::of(path);
    let size = size(frame, extent);
    let need = need(frame, size, extent);
    let count = size.min(u64::from(frame.heads())) as usize;
    let cells = path::cells(alloc, path)?;
    let fillers = fillers(
        alloc,
        frame,
        naming,
        need,
        count + extent.members,
        cells.as_slice(),
        filler_goals,
    )?;
    let members = placed(alloc, naming, path, &first[..count])?;
    Ok(Alternative {
        branch,
        shape: naming.shape(),
        members,
        need,
        fillers,
    })
}

/// Goes through the whole tree; `LimitPlans` exactly where it has more ends than a tree may have.
fn see_all<F: PlanFrame>(alloc: Global, frame: &F, walk: &mut PlanWalk) -> Result<(), PlanFault>
    requires { IsWalk (F.table frame.now) (F.frame frame.now) walk.old }
    ensures few { OnOk result
        (walk.old.ends + ends (left (F.table frame.now) (F.frame frame.now) walk.old) ≤ most_plans) }
    ensures walk { OnOk result (IsWalk (F.table frame.now) (F.frame frame.now) walk.new) }
    ensures limit { IfErr result (λ fault. fault ≡ PlanFault.LimitPlans
        → most_plans < walk.old.ends + ends (left (F.table frame.now) (F.frame frame.now) walk.old)) }
{
    while let Some(_step) = walk.next(alloc, frame)? {}
    Ok(())
}

/// Adds the alternative of the step that was given last, if it is a complete plan.
fn add_told<F: PlanFrame>(
    alloc: Global,
    frame: &F,
    naming: Naming,
    branch: BranchId,
    walk: &PlanWalk,
    step: PlanStep,
    filler_goals: &mut Vec<Option<Goal>>,
    alternatives: &mut Vec<Alternative>,
) -> Result<(), Memory>
    requires walk { IsWalk (F.table frame.now) (F.frame frame.now) walk.now }
    requires placed { step ≡ PlanStep.Complete
        → placed_heads (F.frame frame.now) (servers_of walk.now.path.items) ≤ length walk.now.first.items }
    requires small { IsSmall (F.frame frame.now) }
    requires fillers { AreFillers (F.table frame.now) (F.frame frame.now) filler_goals.old.items }
    ensures added { OnOk result (map alternative_view alternatives.new.items ≡ map alternative_view alternatives.old.items
        ++ map (plan_alternative (naming_view naming) (kind_view branch.kind) branch.number (F.table frame.now)
        (F.frame frame.now)) (told_plans (F.frame frame.now) (servers_of walk.now.path.items) step)) }
    ensures fillers { OnOk result (AreFillers (F.table frame.now) (F.frame frame.now) filler_goals.new.items) }
{
    if let PlanStep::Complete = step {
        let path = walk.path();
        let alternative = alternative(
            alloc,
            frame,
            naming,
            branch,
            path,
            walk.first(),
            filler_goals,
        )?;
        alternatives.push(alternative)?;
    }
    Ok(())
}

/// The alternatives of the complete plans that are left, none where they would hold more than [`MOST_UNCOUNTED`] goals
/// or so. `LimitPlans` only where the whole tree has more ends than a tree may have.
fn collect_few<F: PlanFrame>(
    alloc: Global,
    frame: &F,
    naming: Naming,
    branch: BranchId,
    walk: &mut PlanWalk,
) -> Result<Option<Vec<Alternative>>, PlanFault>
    requires walk { IsWalk (F.table frame.now) (F.frame frame.now) walk.old }
    requires small { IsSmall (F.frame frame.now) }
    ensures made { IfOk result (λ o. IfSome o (λ v. map alternative_view v.items
        ≡ map (plan_alternative (naming_view naming) (kind_view branch.kind) branch.number (F.table frame.now)
        (F.frame frame.now)) (complete (left (F.table frame.now) (F.frame frame.now) walk.old)))) }
    ensures few { IfOk result (λ o. IfSome o (λ _.
        walk.old.ends + ends (left (F.table frame.now) (F.frame frame.now) walk.old) ≤ most_plans)) }
    ensures walk { OnOk result (IsWalk (F.table frame.now) (F.frame frame.now) walk.new) }
    ensures ends { OnOk result (walk.new.ends + ends (left (F.table frame.now) (F.frame frame.now) walk.new)
        ≡ walk.old.ends + ends (left (F.table frame.now) (F.frame frame.now) walk.old)) }
    ensures limit { IfErr result (λ fault. fault ≡ PlanFault.LimitPlans
        → most_plans < walk.old.ends + ends (left (F.table frame.now) (F.frame frame.now) walk.old)) }
{
    let mut filler_goals = Vec::new(alloc);
    let mut alternatives = Vec::new(alloc);
    while let Some(step) = walk.next(alloc, frame)? {
        let placed = walk.first().len().saturating_add(walk.path().len());
        let each = placed.saturating_add(frame.cells().len());
        if alternatives.len().saturating_mul(each) > MOST_UNCOUNTED {
            return Ok(None);
        }
        add_told(
            alloc,
            frame,
            naming,
            branch,
            walk,
            step,
            &mut filler_goals,
            &mut alternatives,
        )?;
    }
    Ok(Some(alternatives))
}

/// The alternatives of the complete plans that are left.
fn collect<F: PlanFrame>(
    alloc: Global,
    frame: &F,
    naming: Naming,
    branch: BranchId,
    walk: &mut PlanWalk,
) -> Result<Vec<Alternative>, Memory>
    requires walk { IsCounted (F.table frame.now) (F.frame frame.now) walk.old }
    requires small { IsSmall (F.frame frame.now) }
    ensures { IfOk result (λ v. map alternative_view v.items ≡ map (plan_alternative (naming_view naming)
        (kind_view branch.kind) branch.number (F.table frame.now) (F.frame frame.now))
        (complete (left (F.table frame.now) (F.frame frame.now) walk.old))) }
{
    let mut filler_goals = Vec::new(alloc);
    let mut alternatives = Vec::new(alloc);
    while let Some(step) = walk.step(alloc, frame)? {
        add_told(
            alloc,
            frame,
            naming,
            branch,
            walk,
            step,
            &mut filler_goals,
            &mut alternatives,
        )?;
    }
    Ok(alternatives)
}

/// The alternatives of the complete plans of a frame, in order, as those of a branch. `LimitPlans` exactly where the
/// tree of plans has more than 65,536 ends, dropped plans included.
///
/// Few alternatives are made in one walk; where there are more, it only counts the ends that are left, and a second one
/// makes all alternatives. A step costs the goal of what serves its demand; the goals of first places and of fillers,
/// which serve nothing, are formed once.
pub fn plan_alternatives<F: PlanFrame>(
    alloc: Global,
    frame: &F,
    naming: Naming,
    branch: BranchId,
) -> Result<AlternativeList, PlanFault>
    requires lower { (F.frame frame.now).lower ≤ most_counts }
    requires floor { (F.frame frame.now).floor ≤ most_counts }
    ensures { Answers (plan_alternative (naming_view naming) (kind_view branch.kind) branch.number (F.table frame.now))
        (F.table frame.now) (F.frame frame.now) result }
{
    // Slots have numbers of 32 bits; so many demands or first places would not fit in memory.
    if u64::from(frame.heads()) + frame.demands().len() as u64 >= 1 << 32 {
        return Err(PlanFault::Memory);
    }
    let mut walk = PlanWalk::new(alloc)?;
    if let Some(few) = collect_few(alloc, frame, naming, branch, &mut walk)? {
        return Ok(AlternativeList::from_vec(few));
    }
    see_all(alloc, frame, &mut walk)?;
    walk.begin()?;
    let alternatives = collect(alloc, frame, naming, branch, &mut walk)?;
    Ok(AlternativeList::from_vec(alternatives))
}
