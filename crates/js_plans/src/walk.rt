//! The steps of the tree of plans, one after another in pre-order.
//!
//! Plans still to be visited are in a list, the next one last, each as what serves the next demand after the first part
//! of the path. Each has at least one end, so the tree has too many as soon as the ends that were given and the plans
//! that are left are too many; this bounds the list too.

ghost use Rattle.std.specs.Prelude.{◌≡◌, List, ◌<◌, ◌≤◌, ◌+◌, ◌^◌, ◌++◌, [], ◌∷◌, length, reverse, map, true, false, None, IfOk, IfErr, OnOk, IfSome, MatchOption, IsNone};
ghost use Rattle.positions.specs.Position.{Position};
ghost use Rattle.frames.specs.Frame.{Frame, is_at_end};
ghost use Rattle.frames.specs.Plan.{size, ends, plan_steps};
ghost use Rattle.js_plans.specs.Serving.{plan_after, steps_after};
ghost use Rattle.js_plans.specs.Servers.{with_cell, most_used, cells_of, servers_of, AreExtents};
ghost use Rattle.js_plans.specs.Choosing.{choices_after};
ghost use Rattle.js_plans.specs.Goals.{AreFirst};
ghost use Rattle.js_plans.specs.Walks.{most_plans, size_of, listed, placed_heads, IsPath, Fits, entries, left, IsWalk, is_end, one_more, entry, AreFine, IsDropped, IsClash, GoesOn, Opens, Visits, Tells, IsCounted, AfterStep};

use crate::choices::choices_at;
use crate::fault::PlanFault;
use crate::formed::{form_first, goal_after};
use crate::path::{Extent, Served};
use crate::plan_frame::PlanFrame;
use crate::server::Server;
use js_algebra::Goal;
use js_doc::Memory;
use std::alloc::Global;

/// The most ends of a tree of plans, dropped plans included.
pub const MOST_PLANS: usize = 65_536;

/// What the tree has at a plan.
#[derive(Clone, Copy, PartialEq, Eq, Debug)]
pub enum PlanStep {
    /// The plan places more than there may be.
    Over,
    /// What is placed somewhere clashes.
    Clashing,
    /// The next demand can be served in so many ways.
    Split(usize),
    Complete,
}

/// A plan still to be visited: the demands that the first `level` of the path serve, and the next one by `server`. The
/// plan that serves nothing has none.
#[derive(Clone, Copy)]
struct Pending {
    level: usize,
    server: Option<Server>,
}

/// A walk through the tree of plans of a frame, of which some steps were given; `left` are the others. All its calls
/// are to be given the same frame.
#[derive(Drop)]
pub struct PlanWalk {
    path: Vec<Served>,
    /// The cells of the members of the path, in order.
    cells: Vec<u32>,
    /// The goals of the first places that serve nothing, as far as they were formed.
    first: Vec<Goal>,
    pending: Vec<Pending>,
    ends: usize,
}

impl PlanWalk {
    /// A walk of which no step was given, through the tree of whatever frame it is given.
    pub fn new(alloc: Global) -> Result<PlanWalk, Memory>
        ensures walk { IfOk result (λ w. (T : List Position) (frame : Frame) → IsWalk T frame w) }
        ensures left { IfOk result (λ w. (T : List Position) (frame : Frame) → left T frame w ≡ plan_steps T frame) }
        ensures ends { IfOk result (λ w. w.ends ≡ 0) }
    {
        let mut walk = PlanWalk {
            path: Vec::new(alloc),
            cells: Vec::new(alloc),
            first: Vec::new(alloc),
            pending: Vec::new(alloc),
            ends: 0,
        };
        walk.begin()?;
        Ok(walk)
    }

    /// Begins again, for the same frame: the goals of first places that were formed are kept.
    pub fn begin(&mut self) -> Result<(), Memory>
        ensures walk { OnOk result ((T : List Position) (frame : Frame) → AreFirst T frame 0 self.old.first.items
            → IsWalk T frame self.new) }
        ensures left { OnOk result ((T : List Position) (frame : Frame) → left T frame self.new ≡ plan_steps T frame) }
        ensures ends { OnOk result (self.new.ends ≡ 0) }
    {
        self.path.clear();
        self.cells.clear();
        self.pending.clear();
        self.ends = 0;
        self.pending.push(Pending {
            level: 0,
            server: None,
        })?;
        Ok(())
    }

    /// The next step of the tree, none at its end. `LimitPlans` only where the whole tree has more than [`MOST_PLANS`]
    /// ends, and before more of them are given.
    pub fn next<F: PlanFrame>(
        &mut self,
        alloc: Global,
        frame: &F,
    ) -> Result<Option<PlanStep>, PlanFault>
        requires { IsWalk (F.table frame.now) (F.frame frame.now) self.old }
        ensures told { IfOk result (λ step. MatchOption step
            (left (F.table frame.now) (F.frame frame.now) self.old ≡ [])
            (λ s. Tells (F.table frame.now) (F.frame frame.now) self.old self.new s)) }
        ensures end { IfOk result (λ step. IsNone step → (left (F.table frame.now) (F.frame frame.now) self.new ≡ [])
            × (self.new.ends ≡ self.old.ends)) }
        ensures walk { OnOk result (IsWalk (F.table frame.now) (F.frame frame.now) self.new) }
        ensures limit { IfErr result (λ fault. fault ≡ PlanFault.LimitPlans
            → most_plans < self.old.ends + ends (left (F.table frame.now) (F.frame frame.now) self.old)) }
    {
        let next = match self.pending.pop() {
            Some(next) => next,
            None => return Ok(None),
        };
        self.path.truncate(next.level);
        let extent = Extent::of(self.path.as_slice());
        self.cells.truncate(extent.members);
        let step = self.visit(alloc, frame, next.server)?;
        self.ends = with_end(self.ends, step);
        if self.ends + self.pending.len() > MOST_PLANS {
            return Err(PlanFault::LimitPlans);
        }
        Ok(Some(step))
    }

    /// The next step of a tree of which the ends were counted: an error is want of memory.
    pub(crate) fn step<F: PlanFrame>(
        &mut self,
        alloc: Global,
        frame: &F,
    ) -> Result<Option<PlanStep>, Memory>
        requires { IsCounted (F.table frame.now) (F.frame frame.now) self.old }
        ensures next { IfOk result (λ o. AfterStep (F.table frame.now) (F.frame frame.now) self.old self.new o) }
        ensures walk { OnOk result (IsCounted (F.table frame.now) (F.frame frame.now) self.new) }
    {
        match self.next(alloc, frame) {
            Ok(step) => Ok(step),
            Err(_) => Err(Memory),
        }
    }

    /// The demands that the plan of the step that was given last serves.
    pub(crate) fn path(&self) -> &[Served]
        ensures { result.now ≡ self.now.path.items }
    {
        self.path.as_slice()
    }

    /// The goals of first places that serve nothing.
    pub(crate) fn first(&self) -> &[Goal]
        ensures { result.now ≡ self.now.first.items }
    {
        self.first.as_slice()
    }

    /// The step of the plan of the path and what serves the next demand; the plans of its options are still to be
    /// visited.
    fn visit<F: PlanFrame>(
        &mut self,
        alloc: Global,
        frame: &F,
        server: Option<Server>,
    ) -> Result<PlanStep, Memory>
        requires path { IsPath (F.table frame.now) (F.frame frame.now) self.old.path.items }
        requires cells { self.old.cells.items ≡ cells_of (servers_of self.old.path.items) }
        requires first { AreFirst (F.table frame.now) (F.frame frame.now) 0 self.old.first.items }
        requires fits { Fits (F.frame frame.now) (servers_of self.old.path.items) server }
        requires fine { AreFine (F.frame frame.now) (servers_of self.old.path.items) (reverse self.old.pending.items) }
        ensures visits { IfOk result (λ s. Visits (F.table frame.now) (F.frame frame.now) server self.old self.new s) }
        ensures ends { self.new.ends ≡ self.old.ends }
    {
        let path = self.path.as_slice();
        if let Some(step) = place_first(alloc, frame, path, server, &mut self.first)? {
            return Ok(step);
        }
        if !serve(alloc, frame, &mut self.path, &mut self.cells, server)? {
            return Ok(PlanStep::Clashing);
        }
        let members = self.cells.as_slice();
        open(
            alloc,
            frame,
            self.path.as_slice(),
            members,
            &mut self.pending,
        )
    }
}

/// Whether so many are too many.
pub fn is_at_end(count: u64, below: Option<u128>) -> bool
    ensures { result ≡ is_at_end count below }
{
    match below {
        Some(below) => below <= u128::from(count),
        None => false,
    }
}

/// How far the plan of a path and a server reaches.
fn extent_after(path: &[Served], server: Option<Server>) -> Extent
    requires few { length path.now < 2 ^ 63 }
    requires extents { AreExtents [] path.now }
    ensures used { result.used ≡ most_used 0 (servers_of path.now ++ listed server) }
    ensures members { result.members ≡ length (cells_of (servers_of path.now ++ listed server)) }
    ensures few { result.members ≤ length path.now + 1 }
{
    let extent = Extent::of(path);
    match server {
        Some(server) => extent.with(server),
        None => extent,
    }
}

/// How many a plan of that extent has at least.
pub fn size<F: PlanFrame>(frame: &F, extent: Extent) -> u64
    requires { extent.members ≤ 2 ^ 63 }
    ensures { result ≡ size_of (F.frame frame.now) extent.used extent.members }
{
    let members = match extent.members {
        0 => 0,
        members => u64::from(frame.heads()) + members as u64,
    };
    u64::from(frame.floor()).max(extent.used.max(members))
}

/// Forms the goals of the first places of the plan of the path and the server, as if they served nothing. A step is
/// what the plan is dropped for.
fn place_first<F: PlanFrame>(
    alloc: Global,
    frame: &F,
    path: &[Served],
    server: Option<Server>,
    first: &mut Vec<Goal>,
) -> Result<Option<PlanStep>, Memory>
    requires path { IsPath (F.table frame.now) (F.frame frame.now) path.now }
    requires first { AreFirst (F.table frame.now) (F.frame frame.now) 0 first.old.items }
    requires fits { Fits (F.frame frame.now) (servers_of path.now) server }
    ensures first { OnOk result (AreFirst (F.table frame.now) (F.frame frame.now) 0 first.new.items) }
    ensures dropped { IfOk result (λ o. IfSome o (λ s. IsDropped (F.table frame.now) (F.frame frame.now)
        (servers_of path.now ++ listed server) s)) }
    ensures kept { IfOk result (λ o. o ≡ None
        → (is_at_end (size (F.frame frame.now) (plan_after (F.frame frame.now) (servers_of path.now ++ listed server)))
        (F.frame frame.now).below ≡ false)
        × (placed_heads (F.frame frame.now) (servers_of path.now ++ listed server) ≤ length first.new.items)) }
{
    let size = size(frame, extent_after(path, server));
    if is_at_end(size, frame.below()) {
        return Ok(Some(PlanStep::Over));
    }
    let count = size.min(u64::from(frame.heads())) as u32;
    if form_first(alloc, frame, first, count)? {
        Ok(None)
    } else {
        Ok(Some(PlanStep::Clashing))
    }
}

/// Adds the cell of a new member.
pub fn add_cell(cells: &mut Vec<u32>, server: Server) -> Result<(), Memory>
    ensures { OnOk result (cells.new.items ≡ cells.old.items ++ with_cell server []) }
{
    if let Server::New(cell) = server {
        cells.push(cell)?;
    }
    Ok(())
}

/// Adds the server to the path with its goal, and the cell of a new member. False says that its list clashes.
fn serve<F: PlanFrame>(
    alloc: Global,
    frame: &F,
    path: &mut Vec<Served>,
    cells: &mut Vec<u32>,
    server: Option<Server>,
) -> Result<bool, Memory>
    requires path { IsPath (F.table frame.now) (F.frame frame.now) path.old.items }
    requires cells { cells.old.items ≡ cells_of (servers_of path.old.items) }
    requires fits { Fits (F.frame frame.now) (servers_of path.old.items) server }
    ensures served { IfOk result (λ b. b ≡ true
        → GoesOn (F.table frame.now) (F.frame frame.now) path.old.items path.new.items server) }
    ensures clash { IfOk result (λ b. b ≡ false → (path.new ≡ path.old)
        × IsClash (F.table frame.now) (F.frame frame.now) (servers_of path.old.items) server) }
    ensures cells { OnOk result (cells.new.items ≡ cells_of (servers_of path.new.items)) }
{
    let server = match server {
        Some(server) => server,
        None => return Ok(true),
    };
    match goal_after(alloc, frame, path.as_slice(), server)? {
        Some(goal) => {
            let extent = Extent::of(path.as_slice()).with(server);
            path.push(Served {
                server,
                goal,
                extent,
            })?;
            add_cell(cells, server)?;
            Ok(true)
        }
        None => Ok(false),
    }
}

/// The step of the plan of the path, which isn't dropped. The plans of its options are still to be visited.
fn open<F: PlanFrame>(
    alloc: Global,
    frame: &F,
    path: &[Served],
    members: &[u32],
    pending: &mut Vec<Pending>,
) -> Result<PlanStep, Memory>
    requires few { length path.now ≤ length (F.frame frame.now).demands }
    requires members { members.now ≡ cells_of (servers_of path.now) }
    ensures { IfOk result (λ s. Opens (F.frame frame.now) (servers_of path.now) pending.old.items pending.new.items s) }
{
    if path.len() == frame.demands().len() {
        return Ok(PlanStep::Complete);
    }
    let options = options(alloc, frame, path, members)?;
    let count = options.len();
    add_pending(path.len(), options, pending)?;
    Ok(PlanStep::Split(count))
}

/// What may serve the next demand after the path, whose members stand in these cells.
fn options<F: PlanFrame>(
    alloc: Global,
    frame: &F,
    path: &[Served],
    members: &[u32],
) -> Result<Vec<Server>, Memory>
    requires left { length path.now < length (F.frame frame.now).demands }
    requires members { members.now ≡ cells_of (servers_of path.now) }
    ensures { IfOk result (λ v. v.items ≡ choices_after (F.frame frame.now) (servers_of path.now)) }
{
    choices_at(alloc, frame, path.len(), members)
}

/// Adds plans still to be visited, the first one next.
fn add_pending(level: usize, servers: Vec<Server>, pending: &mut Vec<Pending>) -> Result<(), Memory>
    ensures { OnOk result (reverse pending.new.items ≡ map (entry level) servers.items ++ reverse pending.old.items) }
{
    let mut servers = servers;
    while let Some(server) = servers.pop() {
        pending.push(Pending {
            level,
            server: Some(server),
        })?;
    }
    Ok(())
}

/// The ends that were given, with the step if it is one.
fn with_end(told: usize, step: PlanStep) -> usize
    requires { told ≤ most_plans }
    ensures { result ≡ one_more (is_end step) told }
{
    match step {
        PlanStep::Split(options) if options > 0 => told,
        _ => told + 1,
    }
}
