//! What may serve the next demand after a path.

ghost use Rattle.std.specs.Prelude.{◌≡◌, ◌<◌, ◌≤◌, ◌-◌, ◌++◌, map, min, length, get_or, false, not, IfOk, OnOk};
ghost use Rattle.std.specs.List.{range_with_len};
ghost use Rattle.goals.specs.Signed as G;
ghost use Rattle.frames.specs.Fillers.{times};
ghost use Rattle.frames.specs.Frame.{is_at_end};
ghost use Rattle.js_plans.specs.declared.server.Server.TheVariants as V;
ghost use Rattle.js_plans.specs.Choosing.{serving_cells, open_cells, choices_at};

use crate::plan_frame::PlanFrame;
use crate::server::Server;
use js_doc::Memory;
use std::alloc::Global;

/// What may serve the demand of that number, where the members stand in these cells: what stands at each first place,
/// each member inside, and a new member in each cell inside that has room. It costs a look at each member and cell.
pub fn choices_at<F: PlanFrame>(
    alloc: Global,
    frame: &F,
    demand: usize,
    members: &[u32],
) -> Result<Vec<Server>, Memory>
    requires { demand < length (F.frame frame.now).demands }
    ensures { IfOk result (λ v. v.items ≡ choices_at (F.frame frame.now) demand members.now) }
{
    let mut choices = Vec::new(alloc);
    add_heads(frame.heads(), &mut choices)?;
    add_members(frame, demand, members, &mut choices)?;
    add_new(frame, demand, members, &mut choices)?;
    Ok(choices)
}

fn add_heads(heads: u32, choices: &mut Vec<Server>) -> Result<(), Memory>
    ensures { OnOk result (choices.new.items ≡ choices.old.items ++ map V.Head (range_with_len 0 heads)) }
{
    for k in 0..heads {
        choices.push(Server::Head(k))?;
    }
    Ok(())
}

fn add_members<F: PlanFrame>(
    frame: &F,
    demand: usize,
    members: &[u32],
    choices: &mut Vec<Server>,
) -> Result<(), Memory>
    requires { demand < length (F.frame frame.now).demands }
    ensures { OnOk result (choices.new.items ≡ choices.old.items
        ++ serving_cells (F.frame frame.now) (get_or (F.frame frame.now).demands demand (G.Plus 0)) 0 members.now) }
{
    let inside = frame.inside(demand);
    for (k, cell) in members.iter().enumerate() {
        if is_inside(inside, *cell) {
            choices.push(Server::Member(k))?;
        }
    }
    Ok(())
}

fn add_new<F: PlanFrame>(
    frame: &F,
    demand: usize,
    members: &[u32],
    choices: &mut Vec<Server>,
) -> Result<(), Memory>
    requires { demand < length (F.frame frame.now).demands }
    ensures { OnOk result (choices.new.items ≡ choices.old.items
        ++ open_cells (F.frame frame.now) (get_or (F.frame frame.now).demands demand (G.Plus 0)) members.now
        (F.frame frame.now).cells) }
{
    let inside = frame.inside(demand);
    for cell in frame.cells() {
        if is_inside(inside, *cell) && has_room(frame.cap(*cell), members, *cell) {
            choices.push(Server::New(*cell))?;
        }
    }
    Ok(())
}

/// Whether a cell is inside: the last truth is that of all further cells.
fn is_inside(inside: &[bool], cell: u32) -> bool
    requires { 0 < length inside.now }
    ensures { result ≡ get_or inside.now (min cell (length inside.now - 1)) false }
{
    inside[(cell as usize).min(inside.len() - 1)]
}

fn has_room(cap: Option<u32>, members: &[u32], cell: u32) -> bool
    ensures { result ≡ not (is_at_end (times cell members.now) cap) }
{
    match cap {
        Some(cap) => count(members, cell) < cap as usize,
        None => true,
    }
}

/// How many of the cells are that one.
pub fn count(cells: &[u32], cell: u32) -> usize
    ensures value { result ≡ times cell cells.now }
    ensures bound { result ≤ length cells.now }
{
    let mut count = 0;
    for other in cells {
        if *other == cell {
            count += 1;
        }
    }
    count
}
