//! What may serve the next demand after a path, one choice at a time.
//!
//! Choices are found and never listed, as a frame may have many first places.

ghost use Rattle.std.specs.Prelude.{◌≡◌, ◌<◌, ◌≤◌, ◌++◌, drop, length, get_or, not, true, IfSome};
ghost use Rattle.goals.specs.Signed as G;
ghost use Rattle.frames.specs.Fillers.{times};
ghost use Rattle.frames.specs.Frame.{is_at_end};
ghost use Rattle.js_plans.specs.Servers.{cells_of, is_valid};
ghost use Rattle.js_plans.specs.Choosing.{serving_cells, open_cells};
ghost use Rattle.js_check_plans.specs.Slots.{choices_from, choices_at, with_rest, with_rest_at};

use crate::check_frame::CheckFrame;
use crate::members::Members;
use crate::path::Path;
use js_plans::Server;

/// What is tried for a demand, in this order: what is at each first place, each member, and a new member in each cell,
/// given by its place in the list of cells.
#[derive(Clone, Copy)]
pub(crate) enum Slot {
    Head(u32),
    Member(usize),
    Cell(usize),
}

/// What may serve a demand, and from where on others are found.
#[derive(Clone, Copy)]
pub(crate) struct Choice {
    pub server: Server,
    pub rest: Slot,
}

/// The first choice from a slot on, if there is one.
pub(crate) fn first_choice<F: CheckFrame>(frame: &F, path: &Path, slot: Slot) -> Option<Choice>
    requires { length path.now.servers.items < length (F.frame frame.now).demands }
    ensures choices { with_rest_at (F.frame frame.now) path.now.servers.items result
        ≡ choices_at (F.frame frame.now) path.now.servers.items slot }
    ensures valid { IfSome result (λ choice. is_valid (F.frame frame.now).heads
        (length (cells_of path.now.servers.items)) choice.server ≡ true) }
{
    first_from(frame, path.len(), path.members(), slot)
}

/// The first choice from a slot on, with members in these cells.
fn first_from<F: CheckFrame>(
    frame: &F,
    demand: usize,
    members: &Members,
    slot: Slot,
) -> Option<Choice>
    requires { demand < length (F.frame frame.now).demands }
    ensures choices { with_rest (F.frame frame.now) (get_or (F.frame frame.now).demands demand (G.Plus 0))
        members.now.cells.items result ≡ choices_from (F.frame frame.now) (get_or (F.frame frame.now).demands demand
        (G.Plus 0)) members.now.cells.items slot }
    ensures valid { IfSome result (λ choice. is_valid (F.frame frame.now).heads (length members.now.cells.items)
        choice.server ≡ true) }
{
    match slot {
        Slot::Head(k) => {
            if k < frame.heads() {
                Some(Choice {
                    server: Server::Head(k),
                    rest: Slot::Head(k + 1),
                })
            } else {
                first_member(frame, demand, members, 0)
            }
        }
        Slot::Member(k) => first_member(frame, demand, members, k),
        Slot::Cell(i) => first_new(frame, demand, members, i),
    }
}

/// The first choice among the members from a number on, or among new ones.
fn first_member<F: CheckFrame>(
    frame: &F,
    demand: usize,
    members: &Members,
    from: usize,
) -> Option<Choice>
    requires { demand < length (F.frame frame.now).demands }
    ensures choices { with_rest (F.frame frame.now) (get_or (F.frame frame.now).demands demand (G.Plus 0))
        members.now.cells.items result ≡ serving_cells (F.frame frame.now) (get_or (F.frame frame.now).demands demand
        (G.Plus 0)) from (drop from members.now.cells.items) ++ open_cells (F.frame frame.now) (get_or (F.frame
        frame.now).demands demand (G.Plus 0)) members.now.cells.items (F.frame frame.now).cells }
    ensures valid { IfSome result (λ choice. is_valid (F.frame frame.now).heads (length members.now.cells.items)
        choice.server ≡ true) }
{
    for k in from..members.cells.len() {
        if frame.is_inside(demand, members.cells[k]) {
            return Some(Choice {
                server: Server::Member(k),
                rest: Slot::Member(k + 1),
            });
        }
    }
    first_new(frame, demand, members, 0)
}

/// The first choice among new members, in the cells from a place on.
fn first_new<F: CheckFrame>(
    frame: &F,
    demand: usize,
    members: &Members,
    from: usize,
) -> Option<Choice>
    requires { demand < length (F.frame frame.now).demands }
    ensures choices { with_rest (F.frame frame.now) (get_or (F.frame frame.now).demands demand (G.Plus 0))
        members.now.cells.items result ≡ open_cells (F.frame frame.now) (get_or (F.frame frame.now).demands demand
        (G.Plus 0)) members.now.cells.items (drop from (F.frame frame.now).cells) }
    ensures valid { IfSome result (λ choice. is_valid (F.frame frame.now).heads (length members.now.cells.items)
        choice.server ≡ true) }
{
    let cells = frame.cells();
    for i in from..cells.len() {
        let cell = cells[i];
        if frame.is_inside(demand, cell) && has_room(frame.cap(cell), members, cell) {
            return Some(Choice {
                server: Server::New(cell),
                rest: Slot::Cell(i + 1),
            });
        }
    }
    None
}

fn has_room(cap: Option<u32>, members: &Members, cell: u32) -> bool
    ensures { result ≡ not (is_at_end (times cell members.now.cells.items) cap) }
{
    match cap {
        Some(cap) => members.count(cell) < cap as usize,
        None => true,
    }
}
