//! What is counted of the alternatives of a goal.

ghost use Rattle.std.specs.Prelude.{◌≡◌, ◌<◌, ◌≤◌, ◌^◌, ◌+◌, ◌-◌, ◌&&◌, not, true, cond, map, length, slice_get, IfOk};
ghost use Rattle.search.specs.Rounds.{first_place};
ghost use Rattle.js_explore.specs.NumberedView.{numbered_view};
ghost use Rattle.js_waiting.specs.Counts.{change, count_in, is_ready, place_in, ready_in, waits, counts_of};

use crate::place::Place;
use js_doc::Memory;
use js_explore::Numbered;
use std::alloc::Global;
use std::marker::Model;

/// What is counted of an alternative.
#[derive(Drop)]
struct Counts {
    need: u32,
    places: Vec<Place>,
    /// How many members weren't counted.
    members: usize,
    /// How much room is still needed.
    missing: u32,
}

impl Model for Counts {
    ghost use Rattle.std.specs.Prelude.{◌≡◌, ◌-◌};
    ghost use Rattle.js_waiting.specs.Counts.{Counts as Counted, counted_rooms};
    ghost use Rattle.js_waiting.specs.Left.{members_left};

    ghost Value = { Counted };

    ghost view = { λ c. record { need = c.need; places = c.places.items } };

    ghost invariant = { λ c. (c.members ≡ members_left c.places.items)
        × (c.missing ≡ c.need - counted_rooms c.places.items) };
}

/// One less where a member is counted.
fn less(members: usize, is_member: bool) -> usize
    requires { cond is_member 1 0 ≤ members }
    ensures { result + cond is_member 1 0 ≡ members }
{
    if is_member { members - 1 } else { members }
}

impl Counts {
    /// Nothing of the alternative is counted.
    fn new(alloc: Global, alternative: &Numbered) -> Result<Counts, Memory>
        ensures { IfOk result (λ c. c ≡ counts_of (numbered_view alternative.now)) }
    {
        let members = alternative.members.as_slice();
        let mut places = Vec::new(alloc);
        for member in members {
            let _ = member;
            places.push(Place {
                is_member: true,
                room: 0,
                counted: false,
            })?;
        }
        for filler in alternative.fillers.as_slice() {
            places.push(Place {
                is_member: false,
                room: filler.room,
                counted: false,
            })?;
        }
        Ok(Counts {
            need: alternative.need,
            places,
            members: members.len(),
            missing: alternative.need,
        })
    }

    fn is_ready(&self) -> bool
        ensures { result ≡ is_ready self.now }
    {
        self.members == 0 && self.missing == 0
    }

    fn mark(&mut self, place: usize)
        requires { waits (slice_get self.old.places place) ≡ true }
        ensures { self.new ≡ count_in place self.old }
    {
        let Place {
            is_member,
            room,
            ..
        } = self.places[place];
        self.members = less(self.members, is_member);
        self.missing = self.missing.saturating_sub(room);
        self.places[place].counted = true;
    }

    /// Counts a place, and answers whether the alternative wakes.
    fn count(&mut self, place: usize) -> bool
        requires { waits (slice_get self.old.places place) ≡ true }
        ensures counted { self.new ≡ count_in place self.old }
        ensures wakes { result ≡ (is_ready self.new && not (is_ready self.old)) }
    {
        let was_ready = self.is_ready();
        self.mark(place);
        self.is_ready() && !was_ready
    }
}

/// What is counted of the alternatives of a goal, in order.
#[derive(Drop)]
pub(crate) struct CountsList {
    items: Vec<Counts>,
}

impl Model for CountsList {
    ghost use Rattle.std.specs.Prelude.{◌<◌, ◌^◌, List, length};
    ghost use Rattle.js_waiting.specs.Counts.{Counts as Counted};

    ghost Value = { List Counted };

    ghost view = { λ l. l.items.items };

    ghost invariant = { λ l. length l.items.items < 2 ^ 32 };
}

impl CountsList {
    /// Nothing of the alternatives is counted.
    pub(crate) fn new(alloc: Global, alternatives: &[Numbered]) -> Result<CountsList, Memory>
        requires { length alternatives.now < 2 ^ 32 }
        ensures { IfOk result (λ l. l ≡ map counts_of (map numbered_view alternatives.now)) }
    {
        let mut items = Vec::new(alloc);
        for alternative in alternatives {
            items.push(Counts::new(alloc, alternative)?)?;
        }
        Ok(CountsList { items })
    }

    /// The first alternative that is ready.
    pub(crate) fn first_ready(&self) -> Option<u32>
        ensures { result ≡ first_place is_ready self.now }
    {
        for (number, counts) in self.items.iter().enumerate() {
            if counts.is_ready() {
                return Some(number as u32);
            }
        }
        None
    }

    /// Counts a place of an alternative, and answers whether it wakes.
    pub(crate) fn count(&mut self, alternative: usize, place: usize) -> bool
        requires { waits (place_in place (slice_get self.old alternative)) ≡ true }
        ensures counted { self.new ≡ change (count_in place) alternative self.old }
        ensures wakes { result ≡ (ready_in (slice_get self.new alternative)
            && not (ready_in (slice_get self.old alternative))) }
    {
        self.items[alternative].count(place)
    }
}
