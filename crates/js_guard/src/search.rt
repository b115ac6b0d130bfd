//! One search along all edges, which gives each entry a rank, or finds the least entry on a cycle.
//!
//! Entries are open from when they are met until all that they lead to is done. Open entries are in groups: those of
//! one group lead to each other, so where a group has two entries, or an edge leads back into it, they lie on cycles.
//! These are the strong components of the edges, found along a path with two stacks (H. N. Gabow, 2000).
//! Nothing recurses from entry to entry: `path` holds the entries whose edges are being followed. Each edge is looked
//! at twice at most.

ghost use Rattle.std.specs.Prelude.{◌≡◌, ◌+◌, ◌*◌, ◌^◌, ◌<◌, ◌≤◌, ◌++◌, ◌∷◌, [], length, map, IfOk, OnOk};
ghost use Rattle.js_guard.specs.Rows.{AreClosed};
ghost use Rattle.js_guard.specs.Searching.{Finds};

use crate::edges::Edges;
use crate::ranks::Ranks;
use js_doc::Memory;
use std::alloc::Global;

/// How far the search has come with an entry.
#[derive(Clone, Copy)]
pub(crate) enum Mark {
    New,
    /// The entry is among the open ones, at this place.
    Open(u32),
    /// All that it leads to is done, and this many entries were done before it.
    Done(u32),
}

/// An open entry whose edges are being followed, by its place among the open ones, and the first edge that isn't
/// passed.
#[derive(Clone, Copy)]
pub(crate) struct Turn {
    place: u32,
    next: usize,
}

/// Ranks of all entries, or the least entry on a cycle.
#[derive(Drop)]
pub(crate) enum Found {
    Ranked(Ranks),
    Circular(u32),
}

/// What the search knows: `groups` are the places where groups of open entries begin, `done` counts the entries that
/// are done, and `least` is the least entry that is known to lie on a cycle.
#[derive(Drop)]
pub(crate) struct Search {
    marks: Vec<Mark>,
    opened: Vec<u32>,
    groups: Vec<u32>,
    path: Vec<Turn>,
    done: u32,
    least: Option<u32>,
}

/// Searches from each entry in turn.
pub(crate) fn search_all(alloc: Global, edges: &Edges) -> Result<Found, Memory>
    requires closed { AreClosed edges.now }
    requires small { length edges.now < 2 ^ 32 }
    ensures { IfOk result (Finds edges.now) }
{
    let mut search = Search::new(alloc, edges)?;
    for root in 0..edges.len() {
        search.follow(edges, root as u32)?;
    }
    match search.least {
        Some(entry) => Ok(Found::Circular(entry)),
        None => Ok(Found::Ranked(search.ranks(alloc)?)),
    }
}

impl Search {
    ghost use Rattle.std.specs.Prelude.{ℕ};
    ghost use Rattle.js_guard.specs.Searching.{mark, is_new, rank_of, count_new, at, noted, IsJoined, IsSearch};
    ghost use Rattle.js_guard.specs.Steps.{IsSearchWith, IsResting, Keeps, work, Enters, PassesAt, PassesEdges};
    ghost use Rattle.js_guard.specs.Steps.{Closes, Leaves, Finishes};
    ghost use Rattle.js_guard.specs.declared.search.Mark.TheVariants.{New};

    fn new(alloc: Global, edges: &Edges) -> Result<Search, Memory>
        ensures { IfOk result (IsResting edges.now) }
    {
        Ok(Search {
            marks: vec![in alloc; Mark::New; edges.len()]?,
            opened: Vec::new(alloc),
            groups: Vec::new(alloc),
            path: Vec::new(alloc),
            done: 0,
            least: None,
        })
    }

    /// Follows the edges from an entry, where it is new, until it is done.
    fn follow(&mut self, edges: &Edges, root: u32) -> Result<(), Memory>
        requires closed { AreClosed edges.now }
        requires small { length edges.now < 2 ^ 32 }
        requires root { root < length edges.now }
        requires resting { IsResting edges.now self.old }
        ensures resting { OnOk result (IsResting edges.now self.new) }
        ensures root { OnOk result (mark self.new.marks.items root ≡ New → ⊥) }
        ensures keeps { OnOk result (Keeps self.old self.new) }
    {
        if let Mark::New = self.marks[root as usize] {
            self.enter(root)?;
        }
        while let Some(turn) = self.path.pop() {
            self.take_turn(edges, turn)?;
        }
        Ok(())
    }

    /// Makes a new entry an open one, in a group of its own, whose turn comes next.
    fn enter(&mut self, entry: u32) -> Result<(), Memory>
        requires entry { entry < length self.old.marks.items }
        requires small { length self.old.opened.items < 2 ^ 32 }
        ensures { OnOk result (Enters self.old self.new entry) }
    {
        let place = self.opened.len() as u32;
        self.opened.push(entry)?;
        self.groups.push(place)?;
        self.path.push(Turn { place, next: 0 })?;
        self.marks[entry as usize] = Mark::Open(place);
        Ok(())
    }

    /// Passes the edges of an entry up to one that leads to a new entry, whose turn comes first then.
    fn take_turn(&mut self, edges: &Edges, turn: Turn) -> Result<(), Memory>
        requires closed { AreClosed edges.now }
        requires small { length edges.now < 2 ^ 32 }
        requires search { IsSearchWith edges.now self.old (self.old.path.items ++ turn ∷ []) }
        ensures search { OnOk result (IsSearchWith edges.now self.new self.new.path.items) }
        ensures keeps { OnOk result (Keeps self.old self.new) }
        ensures progress { OnOk result (work self.new ≤ work self.old) }
    {
        let next = self.pass_edges(edges, turn);
        let row = edges.row(self.opened[turn.place as usize]);
        if next < row.len() {
            self.path.push(Turn {
                place: turn.place,
                next,
            })?;
            self.enter(row[next])
        } else {
            self.leave(turn.place);
            Ok(())
        }
    }

    /// Passes the edges of an entry up to one that leads to a new entry, and answers which that is; as many as there
    /// are, where none does.
    fn pass_edges(&mut self, edges: &Edges, turn: Turn) -> usize
        requires closed { AreClosed edges.now }
        requires search { IsSearchWith edges.now self.old (self.old.path.items ++ turn ∷ []) }
        ensures { PassesEdges edges.now self.old self.new turn.place result }
    {
        let row = edges.row(self.opened[turn.place as usize]);
        let mut next = turn.next;
        while next < row.len() {
            if !self.pass(row[next]) {
                return next;
            }
            next += 1;
        }
        next
    }

    /// Passes an edge to an entry that isn't new.
    fn pass(&mut self, target: u32) -> bool
        requires { target < length self.old.marks.items }
        ensures { PassesAt (mark self.old.marks.items target) self.old self.new target result }
    {
        match self.marks[target as usize] {
            Mark::New => false,
            Mark::Open(place) => {
                self.join(place);
                self.note(target);
                true
            }
            Mark::Done(_) => true,
        }
    }

    /// Makes one group of all groups from the one of that place on.
    fn join(&mut self, place: u32)
        ensures joined { IsJoined self.old.groups.items self.new.groups.items place }
        ensures same { self.new ≡ record self.old { groups = self.new.groups } }
    {
        let mut kept = self.groups.len();
        while kept > 0 && self.groups[kept - 1] > place {
            kept -= 1;
        }
        self.groups.truncate(kept);
    }

    /// An entry lies on a cycle.
    fn note(&mut self, entry: u32)
        ensures { self.new ≡ record self.old { least = noted self.old.least entry } }
    {
        self.least = match self.least {
            Some(least) => Some(least.min(entry)),
            None => Some(entry),
        };
    }

    /// All edges of the entry at that place are passed. The last group is done, where it begins there.
    fn leave(&mut self, place: u32)
        requires within { (i : ℕ) → i < length self.old.opened.items
            → at self.old.opened.items i < length self.old.marks.items }
        requires place { place < length self.old.opened.items }
        requires fits { self.old.done + length self.old.opened.items < 2 ^ 32 }
        ensures { Leaves self.old self.new place }
    {
        let last = self.groups.len();
        if last > 0 && self.groups[last - 1] == place {
            self.groups.truncate(last - 1);
            self.close(place);
        }
    }

    /// The open entries from that place on are done. Where they are several, they lie on cycles.
    fn close(&mut self, place: u32)
        requires within { (i : ℕ) → i < length self.old.opened.items
            → at self.old.opened.items i < length self.old.marks.items }
        requires place { place < length self.old.opened.items }
        requires fits { self.old.done + length self.old.opened.items < 2 ^ 32 }
        ensures { Closes self.old self.new place }
    {
        let several = self.opened.len() > place as usize + 1;
        for i in place as usize..self.opened.len() {
            let entry = self.opened[i];
            self.finish(entry, several);
        }
        self.opened.truncate(place as usize);
    }

    fn finish(&mut self, entry: u32, circular: bool)
        requires entry { entry < length self.old.marks.items }
        requires fits { self.old.done + 1 < 2 ^ 32 }
        ensures { Finishes self.old self.new entry circular }
    {
        self.marks[entry as usize] = Mark::Done(self.done);
        self.done += 1;
        if circular {
            self.note(entry);
        }
    }

    /// The ranks of entries that are done.
    fn ranks(&self, alloc: Global) -> Result<Ranks, Memory>
        ensures { IfOk result (λ r. r ≡ map rank_of self.now.marks.items) }
    {
        let mut ranks = Vec::with_capacity(alloc, self.marks.len())?;
        for mark in &self.marks {
            ranks.push(mark.rank())?;
        }
        Ok(Ranks::from_vec(ranks))
    }
}

impl Mark {
    ghost use Rattle.js_guard.specs.Searching.{rank_of};

    fn rank(self) -> u32
        ensures { result ≡ rank_of self }
    {
        match self {
            Mark::Done(rank) => rank,
            _ => 0,
        }
    }
}
