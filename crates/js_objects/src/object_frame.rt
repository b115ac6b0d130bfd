//! The frame of a set at objects.

ghost use Rattle.std.specs.Prelude.{◌≡◌, ℕ, [], map, filter, flat_map, length, get_or, true};
ghost use Rattle.std.specs.List.{range_with_len};
ghost use Rattle.frames.specs.Frame.{In};
ghost use Rattle.frames.specs.ObjectFrame as O;
ghost use Rattle.js_algebra.specs.View.{signed_view, are_in_table};
ghost use Rattle.js_cells.specs.View.{cells_view};
ghost use Rattle.js_objects.specs.Passing.{AreServed};

use crate::cell_tests::{allowed, asked, counts};
use crate::passing::Passing;
use js_algebra::{Core, Signed, SignedList};
use js_bounds::Bounds;
use js_cells::Cells;
use js_doc::Memory;
use js_name_tests::{asked_of_server, bars_of, demands_of, values_of};
use js_plans::{Place, PlanFrame};
use std::alloc::Global;

/// From so many names on, the count of a cell's names is cut.
const MOST_NAMES: u32 = 65_537;

/// What a set requires of the members of an object, by the cells of their names. `frame_view` is the frame that it
/// stands for.
#[derive(Drop)]
pub struct ObjectFrame<'a> {
    core: &'a Core,
    set: &'a [Signed],
    cells: Cells<'a>,
    lower: u32,
    below: Option<u128>,
    demands: Vec<Signed>,
    /// For each demand the cells whose names may serve it.
    inside: Passing,
    /// What is required of the value of each name of a cell, by cells.
    asked: Vec<SignedList>,
    allowed: Vec<u32>,
    /// How many names each cell has.
    counts: Vec<u32>,
    ghost lower_is: { lower ≡ O.lower core.now.positions (map signed_view set.now) },
    ghost below_is: { below ≡ O.below core.now.positions (map signed_view set.now) },
    ghost demands_are: { map signed_view demands.items
        ≡ filter (O.is_demand core.now.positions) (map signed_view set.now) },
    ghost demands_in_table: { are_in_table core.now.positions
        (filter (O.is_demand core.now.positions) (map signed_view set.now)) ≡ true },
    ghost inside_are: { AreServed core.now.positions (cells_view cells)
        (filter (O.is_demand core.now.positions) (map signed_view set.now)) inside },
    ghost asked_are: { (c : ℕ) → get_or asked.items c []
        ≡ flat_map (O.each core.now.positions (cells_view cells) (In c)) (map signed_view set.now) },
    ghost asked_in_table: { (c : ℕ) → are_in_table core.now.positions (get_or asked.items c []) ≡ true },
    ghost allowed_are: { allowed.items
        ≡ filter (O.is_allowed core.now.positions (cells_view cells) (map signed_view set.now))
        (range_with_len 0 (length (cells_view cells).vectors)) },
    ghost counts_are: { (c : ℕ) → get_or counts.items c 0 ≡ O.number (cells_view cells) c },
}

impl<'a> ObjectFrame<'a> {
    ghost use Rattle.std.specs.Prelude.{◌≡◌, ◌≤◌, ℕ, [], map, flat_map, length, true, IfOk};
    ghost use Rattle.cells.specs.Cells.{naming};
    ghost use Rattle.frames.specs.Frame.{In};
    ghost use Rattle.frames.specs.ObjectFrame as O;
    ghost use Rattle.js_algebra.specs.View.{signed_view, are_in_table};
    ghost use Rattle.js_cells.specs.View.{cells_view};
    ghost use Rattle.js_objects.specs.FrameView.{frame_view};

    /// The frame of a set, which requires so many members, by the cells of its names.
    pub(crate) fn new(
        alloc: Global,
        core: &'a Core,
        set: &'a [Signed],
        bounds: Bounds,
        cells: Cells<'a>,
    ) -> Result<ObjectFrame<'a>, Memory>
        requires in_table { are_in_table core.now.positions (map signed_view set.now) ≡ true }
        requires lower { bounds.lower ≡ O.lower core.now.positions (map signed_view set.now) }
        requires below { bounds.below ≡ O.below core.now.positions (map signed_view set.now) }
        requires few { bounds.lower ≤ 65536 }
        requires names { (cells_view cells).names ≡ naming core.now.positions (map signed_view set.now) }
        requires none_past { (c : ℕ) → length (cells_view cells).vectors ≤ c → (cells_view cells).words c ≡ [] }
        ensures frame { IfOk result (λ f. frame_view f
            ≡ O.object_frame core.now.positions (cells_view cells.entry) (map signed_view set.now)) }
        ensures table { IfOk result (λ f. f.core.now.positions ≡ core.now.positions) }
        ensures cells { IfOk result (λ f. f.cells ≡ cells.entry) }
    {
        let names = cells.names();
        let bars = bars_of(alloc, core, names)?;
        let demands = demands_of(alloc, core, names)?;
        let values = values_of(alloc, core, names)?;
        let allowed = allowed(alloc, &cells, &bars)?;
        let counts = counts(alloc, &cells)?;
        let inside = Passing::new(alloc, &cells, &demands.tests)?;
        let asked = asked(alloc, &cells, &values)?;
        Ok(ObjectFrame {
            core,
            set,
            cells,
            lower: bounds.lower as u32,
            below: bounds.below,
            demands: demands.literals,
            inside,
            asked,
            allowed,
            counts,
        })
    }

    /// The cells of the names.
    pub fn name_cells(&self) -> &Cells<'a>
        ensures { result.now ≡ self.now.cells }
    {
        &self.cells
    }

    /// How many names a cell has, cut.
    fn count(&self, cell: u32) -> u32
        ensures { result ≡ O.number (cells_view self.now.cells) cell }
    {
        match self.counts.get(cell as usize) {
            Some(count) => *count,
            None => 0,
        }
    }

    /// What is required of the value of each name of a cell.
    fn asked(&self, cell: u32) -> &[Signed]
        ensures asked { map signed_view result.now
            ≡ flat_map (O.each self.now.core.now.positions (cells_view self.now.cells) (In cell))
            (map signed_view self.now.set.now) }
        ensures in_table { are_in_table self.now.core.now.positions (map signed_view result.now) ≡ true }
    {
        match self.asked.get(cell as usize) {
            Some(list) => list.as_slice(),
            None => &[],
        }
    }
}

impl PlanFrame for ObjectFrame<'_> {
    ghost use Rattle.std.specs.Prelude.{◌≡◌, List, true};
    ghost use Rattle.js_objects.specs.FrameView.{frame_view};

    ghost table = { λ x. x.core.now.positions };

    ghost frame = { λ x. frame_view x };

    fn core(&self) -> &Core {
        self.core
    }

    fn lower(&self) -> u32 {
        self.lower
    }

    fn below(&self) -> Option<u128> {
        self.below
    }

    fn floor(&self) -> u32 {
        0
    }

    fn heads(&self) -> u32 {
        0
    }

    fn demands(&self) -> &[Signed] {
        self.demands.as_slice()
    }

    fn cells(&self) -> &[u32] {
        self.allowed.as_slice()
    }

    fn inside(&self, demand: usize) -> &[bool] {
        self.inside.row(demand)
    }

    fn cap(&self, cell: u32) -> Option<u32> {
        let count = self.count(cell);
        if count < MOST_NAMES {
            Some(count)
        } else {
            None
        }
    }

    fn room(&self, cell: u32, count: usize) -> u32 {
        (self.count(cell) as usize).saturating_sub(count) as u32
    }

    fn add_each(&self, place: Place, list: &mut Vec<Signed>) -> Result<(), Memory> {
        match place {
            Place::Head(_) => Ok(()),
            Place::In(cell) => Ok(list.extend_from_slice(self.asked(cell))?),
        }
    }

    fn add_serving(&self, _: Place, demand: Signed, list: &mut Vec<Signed>) -> Result<(), Memory> {
        if let Some(x) = asked_of_server(self.core, demand) {
            list.push(x)?;
        }
        Ok(())
    }

    ghost demands_in_table = { λ x. x.demands_in_table };
}
