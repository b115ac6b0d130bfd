//! The frame of a set at objects.

ghost use Rattle.std.specs.Prelude.{◌≡◌, ℕ, map, filter, flat_map, length, get_or, true};
ghost use Rattle.std.specs.List.{range_with_len};
ghost use Rattle.frames.specs.Frame.{In};
ghost use Rattle.frames.specs.ObjectFrame as O;
ghost use Rattle.js_algebra.specs.View.{signed_view, are_in_table};
ghost use Rattle.js_check_objects.specs.Cells.{cells_in};
ghost use Rattle.js_name_tests.specs.NameTests.{passes, asks, are_within, values_within, values_in_table};

use crate::cell_tests::{allowed, says};
use crate::name_cells::NameCells;
use js_algebra::{Core, Signed};
use js_bounds::Bounds;
use js_check_plans::CheckFrame;
use js_doc::Memory;
use js_name_tests::{NameTest, ValueTest, asked_of_server, bars_of, demands_of, values_of};
use js_plans::Place;
use std::alloc::Global;

/// What a set requires of the members of an object, by the cells of their names. `frame_view` is the frame that it
/// stands for.
#[derive(Drop)]
pub(crate) struct ObjectFrame<'a> {
    core: &'a Core,
    set: Vec<Signed>,
    cells: NameCells,
    lower: u128,
    below: Option<u128>,
    demands: Vec<Signed>,
    /// For each demand the names that may serve it.
    servers: Vec<NameTest>,
    values: Vec<ValueTest>,
    allowed: Vec<u32>,
    /// For each cell the bound that was stated; none from the end on.
    caps: Vec<Option<u32>>,
    ghost lower_is: { lower ≡ O.lower core.now.positions (map signed_view set.items) },
    ghost below_is: { below ≡ O.below core.now.positions (map signed_view set.items) },
    ghost demands_are: { map signed_view demands.items
        ≡ filter (O.is_demand core.now.positions) (map signed_view set.items) },
    ghost demands_in_table: { are_in_table core.now.positions
        (filter (O.is_demand core.now.positions) (map signed_view set.items)) ≡ true },
    ghost servers_are: { (c : ℕ) → map (passes (cells_in cells) c) servers.items
        ≡ map (λ x. O.inside core.now.positions (cells_in cells) x c)
        (filter (O.is_demand core.now.positions) (map signed_view set.items)) },
    ghost servers_within: { are_within (length (cells_in cells).names) servers.items ≡ true },
    ghost values_are: { (c : ℕ) → flat_map (asks (cells_in cells) c) values.items
        ≡ flat_map (O.each core.now.positions (cells_in cells) (In c)) (map signed_view set.items) },
    ghost values_within: { values_within (length (cells_in cells).names) values.items ≡ true },
    ghost values_in_table: { values_in_table core.now.positions values.items ≡ true },
    ghost allowed_are: { allowed.items
        ≡ filter (O.is_allowed core.now.positions (cells_in cells) (map signed_view set.items))
        (range_with_len 0 (length (cells_in cells).vectors)) },
}

impl<'a> ObjectFrame<'a> {
    ghost use Rattle.std.specs.Prelude.{◌≡◌, ◌≤◌, ℕ, [], ◌++◌, map, flat_map, length, true, IfOk, OnOk};
    ghost use Rattle.cells.specs.Cells.{naming};
    ghost use Rattle.frames.specs.ObjectFrame as O;
    ghost use Rattle.js_algebra.specs.View.{signed_view, are_in_table};
    ghost use Rattle.js_check_objects.specs.Cells.{cells_in};
    ghost use Rattle.js_check_objects.specs.Bounds.{cap_at};
    ghost use Rattle.js_check_objects.specs.FrameView.{frame_view};
    ghost use Rattle.js_name_tests.specs.NameTests.{asks};

    /// The frame of a set by the cells of its names, with these bounds of the number of names of cells.
    pub(crate) fn new(
        alloc: Global,
        core: &'a Core,
        set: Vec<Signed>,
        cells: NameCells,
        caps: Vec<Option<u32>>,
    ) -> Result<ObjectFrame<'a>, Memory>
        requires in_table { are_in_table core.now.positions (map signed_view set.items) ≡ true }
        requires names { (cells_in cells).names ≡ naming core.now.positions (map signed_view set.items) }
        ensures frame { IfOk result (λ f. frame_view f ≡ O.object_frame_with (cap_at caps.items) (λ c n. 0)
            core.now.positions (cells_in cells) (map signed_view set.items)) }
        ensures table { IfOk result (λ f. f.core.now.positions ≡ core.now.positions) }
    {
        let bounds = Bounds::of_objects(core, set.as_slice());
        let names = cells.names.as_slice();
        let bars = bars_of(alloc, core, names)?;
        let demands = demands_of(alloc, core, names)?;
        let values = values_of(alloc, core, names)?;
        let allowed = allowed(alloc, &cells, &bars)?;
        Ok(ObjectFrame {
            core,
            set,
            cells,
            lower: bounds.lower,
            below: bounds.below,
            demands: demands.literals,
            servers: demands.tests,
            values,
            allowed,
            caps,
        })
    }

    /// Adds what is required of the value of each name of a cell.
    fn add_values(&self, cell: u32, list: &mut Vec<Signed>) -> Result<(), Memory>
        ensures added { OnOk result (map signed_view list.new.items ≡ map signed_view list.old.items
            ++ flat_map (asks (cells_in self.now.cells) cell) self.now.values.items) }
        ensures in_table { OnOk result (are_in_table self.now.core.now.positions (map signed_view list.old.items) ≡ true
            → are_in_table self.now.core.now.positions (map signed_view list.new.items) ≡ true) }
    {
        for test in &self.values {
            if says(&self.cells, cell, test.literal) {
                list.push(Signed::plus(test.value))?;
            }
        }
        Ok(())
    }
}

impl CheckFrame for ObjectFrame<'_> {
    ghost use Rattle.std.specs.Prelude.{◌≡◌, List, true};
    ghost use Rattle.js_check_objects.specs.FrameView.{frame_view};

    ghost table = { λ x. x.core.now.positions };

    ghost frame = { λ x. frame_view x };

    fn core(&self) -> &Core {
        self.core
    }

    fn lower(&self) -> u128 {
        self.lower
    }

    fn below(&self) -> Option<u128> {
        self.below
    }

    fn floor(&self) -> u128 {
        0
    }

    fn heads(&self) -> u32 {
        0
    }

    fn demands(&self) -> &[Signed] {
        self.demands.as_slice()
    }

    fn cells(&self) -> &[u32] {
        self.allowed.as_slice()
    }

    fn is_inside(&self, demand: usize, cell: u32) -> bool {
        let server = self.servers[demand];
        says(&self.cells, cell, server.literal) == server.truth
    }

    fn cap(&self, cell: u32) -> Option<u32> {
        match self.caps.get(cell as usize) {
            Some(cap) => *cap,
            None => None,
        }
    }

    fn add_each(&self, place: Place, list: &mut Vec<Signed>) -> Result<(), Memory> {
        match place {
            Place::Head(_) => Ok(()),
            Place::In(cell) => self.add_values(cell, list),
        }
    }

    fn add_serving(&self, _: Place, demand: Signed, list: &mut Vec<Signed>) -> Result<(), Memory> {
        if let Some(x) = asked_of_server(self.core, demand) {
            list.push(x)?;
        }
        Ok(())
    }

    ghost demands_in_table = { λ x. x.demands_in_table };
}
