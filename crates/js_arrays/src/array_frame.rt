//! The frame of a set at arrays.

ghost use Rattle.std.specs.Prelude.{◌≡◌, map, true};
ghost use Rattle.js_algebra.specs.View.{signed_view, are_in_table};

use js_algebra::{Core, Signed};
use js_bounds::Bounds;
use js_doc::Memory;
use js_elements::{asked, demands, longest, served};
use js_plans::{Place, PlanFrame};
use std::alloc::Global;

/// What a set requires of the elements of an array: its first elements are the first places, and there is one cell past
/// them. `frame_view` is the frame that it stands for.
#[derive(Drop)]
pub struct ArrayFrame<'a> {
    core: &'a Core,
    set: &'a [Signed],
    demands: Vec<Signed>,
    lower: u32,
    below: Option<u128>,
    heads: u32,
    ghost set_in_table: { are_in_table core.now.positions (map signed_view set.now) ≡ true },
    ghost demands_in_table: { are_in_table core.now.positions (map signed_view demands.items) ≡ true },
}

impl<'a> ArrayFrame<'a> {
    ghost use Rattle.std.specs.Prelude.{◌≡◌, ◌≤◌, map, true, IfOk};
    ghost use Rattle.frames.specs.ArrayFrame as A;
    ghost use Rattle.js_algebra.specs.View.{signed_view, are_in_table};
    ghost use Rattle.js_plans.specs.Serving.{place_view};
    ghost use Rattle.js_arrays.specs.FrameView.{frame_view};

    /// The frame of a set, which requires so many elements.
    pub fn new(
        alloc: Global,
        core: &'a Core,
        set: &'a [Signed],
        bounds: Bounds,
    ) -> Result<ArrayFrame<'a>, Memory>
        requires in_table { are_in_table core.now.positions (map signed_view set.now) ≡ true }
        requires lower { bounds.lower ≡ A.lower core.now.positions (map signed_view set.now) }
        requires below { bounds.below ≡ A.below core.now.positions (map signed_view set.now) }
        requires few { bounds.lower ≤ 65536 }
        ensures frame { IfOk result (λ f. frame_view f ≡ A.array_frame core.now.positions (map signed_view set.now)) }
        ensures table { IfOk result (λ f. f.core.now.positions ≡ core.now.positions) }
    {
        let longest = longest(core, set);
        if longest > u32::MAX as usize {
            return Err(Memory);
        }
        Ok(ArrayFrame {
            core,
            set,
            demands: demands(alloc, core, set)?,
            lower: bounds.lower as u32,
            below: bounds.below,
            heads: longest as u32,
        })
    }

    /// The number of a place, where what is past the first ones counts as the next.
    fn index(&self, place: Place) -> usize
        ensures { result ≡ A.index_of self.now.heads (place_view place) }
    {
        match place {
            Place::Head(k) => k as usize,
            Place::In(_) => self.heads as usize,
        }
    }
}

impl PlanFrame for ArrayFrame<'_> {
    ghost use Rattle.std.specs.Prelude.{◌≡◌, List, true};
    ghost use Rattle.js_arrays.specs.FrameView.{frame_view};

    ghost table = { λ x. x.core.now.positions };

    ghost frame = { λ x. frame_view x };

    fn core(&self) -> &Core {
        self.core
    }

    fn lower(&self) -> u32 {
        self.lower
    }

    fn below(&self) -> Option<u128> {
        self.below
    }

    fn floor(&self) -> u32 {
        self.lower
    }

    fn heads(&self) -> u32 {
        self.heads
    }

    fn demands(&self) -> &[Signed] {
        self.demands.as_slice()
    }

    fn cells(&self) -> &[u32] {
        &[0]
    }

    fn inside(&self, _: usize) -> &[bool] {
        &[true]
    }

    fn cap(&self, _: u32) -> Option<u32> {
        None
    }

    fn room(&self, _: u32, _: usize) -> u32 {
        65_537
    }

    fn add_each(&self, place: Place, list: &mut Vec<Signed>) -> Result<(), Memory> {
        let index = self.index(place);
        for x in self.set {
            if let Some(y) = asked(self.core, index, *x) {
                list.push(y)?;
            }
        }
        Ok(())
    }

    fn add_serving(
        &self,
        place: Place,
        demand: Signed,
        list: &mut Vec<Signed>,
    ) -> Result<(), Memory> {
        if let Some(y) = served(self.core, self.index(place), demand) {
            list.push(y)?;
        }
        Ok(())
    }

    ghost demands_in_table = { λ x. x.demands_in_table };
}
