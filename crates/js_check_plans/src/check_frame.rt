//! What a frame of arrays or of objects says of its plans.

use js_algebra::{Core, Signed};
use js_doc::Memory;
use js_plans::Place;

/// A frame over a table: what the elements or members of a set are to serve, and what is required of each.
pub trait CheckFrame {
    ghost use Rattle.std.specs.Prelude.{◌≡◌, ◌<◌, ◌++◌, List, true, map, flat_map, length, get_or, OnOk};
    ghost use Rattle.positions.specs.Position.{Position};
    ghost use Rattle.goals.specs.Signed as G;
    ghost use Rattle.frames.specs.Frame.{Frame};
    ghost use Rattle.js_algebra.specs.View.{signed_view, is_in_table, are_in_table};
    ghost use Rattle.js_plans.specs.Serving.{place_view};

    ghost table: { Self → List Position };

    ghost frame: { Self → Frame };

    fn core(&self) -> &Core
        ensures { result.now.positions ≡ table self.now };

    fn lower(&self) -> u128
        ensures { result ≡ (frame self.now).lower };

    /// The first count that is too many.
    fn below(&self) -> Option<u128>
        ensures { result ≡ (frame self.now).below };

    fn floor(&self) -> u128
        ensures { result ≡ (frame self.now).floor };

    /// How many first places there are.
    fn heads(&self) -> u32
        ensures { result ≡ (frame self.now).heads };

    /// What some element or member has to serve, in order.
    fn demands(&self) -> &[Signed]
        ensures { map signed_view result.now ≡ (frame self.now).demands };

    /// The cells past the first places, in order.
    fn cells(&self) -> &[u32]
        ensures { result.now ≡ (frame self.now).cells };

    /// Whether what is in a cell may serve the demand of that number.
    fn is_inside(&self, demand: usize, cell: u32) -> bool
        requires { demand < length (frame self.now).demands }
        ensures { result ≡ (frame self.now).inside (get_or (frame self.now).demands demand (G.Plus 0)) cell };

    /// How many may be in a cell, if that is bounded.
    fn cap(&self, cell: u32) -> Option<u32>
        ensures { result ≡ (frame self.now).cap cell };

    /// Adds what is required of whatever is at a place.
    fn add_each(&self, place: Place, list: &mut Vec<Signed>) -> Result<(), Memory>
        ensures added { OnOk result (map signed_view list.new.items ≡ map signed_view list.old.items
            ++ flat_map ((frame self.now).each (place_view place)) (frame self.now).set) }
        ensures in_table { OnOk result (are_in_table (table self.now) (map signed_view list.old.items) ≡ true
            → are_in_table (table self.now) (map signed_view list.new.items) ≡ true) };

    /// Adds what is required of what serves a demand at a place.
    fn add_serving(
        &self,
        place: Place,
        demand: Signed,
        list: &mut Vec<Signed>,
    ) -> Result<(), Memory>
        requires { is_in_table (table self.now) (signed_view demand) ≡ true }
        ensures added { OnOk result (map signed_view list.new.items ≡ map signed_view list.old.items
            ++ (frame self.now).serving (place_view place) (signed_view demand)) }
        ensures in_table { OnOk result (are_in_table (table self.now) (map signed_view list.old.items) ≡ true
            → are_in_table (table self.now) (map signed_view list.new.items) ≡ true) };

    /// The demands are of the table.
    ghost demands_in_table: { (x : Self) → are_in_table (table x) (frame x).demands ≡ true };
}
