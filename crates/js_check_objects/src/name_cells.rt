//! What literals say of each cell of names.

ghost use Rattle.std.specs.Prelude.{◌<◌, ◌^◌, map, length};
ghost use Rattle.js_algebra.specs.View.{signed_view};
ghost use Rattle.js_said.specs.Vectors.{vectors_in};
ghost use Rattle.js_check_objects.specs.Told.{AreTold};

use js_algebra::Signed;

/// The literals that speak of names, and for each cell what each of them says of its names. Contracts see them by
/// `cells_in`.
#[derive(Drop)]
pub(crate) struct NameCells {
    pub names: Vec<Signed>,
    pub vectors: Vec<Vec<bool>>,
    ghost told: { AreTold (map signed_view names.items) (vectors_in vectors.items) },
    ghost few: { length vectors.items < 2 ^ 32 },
}

impl NameCells {
    ghost use Rattle.std.specs.Prelude.{◌≡◌, length};
    ghost use Rattle.js_check_objects.specs.Cells.{cells_in};

    /// How many cells there are.
    pub(crate) fn len(&self) -> u32
        ensures { result ≡ length (cells_in self.now).vectors }
    {
        self.vectors.len() as u32
    }
}
