//! Whether the bounds of a set cross.

ghost use Rattle.std.specs.Prelude.{◌≡◌, map, true};
ghost use Rattle.js_algebra.specs.View.{signed_view, kind_view, are_in_table};
ghost use Rattle.verdicts.specs.Leaves as V;

use crate::bounds::Bounds;
use js_algebra::{Core, JsonKind, Signed};

/// Whether no count is within the bounds of the set; none where the kind has no bounds.
pub fn crossed(core: &Core, kind: JsonKind, set: &[Signed]) -> Option<bool>
    requires { are_in_table core.now.positions (map signed_view set.now) ≡ true }
    ensures { result ≡ V.crossed core.now.positions (map signed_view set.now) (kind_view kind) }
{
    match kind {
        JsonKind::Text => Some(Bounds::of_strings(core, set).are_crossed()),
        JsonKind::Array => Some(Bounds::of_arrays(core, set).are_crossed()),
        JsonKind::Object => Some(Bounds::of_objects(core, set).are_crossed()),
        _ => None,
    }
}
