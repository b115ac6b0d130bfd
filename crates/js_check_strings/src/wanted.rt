//! Rows whose words the literals want.

ghost use Rattle.std.specs.Prelude.{◌≡◌, ◌<◌, [], length, get_or};
ghost use Rattle.js_check_rows.specs.RowsView.{atoms_of, table_of};
ghost use Rattle.js_asked.specs.Asking.{atoms_in, asks};

use js_asked::Asked;
use js_check_rows::Rows;

/// Whether the words of a row that was mentioned are as required.
pub(crate) fn is_as_asked(asked: &Asked, rows: &Rows, row: u32) -> bool
    requires atoms { atoms_of rows.now ≡ atoms_in asked.now }
    requires row { row < length (table_of rows.now).words }
    ensures { result ≡ asks asked.now (get_or (table_of rows.now).words row []) }
{
    for wish in asked.wishes() {
        if rows.truth(row, wish.atom) != wish.truth {
            return false;
        }
    }
    true
}
