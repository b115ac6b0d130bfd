//! The first row with the required truths.

ghost use Rattle.std.specs.Prelude.{◌≡◌, ◌<◌, ℕ, [], length, get_or, true, false};
ghost use Rattle.std.specs.Option.{MatchOption};
ghost use Rattle.js_automaton.specs.AutomatonView.{atoms_of, rows_of};
ghost use Rattle.js_asked.specs.Asking.{atoms_in, asks};

use js_asked::Asked;
use js_automaton::Automaton;

/// The first row whose words are as required.
pub(crate) fn first_row(asked: &Asked, automaton: &Automaton) -> Option<u32>
    requires { atoms_of automaton.now ≡ atoms_in asked.now }
    ensures { MatchOption result
        ((j : ℕ) → j < length (rows_of automaton.now) → asks asked.now (get_or (rows_of automaton.now) j []) ≡ false)
        (λ row. (row < length (rows_of automaton.now)) × (asks asked.now (get_or (rows_of automaton.now) row []) ≡ true)
        × ((j : ℕ) → j < row → asks asked.now (get_or (rows_of automaton.now) j []) ≡ false)) }
{
    for row in 0..automaton.rows() {
        if is_as_asked(asked, automaton, row) {
            return Some(row);
        }
    }
    None
}

fn is_as_asked(asked: &Asked, automaton: &Automaton, row: u32) -> bool
    requires atoms { atoms_of automaton.now ≡ atoms_in asked.now }
    requires row { row < length (rows_of automaton.now) }
    ensures { result ≡ asks asked.now (get_or (rows_of automaton.now) row []) }
{
    for wish in asked.wishes() {
        if automaton.signature(row, wish.atom) != wish.truth {
            return false;
        }
    }
    true
}
