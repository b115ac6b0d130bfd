//! The rows of a list from which one can go on for ever within it.
//!
//! Rows that lead to none that is left are dropped until none falls. A pass costs the classes of the rows that are
//! listed; where a row comes after those that it leads to, one pass drops all that fall.

ghost use Rattle.std.specs.Prelude.{◌≡◌, ◌<◌, ℕ, length, get_or, true, false};
ghost use Rattle.std.specs.List.{count_by};
ghost use Rattle.js_automaton.specs.AutomatonView.{atoms_of, rows_of};
ghost use Rattle.js_row_words.specs.Labels.{HasNext, IsPart};

use js_automaton::Automaton;

/// Whether some class leads from the row to a row that is left.
fn has_next(automaton: &Automaton, left: &[bool], row: u32) -> bool
    requires row { row < length (rows_of automaton.now) }
    requires size { length left.now ≡ length (rows_of automaton.now) }
    ensures { result ≡ true → HasNext (atoms_of automaton.now) (rows_of automaton.now) left.now row }
{
    for class in 0..automaton.classes() {
        if left[automaton.target(row, class) as usize] {
            return true;
        }
    }
    false
}

/// Drops a row that leads to none that is left, and says whether it was left before.
fn drop_end(automaton: &Automaton, row: u32, left: &mut [bool]) -> bool
    requires row { row < length (rows_of automaton.now) }
    requires size { length left.old ≡ length (rows_of automaton.now) }
    ensures size { length left.new ≡ length left.old }
    ensures part { IsPart left.old left.new }
    ensures fell { result ≡ true → count_by (λ b. b) left.new < count_by (λ b. b) left.old }
    ensures same { result ≡ false → left.new ≡ left.old }
    ensures next { result ≡ false → get_or left.old row false ≡ true
        → HasNext (atoms_of automaton.now) (rows_of automaton.now) left.old row }
{
    if !left[row as usize] {
        return false;
    }
    let goes_on = has_next(automaton, left, row);
    if !goes_on {
        left[row as usize] = false;
    }
    !goes_on
}

/// Drops listed rows that lead to none that is left, and says whether one was dropped.
fn drop_ends(automaton: &Automaton, list: &[u32], left: &mut [bool]) -> bool
    requires size { length left.old ≡ length (rows_of automaton.now) }
    requires list { (i : ℕ) → i < length list.now → get_or list.now i 0 < length (rows_of automaton.now) }
    ensures size { length left.new ≡ length left.old }
    ensures part { IsPart left.old left.new }
    ensures fell { result ≡ true → count_by (λ b. b) left.new < count_by (λ b. b) left.old }
    ensures same { result ≡ false → left.new ≡ left.old }
    ensures nexts { result ≡ false → (i : ℕ) → i < length list.now
        → get_or left.old (get_or list.now i 0) false ≡ true
        → HasNext (atoms_of automaton.now) (rows_of automaton.now) left.old (get_or list.now i 0) }
{
    let mut fell = false;
    for i in 0..list.len() {
        if drop_end(automaton, list[i], left) {
            fell = true;
        }
    }
    fell
}

/// Leaves the listed rows from which one can go on for ever within what is left.
pub(crate) fn keep_endless(automaton: &Automaton, list: &[u32], left: &mut [bool])
    requires size { length left.old ≡ length (rows_of automaton.now) }
    requires list { (i : ℕ) → i < length list.now → get_or list.now i 0 < length (rows_of automaton.now) }
    ensures size { length left.new ≡ length left.old }
    ensures part { IsPart left.old left.new }
    ensures nexts { (i : ℕ) → i < length list.now → get_or left.new (get_or list.now i 0) false ≡ true
        → HasNext (atoms_of automaton.now) (rows_of automaton.now) left.new (get_or list.now i 0) }
{
    let mut falling = true;
    while falling {
        falling = drop_ends(automaton, list, left);
    }
}
