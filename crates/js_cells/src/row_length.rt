//! The length of a row's word, without the word.
//!
//! Rows are ordered by the length of their words, and each but the first is led to by a row whose word is shorter by
//! one. So the rows whose words have one letter more end where those end that the rows gone through lead to.

ghost use Rattle.std.specs.Prelude.{◌≡◌, ◌<◌, ◌≤◌, [], length, get_or};
ghost use Rattle.word_states.specs.Classes.{class_count};
ghost use Rattle.js_automaton.specs.AutomatonView.{atoms_of, rows_of};
ghost use Rattle.js_cells.specs.Lengths.{IsNamed};

use js_automaton::Automaton;

/// How many letters the word of a row has. It costs the rows before it and their classes, and takes no memory.
pub(crate) fn word_length(automaton: &Automaton, row: u32) -> u32
    requires { row < length (rows_of automaton.now) }
    ensures { result ≡ length (get_or (rows_of automaton.now) row []) }
{
    let mut letters = 0;
    // The first row whose word has more letters, and the first that no row before leads to.
    let mut end = 1;
    let mut named = 1;
    for before in 0..row {
        named = named_by(automaton, before, named);
        if before + 1 == end {
            letters += 1;
            end = named;
        }
    }
    letters
}

/// The first row that no row leads to, with one more row gone through.
fn named_by(automaton: &Automaton, row: u32, named: u32) -> u32
    requires row { row < length (rows_of automaton.now) }
    requires named { named ≤ length (rows_of automaton.now) }
    ensures { IsNamed (atoms_of automaton.now) (rows_of automaton.now) row (class_count (atoms_of automaton.now))
        named result }
{
    let mut next = named;
    for class in 0..automaton.classes() {
        next = next.max(automaton.target(row, class) + 1);
    }
    next
}
