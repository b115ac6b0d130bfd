//! The lines of a set that no string meets.

ghost use Rattle.std.specs.Prelude.{◌≡◌, ◌++◌, map, drop, length, true, OnOk};
ghost use Rattle.refutations.specs.StatedRows as stated;
ghost use Rattle.refutations.specs.StringLines.{length_lines, string_lines};
ghost use Rattle.js_algebra.specs.View.{signed_view, are_in_table};
ghost use Rattle.js_nfa.specs.AtomView.{atom_view};
ghost use Rattle.js_automaton.specs.AutomatonView.{atoms_of, rows_of};
ghost use Rattle.js_lines.specs.View.{line_view};
ghost use Rattle.js_row_lines.specs.Dead.{AreDead};

use crate::least::least_line;
use crate::rows::add_row_lines;
use js_algebra::{Core, Signed};
use js_asked::Asked;
use js_automaton::Automaton;
use js_bounds::Bounds;
use js_doc::Memory;
use js_kept_automaton::KeptAutomaton;
use js_lines::CertLine;
use js_nfa::Atom;
use std::alloc::Global;

/// Adds the lines of rows and of least lengths of a set's words.
///
/// Where the atoms of the set pass a limit it answers want of memory. None is passed where bounds don't cross and no
/// string was found.
///
/// The automaton of the atoms is kept: it serves a later set with the same atoms, and changes no line.
pub fn add_string_lines(
    alloc: Global,
    core: &Core,
    set: &[Signed],
    kept: &mut KeptAutomaton,
    lines: &mut Vec<CertLine>,
) -> Result<(), Memory>
    requires { are_in_table core.now.positions (map signed_view set.now) ≡ true }
    ensures lines { OnOk result (map line_view lines.new.items ≡ map line_view lines.old.items
        ++ string_lines core.now.positions (map signed_view set.now)) }

    // Where no word of the set is found, they show by the checker's rules that no string meets it.
    ensures dead { OnOk result (AreDead core.now.positions (map signed_view set.now)
        (drop (length lines.old.items) (map line_view lines.new.items))) }
{
    let least = Bounds::of_strings(core, set).lower;
    let asked = Asked::of(alloc, core, set, least)?;
    add_lines_of(alloc, asked.atoms(), kept, lines)
}

/// Adds the lines of the atoms' automaton.
fn add_lines_of(
    alloc: Global,
    atoms: &[Atom],
    kept: &mut KeptAutomaton,
    lines: &mut Vec<CertLine>,
) -> Result<(), Memory>
    ensures { OnOk result (map line_view lines.new.items ≡ map line_view lines.old.items
        ++ length_lines (map atom_view atoms.now) (stated.rows_of (map atom_view atoms.now))) }
{
    match kept.of(alloc, atoms) {
        Ok(automaton) => add_length_lines(alloc, automaton, lines),
        Err(_) => Err(Memory),
    }
}

/// Adds the lines of an automaton's rows, and the lengths of their words.
fn add_length_lines(
    alloc: Global,
    automaton: &Automaton,
    lines: &mut Vec<CertLine>,
) -> Result<(), Memory>
    ensures { OnOk result (map line_view lines.new.items ≡ map line_view lines.old.items
        ++ length_lines (atoms_of automaton.now) (rows_of automaton.now)) }
{
    lines.push(CertLine::Strings(automaton.rows()))?;
    add_row_lines(alloc, automaton, lines)?;
    lines.push(least_line(alloc, automaton)?)?;
    Ok(())
}
