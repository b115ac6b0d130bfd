//! What is printed of the automaton of some atoms.
//!
//! Where there are more than 60 rows or classes, a sum over all targets stands for them, and for each atom the number
//! of rows in which it is true.

ghost use Rattle.std.specs.Prelude.{◌≡◌, ◌<◌, ◌≤◌, length};
ghost use Rattle.word_states.specs.Classes.{class_count};
ghost use Rattle.js_automaton.specs.AutomatonView.{atoms_of, rows_of};

use crate::line::{LineFault, read_atoms};
use js_automaton::{AutoFault, Automaton, build};
use js_nfa::Atom;
use js_pattern::CharSet;
use std::alloc::{AllocError, Global};
use std::fmt::Write;

/// The most rows and classes that are printed.
const MOST_SHOWN: u32 = 60;

/// The block of text for the atoms of a line.
pub(crate) fn answer(alloc: Global, line: &str) -> Result<String, AllocError> {
    match read_atoms(alloc, line) {
        Ok(atoms) => answer_of_atoms(alloc, atoms.as_slice()),
        Err(LineFault::Memory) => Err(AllocError),
        Err(LineFault::NotAtoms) => String::from_str(alloc, "no atoms\n"),
        Err(LineFault::NotAPattern) => String::from_str(alloc, "no pattern\n"),
    }
}

fn answer_of_atoms(alloc: Global, atoms: &[Atom]) -> Result<String, AllocError> {
    match build(alloc, atoms) {
        Ok(automaton) => block(alloc, &automaton, atoms.len()),
        Err(AutoFault::LimitPositions) => String::from_str(alloc, "limit positions\n"),
        Err(AutoFault::LimitClasses) => String::from_str(alloc, "limit classes\n"),
        Err(AutoFault::LimitStates) => String::from_str(alloc, "limit states\n"),
        Err(AutoFault::Memory) => Err(AllocError),
    }
}

fn block(alloc: Global, automaton: &Automaton, atoms: usize) -> Result<String, AllocError>
    requires { atoms ≡ length (atoms_of automaton.now) }
{
    let classes = automaton.classes();
    let rows = automaton.rows();
    let mut out = String::new(alloc);
    writeln!(out, "classes {classes} rows {rows}")?;
    if classes > MOST_SHOWN || rows > MOST_SHOWN {
        write_sums(&mut out, automaton, atoms)?;
    } else {
        write_classes(&mut out, automaton)?;
        write_rows(&mut out, automaton, atoms)?;
    }
    Ok(out)
}

/// Adds a sum over all targets, and in how many rows each atom is true.
fn write_sums(out: &mut String, automaton: &Automaton, atoms: usize) -> Result<(), AllocError>
    requires { atoms ≡ length (atoms_of automaton.now) }
{
    let sum = sum_of_targets(automaton);
    writeln!(out, "sum {sum}")?;
    for atom in 0..atoms {
        let count = rows_where(automaton, atom);
        writeln!(out, "true in {count}")?;
    }
    Ok(())
}

fn sum_of_targets(automaton: &Automaton) -> u32 {
    let mut sum = 0;
    for row in 0..automaton.rows() {
        sum = with_row(automaton, row, sum);
    }
    sum
}

/// The sum with the targets of one more row: 31 times as much for each, and the target.
fn with_row(automaton: &Automaton, row: u32, sum: u32) -> u32
    requires { row < length (rows_of automaton.now) }
{
    let mut sum = sum;
    for class in 0..automaton.classes() {
        sum = sum
            .wrapping_mul(31)
            .wrapping_add(automaton.target(row, class));
    }
    sum
}

fn rows_where(automaton: &Automaton, atom: usize) -> u32
    requires { atom < length (atoms_of automaton.now) }
{
    let mut count = 0;
    for row in 0..automaton.rows() {
        if automaton.signature(row, atom) {
            count += 1;
        }
    }
    count
}

fn write_classes(out: &mut String, automaton: &Automaton) -> Result<(), AllocError> {
    for class in 0..automaton.classes() {
        write_set(out, automaton.class_set(class))?;
    }
    Ok(())
}

/// Adds the ranges of a set, in hexadecimal, as a line.
fn write_set(out: &mut String, set: &CharSet) -> Result<(), AllocError> {
    out.push_str("[")?;
    for (i, range) in set.as_slice().iter().enumerate() {
        if i > 0 {
            out.push_str(",")?;
        }
        let (first, last) = *range;
        write!(out, "{first:x}")?;
        if first < last {
            write!(out, "-{last:x}")?;
        }
    }
    out.push_str("]\n")
}

fn write_rows(out: &mut String, automaton: &Automaton, atoms: usize) -> Result<(), AllocError>
    requires { atoms ≡ length (atoms_of automaton.now) }
{
    for row in 0..automaton.rows() {
        write_targets(out, automaton, row)?;
        write_truths(out, automaton, row, atoms)?;
    }
    Ok(())
}

/// Adds the targets of a row, class by class, with a space after each.
fn write_targets(out: &mut String, automaton: &Automaton, row: u32) -> Result<(), AllocError>
    requires { row < length (rows_of automaton.now) }
{
    for class in 0..automaton.classes() {
        let target = automaton.target(row, class);
        write!(out, "{target} ")?;
    }
    Ok(())
}

/// Adds the truth of each atom in a row, and ends the line.
fn write_truths(
    out: &mut String,
    automaton: &Automaton,
    row: u32,
    atoms: usize,
) -> Result<(), AllocError>
    requires row { row < length (rows_of automaton.now) }
    requires atoms { atoms ≡ length (atoms_of automaton.now) }
{
    out.push_str("|")?;
    for atom in 0..atoms {
        let truth = if automaton.signature(row, atom) {
            " 1"
        } else {
            " 0"
        };
        out.push_str(truth)?;
    }
    out.push_str("\n")
}
