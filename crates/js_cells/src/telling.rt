//! What is said of the words of rows, by the truths of atoms there.
//!
//! It is found literal by literal, at all rows: a literal of atoms costs the rows at which these are true, and one that
//! says that none of them is true all rows besides. A plan is evaluated at each row.

ghost use Rattle.std.specs.Prelude.{◌≡◌, ◌<◌, ◌≤◌, ℕ, [], map, length, get_or, nat_eq, nat_lt, replicate, true, false, IfOk, OnOk};
ghost use Rattle.std.specs.List.{list_any};
ghost use Rattle.documents.specs.Document.{string};
ghost use Rattle.documents.specs.Tests.{every, some};
ghost use Rattle.list_laws.specs.In.{IsIn};
ghost use Rattle.positions.specs.Holds.{holds};
ghost use Rattle.js_automaton.specs.AutomatonView.{atoms_of, rows_of};
ghost use Rattle.js_said.specs.AtomNumbers.{is_true_at, are_below};
ghost use Rattle.js_said.specs.Saying.{IsPlanned, IsSaid, tells, told_of};
ghost use Rattle.js_cells.specs.Told.{AreSet, AreBlank, HavePlace};
ghost use Rattle.js_cells.specs.Truths.{AreTruths, AreWithin};

use crate::flags::Flags;
use crate::truths::{Truths, is_true};
use js_algebra::Core;
use js_automaton::Automaton;
use js_doc::Memory;
use js_said::Said;
use js_tableau::NamePlan;
use std::alloc::Global;

/// What each of the literals says of the words of each row.
pub(crate) fn tell_rows(
    alloc: Global,
    core: &Core,
    automaton: &Automaton,
    truths: &Truths,
    said: &[Said],
) -> Result<Vec<Flags>, Memory>
    requires truths { AreTruths (atoms_of automaton.now) (rows_of automaton.now) truths.now }
    requires said { (s : Said) → IsIn s said.now → IsSaid core.now.positions (atoms_of automaton.now) s }
    ensures { IfOk result (λ v. v.items
        ≡ map (told_of core.now.positions (atoms_of automaton.now) said.now) (rows_of automaton.now)) }
{
    let mut told = blank(alloc, automaton.rows(), said.len())?;
    let mut room = Room {
        asked: Vec::new(alloc),
        held: Vec::new(alloc),
    };
    for (place, s) in said.iter().enumerate() {
        tell(core, automaton, truths, s, place, &mut room, &mut told)?;
    }
    Ok(told)
}

/// Room that is kept from row to row: for the truths that a plan is evaluated by, and a place for each position once a
/// plan is evaluated, and none before.
#[derive(Drop)]
struct Room {
    asked: Vec<bool>,
    held: Vec<bool>,
}

/// Nothing, for so many rows and literals.
fn blank(alloc: Global, rows: u32, literals: usize) -> Result<Vec<Flags>, Memory>
    ensures { IfOk result (λ v. v.items ≡ replicate rows (replicate literals false)) }
{
    let mut told = Vec::with_capacity(alloc, rows as usize)?;
    for row in 0..rows {
        let _ = row;
        told.push(Flags::none(alloc, literals)?)?;
    }
    Ok(told)
}

/// Writes what a literal says of each row.
fn tell(
    core: &Core,
    automaton: &Automaton,
    truths: &Truths,
    said: &Said,
    place: usize,
    room: &mut Room,
    told: &mut Vec<Flags>,
) -> Result<(), Memory>
    requires truths { AreTruths (atoms_of automaton.now) (rows_of automaton.now) truths.now }
    requires said { IsSaid core.now.positions (atoms_of automaton.now) said.now }
    requires rows { length told.old.items ≡ length (rows_of automaton.now) }
    requires place { HavePlace place told.old.items }
    requires blank { AreBlank place told.old.items }
    ensures { OnOk result (AreSet (λ r. tells core.now.positions (atoms_of automaton.now)
        (get_or (rows_of automaton.now) r []) said.now) true place told.old.items told.new.items) }
{
    match said {
        Said::AnyOf(numbers) => {
            set_where(truths, numbers, place, true, told);
            Ok(())
        }
        Said::NoneOf(numbers) => {
            set_all(place, told);
            set_where(truths, numbers, place, false, told);
            Ok(())
        }
        Said::Planned(plan, numbers) => {
            tell_plan(core, automaton, plan, numbers, place, room, told)
        }
    }
}

/// Writes a flag at the rows at which one of the atoms is true.
fn set_where(truths: &Truths, numbers: &[usize], place: usize, flag: bool, told: &mut Vec<Flags>)
    requires numbers { every (λ k. nat_lt k (length truths.now)) numbers.now ≡ true }
    requires within { AreWithin (length told.old.items) truths.now }
    requires place { HavePlace place told.old.items }
    ensures { AreSet (λ r. some (λ k. list_any (nat_eq r) (get_or truths.now k [])) numbers.now) flag place
        told.old.items told.new.items }
{
    for number in numbers {
        set_rows(truths.of(*number), place, flag, told);
    }
}

/// Writes a flag at these rows.
fn set_rows(rows: &[u32], place: usize, flag: bool, told: &mut Vec<Flags>)
    requires rows { (i : ℕ) → i < length rows.now → get_or rows.now i 0 < length told.old.items }
    requires place { HavePlace place told.old.items }
    ensures { AreSet (λ r. list_any (nat_eq r) rows.now) flag place told.old.items told.new.items }
{
    for row in rows {
        told[*row as usize].put(place, flag);
    }
}

/// Sets a flag of every row.
fn set_all(place: usize, told: &mut Vec<Flags>)
    requires { HavePlace place told.old.items }
    ensures { AreSet (λ r. true) true place told.old.items told.new.items }
{
    for row in 0..told.len() {
        told[row].put(place, true);
    }
}

/// Writes at each row whether the root of a plan holds of its words.
fn tell_plan(
    core: &Core,
    automaton: &Automaton,
    plan: &NamePlan,
    numbers: &[usize],
    place: usize,
    room: &mut Room,
    told: &mut Vec<Flags>,
) -> Result<(), Memory>
    requires plan { IsPlanned core.now.positions (atoms_of automaton.now) plan.now numbers.now }
    requires rows { length told.old.items ≡ length (rows_of automaton.now) }
    requires place { HavePlace place told.old.items }
    requires blank { AreBlank place told.old.items }
    ensures { OnOk result (AreSet (λ r. holds core.now.positions plan.now.root
        (string (get_or (rows_of automaton.now) r []))) true place told.old.items told.new.items) }
{
    for row in 0..automaton.rows() {
        let truth = planned(core, automaton, plan, numbers, row, room)?;
        told[row as usize].put(place, truth);
    }
    Ok(())
}

/// Whether the root of a plan holds of the words of a row.
fn planned(
    core: &Core,
    automaton: &Automaton,
    plan: &NamePlan,
    numbers: &[usize],
    row: u32,
    room: &mut Room,
) -> Result<bool, Memory>
    requires plan { IsPlanned core.now.positions (atoms_of automaton.now) plan.now numbers.now }
    requires row { row < length (rows_of automaton.now) }
    ensures { IfOk result (λ b. b ≡ holds core.now.positions plan.now.root
        (string (get_or (rows_of automaton.now) row []))) }
{
    ask(automaton, numbers, row, &mut room.asked)?;
    make_room(core, &mut room.held)?;
    Ok(plan.truth(core, &room.asked, room.held.as_mut_slice()))
}

/// Makes a place for each position, where there is none yet.
fn make_room(core: &Core, held: &mut Vec<bool>) -> Result<(), Memory>
    ensures { OnOk result (length core.now.positions ≤ length held.new.items) }
{
    let count = core.len() as usize;
    if held.len() < count {
        held.resize(count, false)?;
    }
    Ok(())
}

/// Writes the truths of the atoms at a row, in order.
fn ask(
    automaton: &Automaton,
    numbers: &[usize],
    row: u32,
    asked: &mut Vec<bool>,
) -> Result<(), Memory>
    requires numbers { are_below (atoms_of automaton.now) numbers.now ≡ true }
    requires row { row < length (rows_of automaton.now) }
    ensures { OnOk result (asked.new.items
        ≡ map (is_true_at (atoms_of automaton.now) (get_or (rows_of automaton.now) row [])) numbers.now) }
{
    asked.clear();
    for number in numbers {
        asked.push(is_true(automaton, *number, row))?;
    }
    Ok(())
}
