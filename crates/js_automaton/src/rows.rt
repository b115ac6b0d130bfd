//! Rows: the states that words reach, found by hashing and numbered in order of first mention.
//!
//! The rows are gone through in order, and the classes in order for each: the state that a row leads to by a class gets
//! the next number where it is new. It costs a step and a hash for each row and class, and each state is stored once.

ghost use Rattle.std.specs.Prelude.{◌≡◌, ◌<◌, ◌≤◌, ◌*◌, ◌⊎◌, ℕ, List, map, length, IfOk, OnOk, IfErr};
ghost use Rattle.std.specs.List.{position_or_len};
ghost use Rattle.indexmap.specs.IndexSet.{insert_key};
ghost use Rattle.word_states.specs.Classes.{class_count};
ghost use Rattle.word_states.specs.Rows.{HaveStates};
ghost use Rattle.js_nfa.specs.AtomView.{atom_view};
ghost use Rattle.word_states.specs.AtomPositions.{positions_of};
ghost use Rattle.js_automaton.specs.Keys.{same_tuple};
ghost use Rattle.js_automaton.specs.Building.{AreStates, IsFound, HaveRows};
ghost use Rattle.js_automaton.specs.Told.{AreTold};
ghost use Rattle.js_nfa.specs.View.{tree_of};
ghost use Rattle.js_automaton.specs.TuplesView as tuples_view;
ghost use Rattle.js_automaton.specs.AutomatonView.{atoms_of, rows_of};

use crate::automaton::Automaton;
use crate::fault::AutoFault;
use crate::state::TupleState;
use crate::tuples::Tuples;
use indexmap::IndexSet;
use js_doc::Memory;
use js_nfa::Atom;
use js_pattern_positions::PositionSet;
use std::alloc::Global;

/// The most rows that atoms may have.
const MOST: usize = 65536;

/// The automaton of these atoms. The limit on positions is looked at before that on classes, and that before the one on
/// rows.
pub fn build(alloc: Global, atoms: &[Atom]) -> Result<Automaton, AutoFault>
    ensures atoms { IfOk result (λ a. atoms_of a ≡ map atom_view atoms.now) }
    ensures positions { OnOk result (positions_of (map atom_view atoms.now) ≤ 16384) }
    ensures classes { OnOk result (class_count (map atom_view atoms.now) ≤ 1024) }
    ensures states { OnOk result ((n : ℕ) → HaveStates (map atom_view atoms.now) n → n ≤ 65536) }
    ensures limit_positions { IfErr result (λ fault. fault ≡ AutoFault.LimitPositions
        → 16384 < positions_of (map atom_view atoms.now)) }
    ensures limit_classes { IfErr result (λ fault. fault ≡ AutoFault.LimitClasses
        → (positions_of (map atom_view atoms.now) ≤ 16384) × (1024 < class_count (map atom_view atoms.now))) }
    ensures limit_states { IfErr result (λ fault. fault ≡ AutoFault.LimitStates
        → (positions_of (map atom_view atoms.now) ≤ 16384) × (class_count (map atom_view atoms.now) ≤ 1024)
        × HaveStates (map atom_view atoms.now) 65537) }
{
    let tuples = Tuples::new(alloc, atoms)?.with_columns(alloc)?;
    let (states, targets) = find_rows(alloc, &tuples)?;
    let told = tell_rows(alloc, &tuples, &states)?;
    Ok(Automaton {
        tuples,
        states,
        targets,
        told,
    })
}

/// The states of all rows, and the rows that each leads to by each class.
fn find_rows(alloc: Global, tuples: &Tuples) -> Result<(IndexSet<TupleState>, Vec<u32>), AutoFault>
    ensures rows { IfOk result (λ r. HaveRows (tuples_view.atoms_of tuples.now) r.0.keys r.1.items) }
    ensures limit { IfErr result (λ fault. fault ≡ AutoFault.LimitStates
        → HaveStates (tuples_view.atoms_of tuples.now) 65537) }
    ensures only { IfErr result (λ fault. (fault ≡ AutoFault.LimitStates) ⊎ (fault ≡ AutoFault.Memory)) }
{
    let mut states = IndexSet::new(alloc);
    let mut targets = Vec::new(alloc);
    let start = tuples.start(alloc)?;
    states.insert(start)?;
    let mut row = 0;
    while row < states.len() {
        go_through(alloc, tuples, &mut states, &mut targets, row)?;
        row += 1;
    }
    Ok((states, targets))
}

/// Whether each pattern matches in the words of each state, one state after another.
///
/// A bit for each costs little beside the states, which have a set of positions for each. Where there are 2^32 of them
/// or more it answers want of memory, which the states take before.
fn tell_rows(
    alloc: Global,
    tuples: &Tuples,
    states: &IndexSet<TupleState>,
) -> Result<PositionSet, Memory>
    requires made { (rows : List (List ℕ)) × AreStates (tuples_view.atoms_of tuples.now) states.now.keys rows }
    ensures told { IfOk result (λ t. AreTold (tuples_view.atoms_of tuples.now) (map tree_of tuples.now.patterns.items)
        states.now.keys t.flags) }
    ensures small { OnOk result (length states.now.keys * length tuples.now.patterns.items < 4294967296) }
{
    let room = count_told(states.len(), tuples.count_patterns())?;
    let mut told = PositionSet::with_room(alloc, room)?;
    for row in 0..states.len() {
        tuples.tell(&states[row], &mut told);
    }
    Ok(told)
}

/// How many bits there are for so many rows and patterns.
fn count_told(rows: usize, patterns: usize) -> Result<u32, Memory>
    ensures { IfOk result (λ n. n ≡ rows * patterns) }
{
    let Some(count) = rows.checked_mul(patterns) else {
        return Err(Memory);
    };
    match u32::try_from(count) {
        Ok(count) => Ok(count),
        Err(_) => Err(Memory),
    }
}

/// Goes through the classes of a row, and appends the rows that it leads to.
fn go_through(
    alloc: Global,
    tuples: &Tuples,
    states: &mut IndexSet<TupleState>,
    targets: &mut Vec<u32>,
    row: usize,
) -> Result<(), AutoFault>
    requires found { IsFound (tuples_view.atoms_of tuples.now) states.old.keys targets.old.items row 0 }
    requires few { length states.old.keys ≤ 65536 }
    ensures found { OnOk result (IsFound (tuples_view.atoms_of tuples.now) states.new.keys targets.new.items row
        (class_count (tuples_view.atoms_of tuples.now))) }
    ensures few { OnOk result (length states.new.keys ≤ 65536) }
    ensures limit { IfErr result (λ fault. fault ≡ AutoFault.LimitStates
        → HaveStates (tuples_view.atoms_of tuples.now) 65537) }
    ensures only { IfErr result (λ fault. (fault ≡ AutoFault.LimitStates) ⊎ (fault ≡ AutoFault.Memory)) }
{
    let follows = tuples.follows(alloc, &states[row])?;
    for class in 0..tuples.classes() {
        let next = tuples.step_by(alloc, &states[row], &follows, class)?;
        match insert(states, next) {
            Ok(number) => targets.push(number)?,
            Err(fault) => return Err(fault),
        }
    }
    Ok(())
}

/// The number of a state, which is the next one where the state is new.
fn insert(states: &mut IndexSet<TupleState>, state: TupleState) -> Result<u32, AutoFault>
    requires { length states.old.keys ≤ 65536 }
    ensures keys { OnOk result (states.new.keys ≡ insert_key same_tuple states.old.keys state) }
    ensures number { IfOk result (λ n. n ≡ position_or_len (same_tuple state) states.old.keys) }
    ensures few { OnOk result (length states.new.keys ≤ 65536) }
    ensures limit { IfErr result (λ fault. fault ≡ AutoFault.LimitStates
        → length (insert_key same_tuple states.old.keys state) ≡ 65537) }
    ensures only { IfErr result (λ fault. (fault ≡ AutoFault.LimitStates) ⊎ (fault ≡ AutoFault.Memory)) }
{
    let (number, _) = states.insert_full(state)?;
    if states.len() > MOST {
        return Err(AutoFault::LimitStates);
    }
    Ok(number as u32)
}
