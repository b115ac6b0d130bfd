//! Runs of characters: consecutive ones of one class, in the order in which words are made.
//!
//! Letter by letter the many characters that lead to one row are gone through in one step. A set of classes has as many
//! runs as ranges, and some more where the order of characters cuts a range.

ghost use Rattle.std.specs.Prelude.{◌≡◌, ◌≤◌, ◌<◌, ◌+◌, ◌++◌, ℕ, true, false, flat_map, IfOk, OnOk};
ghost use Rattle.std.specs.Option.{MatchOption};
ghost use Rattle.patterns.specs.CharSet.{has, is_scalar};
ghost use Rattle.word_states.specs.Classes.{characters};
ghost use Rattle.js_automaton.specs.AutomatonView.{atoms_of};
ghost use Rattle.js_row_words.specs.Runs.{IsBlock, AreBlocks, block_letters, IsRun, AreRuns, spelled};

use js_automaton::Automaton;
use js_doc::Memory;
use js_pattern::CharSet;
use std::alloc::Global;

/// Consecutive characters of one class.
#[derive(Clone, Copy)]
pub(crate) struct Run {
    pub first: u32,
    pub count: u32,
    pub class: u32,
}

/// The characters in order, in blocks of consecutive ones: the first of each, and how many it has.
const BLOCKS: [(u32, u32); 10] = [
    (0x61, 26),
    (0x41, 26),
    (0x30, 10),
    (0x20, 16),
    (0x3a, 7),
    (0x5b, 6),
    (0x7b, 4),
    (0, 0x20),
    (0x7f, 0xd781),
    (0xe000, 0x102000),
];

/// All characters in order, as runs. It looks for each run among the ranges of all classes.
pub(crate) fn all_runs(alloc: Global, automaton: &Automaton) -> Result<Vec<Run>, Memory>
    ensures spelled { IfOk result (λ runs. spelled runs.items ≡ characters) }
    ensures runs { IfOk result (λ runs. AreRuns (atoms_of automaton.now) runs.items) }
{
    runs_of(alloc, automaton, &BLOCKS)
}

/// The characters of the blocks, as runs.
fn runs_of(alloc: Global, automaton: &Automaton, blocks: &[(u32, u32)]) -> Result<Vec<Run>, Memory>
    requires { AreBlocks blocks.now }
    ensures spelled { IfOk result (λ runs. spelled runs.items ≡ flat_map block_letters blocks.now) }
    ensures runs { IfOk result (λ runs. AreRuns (atoms_of automaton.now) runs.items) }
{
    let mut runs = Vec::new(alloc);
    for block in blocks {
        add_block(automaton, *block, &mut runs)?;
    }
    Ok(runs)
}

/// Adds the runs of a block.
fn add_block(automaton: &Automaton, block: (u32, u32), runs: &mut Vec<Run>) -> Result<(), Memory>
    requires block { IsBlock block }
    requires runs { AreRuns (atoms_of automaton.now) runs.old.items }
    ensures spelled { OnOk result (spelled runs.new.items
        ≡ spelled runs.old.items ++ block_letters block) }
    ensures runs { OnOk result (AreRuns (atoms_of automaton.now) runs.new.items) }
{
    let end = block.0 + block.1;
    let mut at = block.0;
    while at < end {
        let run = run_at(automaton, at, end);
        runs.push(run)?;
        at += run.count;
    }
    Ok(())
}

/// The run from a character on, which ends before `end`.
fn run_at(automaton: &Automaton, at: u32, end: u32) -> Run
    requires at { at < end }
    requires end { end ≤ 0x110000 }
    requires scalars { (c : ℕ) → at ≤ c → c < end → is_scalar c ≡ true }
    ensures first { result.first ≡ at }
    ensures end { result.first + result.count ≤ end }
    ensures run { IsRun (atoms_of automaton.now) result }
{
    for class in 0..automaton.classes() {
        if let Some(last) = last_with(automaton.class_set(class), at) {
            let more = (last - at).min(end - at - 1);
            return Run {
                first: at,
                count: more + 1,
                class,
            };
        }
    }
    Run {
        first: at,
        count: 1,
        class: 0,
    }
}

/// The last character of the range of a set in which a character lies.
fn last_with(set: &CharSet, at: u32) -> Option<u32>
    ensures { MatchOption result
        (has set.now at ≡ false)
        (λ last. (at ≤ last) × ((c : ℕ) → at ≤ c → c ≤ last → has set.now c ≡ true)) }
{
    for range in set.as_slice() {
        if range.0 <= at && at <= range.1 {
            return Some(range.1);
        }
    }
    None
}
