//! Tables of tests: one for each entry of a schema, or for each owner of requests.

ghost use Rattle.std.specs.Prelude.{◌≡◌, ℕ, ◌<◌, ◌≤◌, ◌&&◌, ◌||◌, not, nat_eq, nat_lt, true, false, IfOk, IsOk, map, length, get_or, if◌then◌else◌};
ghost use Rattle.std.specs.List.{filter};
ghost use Rattle.documents.specs.Tests.{every, some};
ghost use Rattle.documents.specs.Measures.{exactly_one};
ghost use Rattle.js_valid.specs.Parts.{flag};

use js_doc::Memory;
use std::alloc::Global;

/// The entry's test; past the end none holds.
pub(crate) fn holds(table: &[bool], entry: u32) -> bool
    ensures { result ≡ flag table.now entry }
{
    test_at(table, entry as usize)
}

/// The test at that place, in the same way.
pub(crate) fn test_at(table: &[bool], place: usize) -> bool
    ensures { result ≡ flag table.now place }
{
    place < table.len() && table[place]
}

pub(crate) fn all_hold(table: &[bool], entries: &[u32]) -> bool
    ensures { result ≡ every (flag table.now) entries.now }
{
    entries.iter().all(|entry| holds(table, *entry))
}

pub(crate) fn one_holds(table: &[bool], entries: &[u32]) -> bool
    ensures { result ≡ some (flag table.now) entries.now }
{
    entries.iter().any(|entry| holds(table, *entry))
}

/// Whether each test holds.
pub(crate) fn are_all(tests: &[bool]) -> bool
    ensures { result ≡ every (λ b. b) tests.now }
{
    tests.iter().all(|test| *test)
}

/// Whether exactly one of the entries has its test.
pub(crate) fn just_one_holds(table: &[bool], entries: &[u32]) -> bool
    ensures { result ≡ exactly_one (flag table.now) entries.now }
{
    let mut found = false;
    for entry in entries {
        if holds(table, *entry) {
            if found {
                return false;
            }
            found = true;
        }
    }
    found
}

/// The tests of the entries, in their order; there are no entries but the first so many.
pub(crate) fn tests_of(
    alloc: Global,
    table: &[bool],
    entries: &[u32],
    count: u32,
) -> Result<Vec<bool>, Memory>
    ensures { IfOk result (λ tests. tests.items ≡ map (λ q. nat_lt q count && flag table.now q) entries.now) }
{
    let mut tests = Vec::with_capacity(alloc, entries.len())?;
    for entry in entries {
        tests.push(*entry < count && holds(table, *entry))?;
    }
    Ok(tests)
}

/// Writes the test of an entry. The table grows where it is too short.
pub(crate) fn write(table: &mut Vec<bool>, entry: u32, verdict: bool) -> Result<(), Memory>
    ensures { IsOk result → (j : ℕ) → flag table.new.items j
        ≡ (if nat_eq entry j then verdict else flag table.old.items j) }
{
    reach(table, entry as usize + 1)?;
    set(table, entry, verdict);
    Ok(())
}

/// The same within the table.
pub(crate) fn set(table: &mut Vec<bool>, entry: u32, verdict: bool)
    requires { entry < length table.old.items }
    ensures len { length table.new.items ≡ length table.old.items }
    ensures value { (j : ℕ) → flag table.new.items j ≡ (if nat_eq entry j then verdict else flag table.old.items j) }
{
    table[entry as usize] = verdict;
}

/// Makes the table that long at least.
fn reach(table: &mut Vec<bool>, len: usize) -> Result<(), Memory>
    ensures len { IsOk result → len ≤ length table.new.items }
    ensures same { IsOk result → (j : ℕ) → flag table.new.items j ≡ flag table.old.items j }
{
    if table.len() < len {
        table.resize(len, false)?;
    }
    Ok(())
}

/// The first numbers, as the entries of a table that long.
pub(crate) fn all_entries(alloc: Global, count: u32) -> Result<Vec<u32>, Memory>
    ensures { IfOk result (λ entries. (length entries.items ≡ count)
        × ((i : ℕ) → i < count → get_or entries.items i 0 ≡ i)) }
{
    let mut entries = Vec::with_capacity(alloc, count as usize)?;
    for entry in 0..count {
        entries.push(entry)?;
    }
    Ok(entries)
}

/// Takes the test from the one at that place, where its answer is no.
pub(crate) fn refuse(table: &mut Vec<bool>, place: usize, answer: bool)
    ensures len { length table.new.items ≡ length table.old.items }
    ensures value { (j : ℕ) → flag table.new.items j ≡ (flag table.old.items j && (not (nat_eq place j) || answer)) }
{
    if place < table.len() && !answer {
        table[place] = false;
    }
}

/// Drops the places that don't have the test.
pub(crate) fn keep_places(places: &mut Vec<usize>, table: &[bool])
    ensures { places.new.items ≡ filter (flag table.now) places.old.items }
{
    places.retain(|place| test_at(table, *place));
}
