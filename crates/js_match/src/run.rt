//! Repeats of one set of characters, in one pass over the word however often they repeat.

ghost use Rattle.std.specs.Prelude.{◌≡◌, ℕ, ◌+◌, ◌-◌, ◌<◌, ◌≤◌, ◌^◌, ◌&&◌, nat_le, nat_lt, true, IfOk, IsOk, [], ◌∷◌, ◌++◌, length, if◌then◌else◌};
ghost use Rattle.patterns.specs.Tree.{one_of, repeated};
ghost use Rattle.patterns.specs.Match.{Matches};
ghost use Rattle.js_match.specs.Places.{Leads, is_at, are_within};
ghost use Rattle.js_match.specs.Runs.{begins, latest, fits, is_end, is_lone_end, reaches};

use crate::places::mark_all;
use js_doc::Memory;
use js_pattern::CharSet;
use std::alloc::Global;

/// The places at which a run of characters of the set ends that begins at one of the starts, and has at least `low`
/// characters and at most `high`. Time in the length of the word, and from one start in the length of its run.
pub(crate) fn after_run(
    alloc: Global,
    set: &CharSet,
    low: u32,
    high: Option<u32>,
    word: &[char],
    starts: &[usize],
) -> Result<Vec<usize>, Memory>
    requires places { are_within (length word.now) starts.now ≡ true }
    requires short { length word.now + 1 < 2 ^ 63 }
    ensures leads { IfOk result (λ ends. Leads (Matches (repeated (one_of set.now) low high)
        word.now) starts.now ends.items) }
    ensures within { IfOk result (λ ends. are_within (length word.now) ends.items ≡ true) }
{
    if starts.len() == 1 {
        return run_from(alloc, set, low as usize, high, word, starts[0]);
    }
    let mut marks = vec![in alloc; false; word.len() + 1]?;
    mark_all(&mut marks, starts);
    run_ends(alloc, set, low as usize, high, word, &marks)
}

/// `after_run` from one start, which needs no table of starts.
fn run_from(
    alloc: Global,
    set: &CharSet,
    low: usize,
    high: Option<u32>,
    word: &[char],
    start: usize,
) -> Result<Vec<usize>, Memory>
    requires start { start ≤ length word.now }
    requires short { length word.now + 1 < 2 ^ 63 }
    ensures { IfOk result (λ ends. (j : ℕ) → is_at j ends.items
        ≡ (nat_lt j (length word.now + 1) && is_lone_end set.now word.now start low high j)) }
{
    let mut ends = Vec::new(alloc);
    for end in start..word.len() + 1 {
        push_if(&mut ends, end, is_between(low, high, end - start))?;
        if end < word.len() && !set.contains(word[end]) {
            return Ok(ends);
        }
    }
    Ok(ends)
}

/// `after_run` from a table of the starts. For each place it knows where the run that ends there begins, and the last
/// start that is far enough before it: where any start serves, that one does.
fn run_ends(
    alloc: Global,
    set: &CharSet,
    low: usize,
    high: Option<u32>,
    word: &[char],
    marks: &[bool],
) -> Result<Vec<usize>, Memory>
    requires len { length marks.now ≡ length word.now + 1 }
    requires short { length word.now + 1 < 2 ^ 63 }
    ensures { IfOk result (λ ends. (j : ℕ) → is_at j ends.items
        ≡ (nat_lt j (length word.now + 1) && is_end set.now word.now marks.now low high j)) }
{
    let mut ends = Vec::new(alloc);
    let mut from = 0;
    let mut last = None;
    for end in 0..word.len() + 1 {
        last = last_start(last, end, low, marks);
        push_if(&mut ends, end, is_reached(from, last, end, high))?;
        from = run_start(from, end, set, word);
    }
    Ok(ends)
}

fn push_if(places: &mut Vec<usize>, place: usize, test: bool) -> Result<(), Memory>
    ensures { IsOk result → places.new.items
        ≡ (if test then places.old.items ++ place ∷ [] else places.old.items) }
{
    if test {
        places.push(place)?;
    }
    Ok(())
}

/// The last start at which a run of `low` characters can begin that ends at that place.
fn last_start(last: Option<usize>, end: usize, low: usize, marks: &[bool]) -> Option<usize>
    requires len { end < length marks.now }
    requires last { last ≡ latest marks.now (end - low) }
    ensures { result ≡ latest marks.now (end + 1 - low) }
{
    if end < low {
        return None;
    }
    if marks[end - low] {
        return Some(end - low);
    }
    last
}

/// Where a run that goes on past that place begins.
fn run_start(from: usize, end: usize, set: &CharSet, word: &[char]) -> usize
    requires from { from ≡ begins set.now word.now end }
    requires short { end < 2 ^ 63 }
    ensures { end < length word.now → result ≡ begins set.now word.now (end + 1) }
{
    if end < word.len() && !set.contains(word[end]) {
        return end + 1;
    }
    from
}

/// Whether a run from the last start reaches that place, with no more characters than the most.
fn is_reached(from: usize, last: Option<usize>, end: usize, high: Option<u32>) -> bool
    ensures { result ≡ reaches from last high end }
{
    match last {
        None => false,
        Some(start) => from <= start && is_short(end.saturating_sub(start), high),
    }
}

fn is_between(low: usize, high: Option<u32>, count: usize) -> bool
    ensures { result ≡ (nat_le low count && fits high count) }
{
    low <= count && is_short(count, high)
}

fn is_short(count: usize, most: Option<u32>) -> bool
    ensures { result ≡ fits most count }
{
    match most {
        None => true,
        Some(most) => count <= most as usize,
    }
}
