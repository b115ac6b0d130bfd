//! Where matches of a pattern can end: for a tree and a set of places of a word, the places at which a match that
//! begins at one of them ends.
//!
//! A set is a list of places, without repeats and rising. Node after node of the tree is taken once for the whole set.
//! A repeat stops where the set stays as it is, so at most as many rounds are made as the word is long, however often
//! it repeats.

ghost use Rattle.std.specs.Prelude.{◌≡◌, ◌+◌, ◌-◌, ◌<◌, ◌^◌, true, IfOk, length, option_map};
ghost use Rattle.patterns.specs.Tree.{one_of, repeated};
ghost use Rattle.patterns.specs.Match.{Matches, MatchesInTurn, MatchesOne, Repeats};
ghost use Rattle.js_pattern.specs.View.{view, list_view};
ghost use Rattle.js_match.specs.Places.{Leads, More, are_within, is_open};

use crate::places::{after_one, collect, join, kept, mark_new};
use crate::run::after_run;
use js_doc::Memory;
use js_pattern::{CharSet, Re, ReList};
use std::alloc::Global;

#[cycle(walk)]
pub(crate) fn walk(
    alloc: Global,
    re: &Re,
    word: &[char],
    starts: &[usize],
) -> Result<Vec<usize>, Memory>
    requires places { are_within (length word.now) starts.now ≡ true }
    requires short { length word.now + 1 < 2 ^ 63 }
    ensures leads { IfOk result (λ ends. Leads (Matches (view re.now) word.now) starts.now ends.items) }
    ensures within { IfOk result (λ ends. are_within (length word.now) ends.items ≡ true) }
{
    match re {
        Re::Empty => Ok(Vec::from_slice(alloc, starts)?),
        Re::Set(set) => walk_one(alloc, set, word, starts),
        Re::Start => kept(alloc, starts, 0),
        Re::End => kept(alloc, starts, word.len()),
        Re::Seq(list) => walk_in_turn(alloc, list, word, starts),
        Re::Alt(list) => walk_either(alloc, list, word, starts),
        Re::Repeat(inner, low, high) => walk_repeat(alloc, inner, *low, *high, word, starts),
    }
}

fn walk_one(
    alloc: Global,
    set: &CharSet,
    word: &[char],
    starts: &[usize],
) -> Result<Vec<usize>, Memory>
    requires { are_within (length word.now) starts.now ≡ true }
    ensures leads { IfOk result (λ ends. Leads (Matches (one_of set.now) word.now) starts.now ends.items) }
    ensures within { IfOk result (λ ends. are_within (length word.now) ends.items ≡ true) }
{
    after_one(alloc, set, word, starts)
}

/// The tree so often at least, and so often at most.
#[cycle(walk)]
fn walk_repeat(
    alloc: Global,
    re: &Re,
    low: u32,
    high: Option<u32>,
    word: &[char],
    starts: &[usize],
) -> Result<Vec<usize>, Memory>
    requires places { are_within (length word.now) starts.now ≡ true }
    requires short { length word.now + 1 < 2 ^ 63 }
    ensures leads { IfOk result (λ ends. Leads (Matches (repeated (view re.now) low high)
        word.now) starts.now ends.items) }
    ensures within { IfOk result (λ ends. are_within (length word.now) ends.items ≡ true) }
{
    if let Re::Set(set) = re {
        return after_run(alloc, set, low, high, word, starts);
    }
    let after = walk_times(alloc, re, word, starts, low)?;
    match high {
        None => walk_more(alloc, re, word, &after, None),
        Some(most) if most < low => Ok(Vec::new(alloc)),
        Some(most) => walk_more(alloc, re, word, &after, Some(most - low)),
    }
}

/// The places to which the trees of a list lead, one after another.
#[cycle(walk)]
fn walk_in_turn(
    alloc: Global,
    list: &ReList,
    word: &[char],
    starts: &[usize],
) -> Result<Vec<usize>, Memory>
    requires places { are_within (length word.now) starts.now ≡ true }
    requires short { length word.now + 1 < 2 ^ 63 }
    ensures leads { IfOk result (λ ends. Leads (MatchesInTurn (list_view list.now) word.now) starts.now ends.items) }
    ensures within { IfOk result (λ ends. are_within (length word.now) ends.items ≡ true) }
{
    let mut places = Vec::from_slice(alloc, starts)?;
    for re in list.as_slice() {
        if places.is_empty() {
            return Ok(places);
        }
        places = walk(alloc, re, word, &places)?;
    }
    Ok(places)
}

/// The places to which one tree of a list or another leads.
#[cycle(walk)]
fn walk_either(
    alloc: Global,
    list: &ReList,
    word: &[char],
    starts: &[usize],
) -> Result<Vec<usize>, Memory>
    requires places { are_within (length word.now) starts.now ≡ true }
    requires short { length word.now + 1 < 2 ^ 63 }
    ensures leads { IfOk result (λ ends. Leads (MatchesOne (list_view list.now) word.now) starts.now ends.items) }
    ensures within { IfOk result (λ ends. are_within (length word.now) ends.items ≡ true) }
{
    let mut found = Vec::new(alloc);
    for re in list.as_slice() {
        let ends = walk(alloc, re, word, starts)?;
        found = join(alloc, &found, &ends)?;
    }
    Ok(found)
}

/// The tree so often.
#[cycle(walk)]
fn walk_times(
    alloc: Global,
    re: &Re,
    word: &[char],
    starts: &[usize],
    times: u32,
) -> Result<Vec<usize>, Memory>
    requires places { are_within (length word.now) starts.now ≡ true }
    requires short { length word.now + 1 < 2 ^ 63 }
    ensures leads { IfOk result (λ ends. Leads (Repeats (Matches (view re.now) word.now) times) starts.now ends.items) }
    ensures within { IfOk result (λ ends. are_within (length word.now) ends.items ≡ true) }
{
    let mut places = Vec::from_slice(alloc, starts)?;
    for round in 0..times {
        let next = walk(alloc, re, word, &places)?;
        if next == places {
            return Ok(places);
        }
        places = next;
    }
    Ok(places)
}

/// The tree any number of times, up to `most`.
#[cycle(walk)]
fn walk_more(
    alloc: Global,
    re: &Re,
    word: &[char],
    starts: &[usize],
    most: Option<u32>,
) -> Result<Vec<usize>, Memory>
    requires places { are_within (length word.now) starts.now ≡ true }
    requires short { length word.now + 1 < 2 ^ 63 }
    ensures leads { IfOk result (λ ends. Leads (More (Matches (view re.now) word.now) most) starts.now ends.items) }
    ensures within { IfOk result (λ ends. are_within (length word.now) ends.items ≡ true) }
{
    let mut marks = vec![in alloc; false; word.len() + 1]?;
    let mut fresh = mark_new(alloc, starts, &mut marks)?;
    let mut left = most;
    while goes_on(&fresh, left) {
        let next = walk(alloc, re, word, &fresh)?;
        fresh = mark_new(alloc, &next, &mut marks)?;
        left = one_less(left);
    }
    collect(alloc, &marks)
}

fn one_less(left: Option<u32>) -> Option<u32>
    ensures { result ≡ option_map (λ n. n - 1) left }
{
    match left {
        None => None,
        Some(n) => Some(n.saturating_sub(1)),
    }
}

fn goes_on(fresh: &[usize], left: Option<u32>) -> bool
    ensures { result ≡ is_open fresh.now left }
{
    !fresh.is_empty() && left != Some(0)
}
