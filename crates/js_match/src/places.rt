//! Sets of places in a word: lists, and tables of marks.

ghost use Rattle.std.specs.Prelude.{◌≡◌, ℕ, ◌+◌, ◌<◌, ◌^◌, ◌||◌, ◌&&◌, not, nat_lt, nat_eq, true, false, IfOk, IsOk, [], ◌∷◌, length, flat_map, if◌then◌else◌};
ghost use Rattle.documents.specs.Tests.{every};
ghost use Rattle.patterns.specs.Tree.{one_of};
ghost use Rattle.patterns.specs.Decision.{ends};
ghost use Rattle.js_match.specs.Places.{is_at, are_within, HasBoth, marked, unmarked};

use js_doc::Memory;
use js_pattern::CharSet;
use std::alloc::Global;

/// The places after one character of the set.
pub(crate) fn after_one(
    alloc: Global,
    set: &CharSet,
    word: &[char],
    starts: &[usize],
) -> Result<Vec<usize>, Memory>
    ensures { IfOk result (λ found. found.items ≡ flat_map (ends (one_of set.now) word.now) starts.now) }
{
    let mut found = Vec::new(alloc);
    for start in starts {
        if *start < word.len() && set.contains(word[*start]) {
            found.push(*start + 1)?;
        }
    }
    Ok(found)
}

/// That place alone, where it is one of the starts.
pub(crate) fn kept(alloc: Global, starts: &[usize], place: usize) -> Result<Vec<usize>, Memory>
    ensures { IfOk result (λ found. found.items ≡ (if is_at place starts.now then place ∷ [] else [])) }
{
    let mut found = Vec::new(alloc);
    if is_among(starts, place) {
        found.push(place)?;
    }
    Ok(found)
}

fn is_among(places: &[usize], place: usize) -> bool
    ensures { result ≡ is_at place places.now }
{
    places.contains(&place)
}

/// The places of two sets, each once and rising where the two are.
pub(crate) fn join(alloc: Global, xs: &[usize], ys: &[usize]) -> Result<Vec<usize>, Memory>
    ensures { IfOk result (λ zs. HasBoth xs.now ys.now zs.items) }
{
    let mut joined = Vec::new(alloc);
    let mut i = 0;
    let mut j = 0;
    while i < xs.len() || j < ys.len() {
        if j == ys.len() || i < xs.len() && xs[i] < ys[j] {
            joined.push(xs[i])?;
            i += 1;
        } else if i == xs.len() || ys[j] < xs[i] {
            joined.push(ys[j])?;
            j += 1;
        } else {
            joined.push(xs[i])?;
            i += 1;
            j += 1;
        }
    }
    Ok(joined)
}

/// Marks places, and gives those that weren't marked.
pub(crate) fn mark_new(
    alloc: Global,
    places: &[usize],
    marks: &mut Vec<bool>,
) -> Result<Vec<usize>, Memory>
    requires { every (λ i. nat_lt i (length marks.old.items)) places.now ≡ true }
    ensures len { length marks.new.items ≡ length marks.old.items }
    ensures marks { IsOk result → (j : ℕ) → marked marks.new.items j ≡ (marked marks.old.items j
        || is_at j places.now) }
    ensures fresh { IfOk result (λ new. (j : ℕ) → is_at j new.items ≡ (not (marked marks.old.items j)
        && is_at j places.now)) }
    ensures fewer { IfOk result (λ new. length new.items + unmarked marks.new.items ≡ unmarked marks.old.items) }
{
    let mut fresh = Vec::new(alloc);
    for place in places {
        mark_one(*place, marks, &mut fresh)?;
    }
    Ok(fresh)
}

fn mark_one(place: usize, marks: &mut Vec<bool>, fresh: &mut Vec<usize>) -> Result<(), Memory>
    requires { place < length marks.old.items }
    ensures len { length marks.new.items ≡ length marks.old.items }
    ensures marks { IsOk result → (j : ℕ) → marked marks.new.items j ≡ (marked marks.old.items j || nat_eq place j) }
    ensures fresh { IsOk result → (j : ℕ) → is_at j fresh.new.items
        ≡ (is_at j fresh.old.items || (not (marked marks.old.items place) && nat_eq place j)) }
    ensures fewer { IsOk result
        → length fresh.new.items + unmarked marks.new.items ≡ length fresh.old.items + unmarked marks.old.items }
{
    if !marks[place] {
        marks[place] = true;
        fresh.push(place)?;
    }
    Ok(())
}

pub(crate) fn mark_all(marks: &mut Vec<bool>, places: &[usize])
    requires { every (λ i. nat_lt i (length marks.old.items)) places.now ≡ true }
    ensures len { length marks.new.items ≡ length marks.old.items }
    ensures marks { (j : ℕ) → marked marks.new.items j ≡ (marked marks.old.items j || is_at j places.now) }
{
    for place in places {
        mark(marks, *place);
    }
}

fn mark(marks: &mut Vec<bool>, place: usize)
    requires { place < length marks.old.items }
    ensures len { length marks.new.items ≡ length marks.old.items }
    ensures marks { (j : ℕ) → marked marks.new.items j ≡ (marked marks.old.items j || nat_eq place j) }
{
    marks[place] = true;
}

/// The marked places, in order.
pub(crate) fn collect(alloc: Global, marks: &[bool]) -> Result<Vec<usize>, Memory>
    requires { length marks.now < 2 ^ 63 }
    ensures { IfOk result (λ places. (j : ℕ) → is_at j places.items ≡ marked marks.now j) }
{
    let mut places = Vec::new(alloc);
    for (place, mark) in marks.iter().enumerate() {
        if *mark {
            places.push(place)?;
        }
    }
    Ok(places)
}
