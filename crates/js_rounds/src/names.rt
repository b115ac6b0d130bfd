//! The words of the cells that a document names, and members under them in order.

ghost use Rattle.std.specs.Prelude.{◌≡◌, ◌<◌, ◌≤◌, ◌+◌, ◌^◌, ◌++◌, [], ℕ, List, true, map, max, IfOk, OnOk, get_or, length, take};
ghost use Rattle.std.specs.Ordering.{is_lt};
ghost use Rattle.documents.specs.Tests.{every, same_word, comes_before};
ghost use Rattle.alternatives.specs.Slots.{capacity, cell_at, word_at, has_room, are_different};
ghost use Rattle.alternatives.specs.Expansion.{names_branch};
ghost use Rattle.expansions.specs.DocumentOf.{slot_name};
ghost use Rattle.search.specs.Rounds.{NumberedPlaced};
ghost use Rattle.search.specs.Uses.{repeated};
ghost use Rattle.search.specs.Witness as W;
ghost use Rattle.shared_documents.specs.Part.{members_rise};
ghost use Rattle.list_laws.specs.In.{IsIn};
ghost use Rattle.js_algebra.specs.View.{kind_view};
ghost use Rattle.js_doc.specs.PartMembers.{member_view};
ghost use Rattle.js_expansion.specs.View.{slot_view};
ghost use Rattle.js_rounds.specs.Spread.{spread};
ghost use Rattle.js_rounds.specs.Slots.{slot_after, wanted, wanted_by, place_at};

use crate::elements::place_of;
use crate::runs::Run;
use js_algebra::{BranchId, Goal};
use js_doc::{Memory, PartId, PartMap, PartMember, Str, StrList};
use js_expansion::{Expander, Slot};
use std::alloc::Global;
use std::cmp::Ordering;

/// Zeros behind, up to a length.
fn widen(needs: &mut Vec<u64>, len: usize) -> Result<(), Memory>
    ensures same { OnOk result ((c : ℕ) → get_or needs.new.items c 0 ≡ get_or needs.old.items c 0) }
    ensures wide { OnOk result (len ≤ length needs.new.items) }
    ensures few { OnOk result (length needs.new.items ≡ max (length needs.old.items) len) }
{
    if needs.len() < len {
        needs.resize(len, 0)?;
    }
    Ok(())
}

/// As many words of each cell as a run needs, or as were needed before. A sum may be past the range of its terms.
fn need(needs: &mut Vec<u64>, run: &Run) -> Result<(), Memory>
    requires few { length needs.old.items ≤ 2 ^ 32 }
    ensures needs { OnOk result ((c : ℕ) → get_or needs.new.items c 0
        ≡ max (get_or needs.old.items c 0) (wanted (slot_view run.now.slot) run.now.count c)) }
    ensures few { OnOk result (length needs.new.items ≤ 2 ^ 32) }
{
    if run.count == 0 {
        return Ok(());
    }
    match run.slot {
        Slot::Index(_) => Ok(()),
        Slot::Name(cell, first) => {
            widen(needs, cell as usize + 1)?;
            let last = u64::from(first) + u64::from(run.count);
            needs[cell as usize] = needs[cell as usize].max(last);
            Ok(())
        }
    }
}

/// As many words of each cell as runs need.
fn needs(alloc: Global, runs: &[Run]) -> Result<Vec<u64>, Memory>
    ensures needs { IfOk result (λ v. (c : ℕ) → get_or v.items c 0 ≡ wanted_by runs.now c) }
    ensures few { IfOk result (λ v. length v.items ≤ 2 ^ 32) }
{
    let mut needs = Vec::new(alloc);
    for run in runs {
        need(&mut needs, run)?;
    }
    Ok(needs)
}

/// Of each cell the words that runs need. All are requested at once.
fn words_of<E: Expander>(
    alloc: Global,
    expander: &E,
    goal: &Goal,
    branch: BranchId,
    runs: &[Run],
) -> Result<Vec<StrList>, Memory>
    requires taken { E.takes expander.now goal.now ≡ true }
    requires branch { names_branch (E.expansion expander.now goal.now) (kind_view branch.kind) branch.number ≡ true }
    requires room { every (λ p. has_room (E.cells expander.now goal.now (kind_view branch.kind) branch.number) p.slot 1)
        (spread runs.now) ≡ true }
    ensures { IfOk result (λ v. (c : ℕ) → get_or v.items c [] ≡ take (wanted_by runs.now c)
        (cell_at (E.cells expander.now goal.now (kind_view branch.kind) branch.number) c)) }
{
    let needs = needs(alloc, runs)?;
    if needs.is_empty() {
        return Ok(Vec::new(alloc));
    }
    expander.words_by_cell(alloc, goal, branch, &needs)
}

/// Word `place` of a cell, nothing where there is none.
fn word(alloc: Global, lists: &[StrList], cell: usize, place: usize) -> Result<Str, Memory>
    ensures { IfOk result (λ s. s ≡ word_at lists.now cell place) }
{
    match lists.get(cell) {
        Some(list) => match list.as_slice().get(place) {
            Some(word) => word.copy(alloc),
            None => Str::from_text(alloc, ""),
        },
        None => Str::from_text(alloc, ""),
    }
}

/// The name of the slot so many behind one; an index has none.
fn name(alloc: Global, lists: &[StrList], slot: Slot, behind: u32) -> Result<Str, Memory>
    ensures { IfOk result (λ s. s ≡ slot_name (word_at lists.now) (slot_after (slot_view slot) behind)) }
{
    match slot {
        Slot::Index(_) => Str::from_text(alloc, ""),
        Slot::Name(cell, first) => {
            word(
                alloc,
                lists,
                cell as usize,
                first as usize + behind as usize,
            )
        }
    }
}

/// The members of a run, with a part for all.
fn add_members(
    alloc: Global,
    members: &mut Vec<PartMember>,
    lists: &[StrList],
    run: &Run,
    places: &[u32],
) -> Result<(), Memory>
    ensures { OnOk result (map member_view members.new.items ≡ map member_view members.old.items
        ++ map (W.named (word_at lists.now) (place_at places.now))
        (repeated (slot_view run.now.slot) run.now.count run.now.goal)) }
{
    let part = PartId(place_of(places, run.goal));
    for behind in 0..run.count {
        let name = name(alloc, lists, run.slot, behind)?;
        members.push(PartMember { name, part })?;
    }
    Ok(())
}

/// The members of runs.
fn members_of(
    alloc: Global,
    lists: &[StrList],
    runs: &[Run],
    places: &[u32],
) -> Result<Vec<PartMember>, Memory>
    ensures { IfOk result (λ v. map member_view v.items
        ≡ map (W.named (word_at lists.now) (place_at places.now)) (spread runs.now)) }
{
    let mut members = Vec::new(alloc);
    for run in runs {
        add_members(alloc, &mut members, lists, run, places)?;
    }
    Ok(members)
}

/// The order of the names.
fn compare(a: &PartMember, b: &PartMember) -> Ordering
    ensures { is_lt result ≡ comes_before a.now.name b.now.name }
{
    a.name.as_text().cmp(b.name.as_text())
}

/// The members in ascending order of their names.
fn in_order(mut members: Vec<PartMember>) -> Vec<PartMember>
    requires { are_different same_word (map (λ m. m.0) (map member_view members.items)) ≡ true }
    ensures sorted { map member_view result.items ≡ W.sorted (map member_view members.items) }
    ensures rising { members_rise (map member_view result.items) ≡ true }
{
    members.sort_unstable_by(compare);
    members
}

/// The members of runs, under the words of the branch, in ascending order of their names.
pub(crate) fn members<E: Expander>(
    alloc: Global,
    expander: &E,
    goal: &Goal,
    branch: BranchId,
    runs: &[Run],
    places: &[u32],
) -> Result<PartMap, Memory>
    requires taken { E.takes expander.now goal.now ≡ true }
    requires branch { names_branch (E.expansion expander.now goal.now) (kind_view branch.kind) branch.number ≡ true }
    requires room { every (λ p. has_room (E.cells expander.now goal.now (kind_view branch.kind) branch.number) p.slot 1)
        (spread runs.now) ≡ true }
    requires differ { are_different same_word (map (λ m. m.0)
        (map (W.named (word_at (E.cells expander.now goal.now (kind_view branch.kind) branch.number))
        (place_at places.now))
        (spread runs.now))) ≡ true }
    ensures { IfOk result (λ m. m ≡ W.sorted
        (map (W.named (word_at (E.cells expander.now goal.now (kind_view branch.kind) branch.number))
        (place_at places.now))
        (spread runs.now))) }
{
    let lists = words_of(alloc, expander, goal, branch, runs)?;
    let members = members_of(alloc, &lists, runs, places)?;
    Ok(PartMap::from_vec(in_order(members)))
}

/// The word of a text: the first of cell 0.
pub(crate) fn text<E: Expander>(
    alloc: Global,
    expander: &E,
    goal: &Goal,
    branch: BranchId,
) -> Result<Str, Memory>
    requires taken { E.takes expander.now goal.now ≡ true }
    requires branch { names_branch (E.expansion expander.now goal.now) (kind_view branch.kind) branch.number ≡ true }
    requires room { 0 < capacity (cell_at (E.cells expander.now goal.now (kind_view branch.kind) branch.number) 0) }
    ensures { IfOk result (λ s. s ≡ word_at (E.cells expander.now goal.now (kind_view branch.kind) branch.number) 0 0) }
{
    let words = expander.words(alloc, goal, branch, 0, 1)?;
    word(alloc, &[words], 0, 0)
}
