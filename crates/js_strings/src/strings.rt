//! The alternatives of a branch at strings, and the word of its one cell.

ghost use Rattle.std.specs.Prelude.{◌≡◌, ◌≤◌, ◌<◌, ℕ, List, [], ◌∷◌, map, length, take, get_or, reverse, ◌&&◌, true, Some, Ok, option_map, if◌then◌else◌, IfOk, IfErr};
ghost use Rattle.documents.specs.Tests.{every, is_scalar};
ghost use Rattle.documents.specs.Kind as K;
ghost use Rattle.documents.specs.Document.{string};
ghost use Rattle.goals.specs.Signed.{meets};
ghost use Rattle.goal_laws.specs.Saturated.{IsSaturated};
ghost use Rattle.alternatives.specs.Alternative as A;
ghost use Rattle.expansions.specs.Leaves.{scalar, scalar_leaf, word_of as found_word};
ghost use Rattle.finders.specs.Strings.{strings_of};
ghost use Rattle.finders.specs.Strings as S;
ghost use Rattle.js_algebra.specs.View.{signed_view, are_in_table};
ghost use Rattle.js_automaton.specs.AutomatonView.{rows_of};
ghost use Rattle.js_expansion.specs.AlternativeView.{alternative_view};
ghost use Rattle.js_strings.specs.Answers.{FaultSays};

use crate::rows::first_row;
use js_algebra::{BranchId, Core, JsonKind, Signed};
use js_asked::Asked;
use js_automaton::{AutoFault, Automaton};
use js_bounds::{Bounds, is_at_end};
use js_doc::{Memory, Str, StrList};
use js_expansion::{Alternative, AlternativeList, FillerList, Leaf, PlacedList, Shape};
use js_kept_automaton::KeptAutomaton;
use js_row_words::{letters_of, spell, steps};
use js_tableau::Branch;
use std::alloc::Global;

/// The letters of the word that is found for a set, from the last to the first.
fn find(
    alloc: Global,
    core: &Core,
    set: &[Signed],
    kept: &mut KeptAutomaton,
) -> Result<Option<Vec<char>>, AutoFault>
    requires { are_in_table core.now.positions (map signed_view set.now) ≡ true }
    ensures found { IfOk result (λ letters. strings_of core.now.positions (map signed_view set.now)
        ≡ Ok (option_map (λ v. reverse v.items) letters)) }
    ensures fault { IfErr result (λ fault. FaultSays (strings_of core.now.positions (map signed_view set.now)) fault) }
{
    let bounds = Bounds::of_strings(core, set);
    if bounds.are_crossed() {
        return Ok(None);
    }
    let asked = Asked::of(alloc, core, set, bounds.lower)?;
    let automaton = kept.of(alloc, asked.atoms())?;
    match first_row(&asked, automaton) {
        Some(row) => Ok(if_below(reached(alloc, automaton, row)?, bounds.below)),
        None => Ok(None),
    }
}

/// The letters of a row's word, from the last to the first.
fn reached(alloc: Global, automaton: &Automaton, row: u32) -> Result<Vec<char>, Memory>
    requires { row < length (rows_of automaton.now) }
    ensures { IfOk result (λ letters. reverse letters.items ≡ get_or (rows_of automaton.now) row []) }
{
    let steps = steps(alloc, automaton)?;
    letters_of(alloc, automaton, &steps, row)
}

/// The letters, where they are fewer than so many.
fn if_below(letters: Vec<char>, end: Option<u128>) -> Option<Vec<char>>
    ensures { option_map (λ v. reverse v.items) result ≡ S.if_below end (Some (reverse letters.items)) }
{
    if is_at_end(letters.len() as u128, end) {
        None
    } else {
        Some(letters)
    }
}

/// The alternatives of a branch: one, where a string meets its set. Its word is the first in the order of words that
/// the literals want and that is long enough, where it isn't too long.
///
/// The automaton of the literals' atoms is kept, or its limit: it serves a later branch with the same atoms, and
/// changes no answer.
pub fn string_alternatives(
    alloc: Global,
    core: &Core,
    branch: &Branch,
    kept: &mut KeptAutomaton,
) -> Result<Leaf, AutoFault>
    requires kind { branch.now.id.kind ≡ JsonKind.Text }
    requires in_table { are_in_table core.now.positions branch.now.set ≡ true }
    ensures leaf { IfOk result (λ leaf. scalar_leaf K.Text (λ w. A.Text) branch.now.id.number
        (strings_of core.now.positions branch.now.set) ≡ Ok leaf.alternatives) }
    ensures fault { IfErr result (λ fault. FaultSays (strings_of core.now.positions branch.now.set) fault) }

    // There is one where a string meets the set, and in a saturated set only there.
    ensures one { IfOk result (λ leaf. (w : List ℕ) → every is_scalar w ≡ true
        → meets core.now.positions branch.now.set (string w) ≡ true → length leaf.alternatives ≡ 1) }
    ensures met { IfOk result (λ leaf. IsSaturated core.now.positions K.Text branch.now.set
        → 0 < length leaf.alternatives → (w : List ℕ) × (every is_scalar w ≡ true)
        × (meets core.now.positions branch.now.set (string w) ≡ true)) }
{
    let _length = core.len();
    let found = find(alloc, core, branch.set.as_slice(), kept)?.is_some();
    Ok(leaf_of(alloc, branch.id, found)?)
}

/// The leaf of a branch: the alternative of its word, where one is found.
fn leaf_of(alloc: Global, branch: BranchId, found: bool) -> Result<Leaf, Memory>
    requires { branch.kind ≡ JsonKind.Text }
    ensures { IfOk result (λ leaf. leaf.alternatives
        ≡ (if found then scalar K.Text branch.number A.Text ∷ [] else [])) }
{
    if !found {
        return Ok(Leaf {
            alternatives: AlternativeList::from_vec(Vec::new(alloc)),
        });
    }
    let mut alternatives = Vec::new(alloc);
    alternatives.push(text(alloc, branch))?;
    Ok(Leaf {
        alternatives: AlternativeList::from_vec(alternatives),
    })
}

/// The alternative of a word.
fn text(alloc: Global, branch: BranchId) -> Alternative
    requires { branch.kind ≡ JsonKind.Text }
    ensures { alternative_view result ≡ scalar K.Text branch.number A.Text }
{
    Alternative {
        branch,
        shape: Shape::Text,
        members: PlacedList::from_vec(Vec::new(alloc)),
        need: 0,
        fillers: FillerList::from_vec(Vec::new(alloc)),
    }
}

/// The first words of a cell: at strings there is one cell, which has one word.
pub fn string_words(
    alloc: Global,
    core: &Core,
    branch: &Branch,
    cell: u32,
    count: u32,
) -> Result<StrList, Memory>
    requires in_table { are_in_table core.now.positions branch.now.set ≡ true }
    requires found { (w : List ℕ) × (strings_of core.now.positions branch.now.set ≡ Ok (Some w)) }
    requires cell { cell ≡ 0 }
    requires count { count ≤ 1 }
    ensures words { IfOk result (λ ws. ws
        ≡ take count (found_word (strings_of core.now.positions branch.now.set) cell 0 ∷ [])) }

    // The word is one, and meets a saturated set.
    ensures met { IfOk result (λ ws. IsSaturated core.now.positions K.Text branch.now.set
        → every (λ w. every is_scalar w && meets core.now.positions branch.now.set (string w)) ws ≡ true) }
{
    let _length = core.len();
    if count == 0 {
        return Ok(StrList::from_vec(Vec::new(alloc)));
    }
    let word = first_word(alloc, core, branch.set.as_slice())?;
    listed(alloc, word)
}

fn listed(alloc: Global, word: Str) -> Result<StrList, Memory>
    ensures { IfOk result (λ words. words ≡ word ∷ []) }
{
    let mut words = Vec::new(alloc);
    words.push(word)?;
    Ok(StrList::from_vec(words))
}

/// The word that is found for a set. No limit is passed, so only memory can be wanting.
fn first_word(alloc: Global, core: &Core, set: &[Signed]) -> Result<Str, Memory>
    requires in_table { are_in_table core.now.positions (map signed_view set.now) ≡ true }
    requires found { (w : List ℕ) × (strings_of core.now.positions (map signed_view set.now) ≡ Ok (Some w)) }
    ensures { IfOk result (λ word. strings_of core.now.positions (map signed_view set.now) ≡ Ok (Some word)) }
{
    match find(alloc, core, set, &mut KeptAutomaton::new()) {
        Ok(Some(letters)) => spell(alloc, letters),
        Ok(None) | Err(_) => Err(Memory),
    }
}
