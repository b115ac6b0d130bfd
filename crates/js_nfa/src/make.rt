//! The automaton of a pattern, where it has not too many positions.

ghost use Rattle.std.specs.Prelude.{◌≡◌, ◌<◌, ◌≤◌, IfOk, IfErr, OnOk};
ghost use Rattle.std.specs.Option.{ForSome};
ghost use Rattle.word_states.specs.Position.{count_of};
ghost use Rattle.js_pattern.specs.View.{view};
ghost use Rattle.js_nfa.specs.View.{tree_of};
ghost use Rattle.js_nfa.specs.AreFollowSets.{AreFollowSets};

use crate::fault::NfaFault;
use crate::follow_sets::FollowSets;
use crate::nfa::Nfa;
use js_doc::Memory;
use js_pattern::Re;
use js_pattern_positions::{MOST, count_positions, done_from};
use std::alloc::Global;

/// How many positions a tree has at most for which follow sets are made.
const MOST_WITH_FOLLOW_SETS: u32 = 256;

/// The automaton of a pattern, whose tree it copies. The limit is met exactly where the pattern has more than 16,384
/// positions, which are counted and not made.
///
/// With up to 256 positions it has follow sets: sixteen for each four positions, and a set for each character of ASCII.
/// To find them, the tree is walked for each of these characters, for each position once, and once more for each of the
/// characters that stand for all: at most 128, and no more than there are positions.
pub fn positions(alloc: Global, re: &Re) -> Result<Nfa, NfaFault>
    ensures tree { IfOk result (λ n. tree_of n ≡ view re.now) }
    ensures within { OnOk result (count_of (view re.now) ≤ 16384) }
    ensures limit { IfErr result (λ fault. fault ≡ NfaFault.LimitPositions → 16384 < count_of (view re.now)) }
{
    let count = count_positions(re);
    if count > MOST {
        return Err(NfaFault::LimitPositions);
    }
    let tree = re.copy(alloc)?;
    let Ok(done_from) = done_from(alloc, &tree, count) else {
        return Err(NfaFault::Memory);
    };
    let Ok(follow_sets) = follow_sets_of(alloc, &tree, count) else {
        return Err(NfaFault::Memory);
    };
    Ok(Nfa::of(tree, count, done_from, follow_sets))
}

/// The follow sets of a tree, where it has few positions.
fn follow_sets_of(alloc: Global, tree: &Re, count: u32) -> Result<Option<FollowSets>, Memory>
    requires counted { count ≡ count_of (view tree.now) }
    requires within { count ≤ 16384 }
    ensures { IfOk result (λ sets. ForSome sets (AreFollowSets (view tree.now))) }
{
    if count > MOST_WITH_FOLLOW_SETS {
        return Ok(None);
    }
    Ok(Some(FollowSets::of(alloc, tree, count)?))
}
