//! The characters of which a word must begin with one. Many patterns are tied to the start and go on with a character
//! or a run of some set; a word that begins otherwise is turned down without memory.

ghost use Rattle.std.specs.Prelude.{◌≡◌, true, false, option_map};
ghost use Rattle.patterns.specs.Decision.{finds};
ghost use Rattle.js_pattern.specs.View.{view, list_view};
ghost use Rattle.js_match.specs.First.{lone_set, first_set, set_in_turn, needed_set};

use crate::anchor::is_start;
use js_pattern::{CharSet, Re, ReList};

/// Whether the word doesn't begin as the pattern requires. Time in the ranges of one set.
pub(crate) fn begins_otherwise(re: &Re, word: &[char]) -> bool
    ensures { result ≡ true → finds (view re.now) word.now ≡ false }
{
    match needed_set(re) {
        None => false,
        Some(set) => word.is_empty() || !set.contains(word[0]),
    }
}

fn needed_set(re: &Re) -> Option<&CharSet>
    ensures { option_map (λ s. s.now) result ≡ needed_set (view re.now) }
{
    match re {
        Re::Seq(list) => set_in_turn(list),
        _ => None,
    }
}

fn set_in_turn(list: &ReList) -> Option<&CharSet>
    ensures { option_map (λ s. s.now) result ≡ set_in_turn (list_view list.now) }
{
    let list = list.as_slice();
    if list.len() < 2 {
        return None;
    }
    if !is_start(&list[0]) {
        return None;
    }
    first_set(&list[1])
}

fn first_set(re: &Re) -> Option<&CharSet>
    ensures { option_map (λ s. s.now) result ≡ first_set (view re.now) }
{
    match re {
        Re::Set(set) => Some(set),
        Re::Repeat(inner, low, _) if *low > 0 => lone_set(inner),
        _ => None,
    }
}

fn lone_set(re: &Re) -> Option<&CharSet>
    ensures { option_map (λ s. s.now) result ≡ lone_set (view re.now) }
{
    match re {
        Re::Set(set) => Some(set),
        _ => None,
    }
}
