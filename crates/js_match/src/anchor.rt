//! Patterns that are tied to the start of the word.

ghost use Rattle.std.specs.Prelude.{◌≡◌};
ghost use Rattle.js_pattern.specs.View.{view, list_view};
ghost use Rattle.js_match.specs.Anchors.{is_start, first_is_start, is_anchored};

use js_pattern::{Re, ReList};

/// Whether the pattern begins with the start of the word, so that no other place can begin a match.
pub(crate) fn is_anchored(re: &Re) -> bool
    ensures { result ≡ is_anchored (view re.now) }
{
    match re {
        Re::Start => true,
        Re::Seq(list) => begins_at_start(list),
        _ => false,
    }
}

fn begins_at_start(list: &ReList) -> bool
    ensures { result ≡ first_is_start (list_view list.now) }
{
    let list = list.as_slice();
    !list.is_empty() && is_start(&list[0])
}

pub(crate) fn is_start(re: &Re) -> bool
    ensures { result ≡ is_start (view re.now) }
{
    match re {
        Re::Start => true,
        _ => false,
    }
}
