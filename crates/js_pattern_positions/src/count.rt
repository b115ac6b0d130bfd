//! How many positions a pattern has, without making them.

ghost use Rattle.std.specs.Prelude.{◌≡◌, ◌+◌, ◌≤◌, ◌&&◌, min, nat_eq};
ghost use Rattle.std.specs.Option.{is_none};
ghost use Rattle.word_states.specs.Position.{count_of, count_in, copies};
ghost use Rattle.js_pattern.specs.View.{view, list_view};
ghost use Rattle.js_pattern_positions.specs.Counted.{counted};

use js_pattern::{Re, ReList};

/// The most positions that the patterns of an automaton may have together.
pub const MOST: u32 = 16384;

const PAST: u32 = MOST + 1;

/// The number of positions of a pattern, or 16,385 where it has more than 16,384. It takes one look at each node of
/// the tree, and recurs as deep as they nest.
pub fn count_positions(re: &Re) -> u32
    ensures { result ≡ counted (view re.now) }
{
    count_tree(re)
}

/// How often a repeated tree comes: so often at least, and so often at most, if there is a second number.
#[derive(Clone, Copy)]
pub(crate) struct Times {
    pub(crate) low: u32,
    pub(crate) high: Option<u32>,
}

impl Times {
    /// How often the tree is copied.
    pub(crate) fn copies(self) -> u32
        ensures { result ≡ copies self.low self.high }
    {
        match self.high {
            Some(high) => high,
            None => self.low.max(1),
        }
    }

    /// Whether a copy may come again and again, which so many follow.
    pub(crate) fn comes_again(self, left: u32) -> bool
        ensures { result ≡ is_none self.high && nat_eq left 0 }
    {
        self.high.is_none() && left == 0
    }
}

#[cycle(count)]
fn count_tree(re: &Re) -> u32
    ensures { result ≡ min (count_of (view re.now)) PAST }
{
    match re {
        Re::Empty | Re::Start | Re::End => 0,
        Re::Set(_) => 1,
        Re::Seq(list) | Re::Alt(list) => count_list(list),
        Re::Repeat(inner, low, high) => {
            let times = Times {
                low: *low,
                high: *high,
            };
            let count = u64::from(times.copies()) * u64::from(count_tree(inner));
            count.min(u64::from(PAST)) as u32
        }
    }
}

#[cycle(count)]
fn count_list(list: &ReList) -> u32
    ensures { result ≡ min (count_in (list_view list.now)) PAST }
{
    let mut count = 0;
    for re in list.as_slice() {
        count = (count + count_tree(re)).min(PAST);
    }
    count
}
