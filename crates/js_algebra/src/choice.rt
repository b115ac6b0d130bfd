//! Rules: the choices of a signed position, each by its number, without a copy of a list.
//!
//! A rule borrows the positions that its table lists, so it takes no memory. A choice comes from its number in one
//! step; where the choices are pairs of positions, in as many steps as the number of positions has binary digits.

ghost use Rattle.std.specs.Prelude.{◌≡◌, ◌<◌, ◌≤◌, ◌+◌, ◌^◌, length, get_or, [], ◌∷◌, is_none};
ghost use Rattle.goals.specs.Tree.{choice_list};
ghost use Rattle.js_algebra.specs.View.{signed_view, with_sign, places};
ghost use Rattle.js_algebra.specs.Rules.{rule_view, choice_view, only, pairs, pair_view};

use crate::node::Pos;
use crate::signed::Signed;

/// The choices of a signed position; `rule_view` is the list that they stand for.
#[derive(Clone, Copy)]
pub enum Rule<'a> {
    /// A literal, which has nothing to choose.
    Literal,
    /// One choice, of all of the positions with that sign.
    Together(&'a [Pos], bool),
    /// A choice for each, with that sign.
    Apart(&'a [Pos], bool),
    /// A choice for each, plus, with the others minus.
    ExactlyOne(&'a [Pos]),
    /// One choice of all of them minus, and then one for each two of them, both plus.
    NotExactlyOne(&'a [Pos]),
    /// One choice of both.
    Both(Signed, Signed),
    /// A choice for each of the two.
    Either(Signed, Signed),
}

/// One of the choices; `choice_view` is the list of signed positions that it stands for.
#[derive(Clone, Copy)]
pub enum Choice<'a> {
    /// All of the positions, with that sign.
    All(&'a [Pos], bool),
    /// The one at that index plus, and the others minus.
    Only(&'a [Pos], usize),
    One(Signed),
    Two(Signed, Signed),
}

impl<'a> Rule<'a> {
    /// Whether nothing has to be chosen. A rule without any choice, such as `Apart` of no position, is no literal.
    pub fn is_literal(&self) -> bool
        ensures { result ≡ is_none (rule_view self.now) }
    {
        matches!(self, Rule::Literal)
    }

    /// How many choices there are; a literal has none.
    pub fn count(&self) -> u128
        ensures { result ≡ length (choice_list (rule_view self.now)) }
    {
        match self {
            Rule::Literal => 0,
            Rule::Together(_, _) => 1,
            Rule::Apart(ps, _) => ps.len() as u128,
            Rule::ExactlyOne(ps) => ps.len() as u128,
            Rule::NotExactlyOne(ps) => 1 + pairs(ps.len()),
            Rule::Both(_, _) => 1,
            Rule::Either(_, _) => 2,
        }
    }

    /// The choice of that number.
    pub fn choice(self, index: u128) -> Choice<'a>
        requires { index < length (choice_list (rule_view self)) }
        ensures { choice_view result ≡ get_or (choice_list (rule_view self.entry)) index [] }
    {
        match self {
            Rule::Literal => Choice::All(&[], true),
            Rule::Together(ps, plus) => Choice::All(ps, plus),
            Rule::Apart(ps, plus) => one(ps, plus, index),
            Rule::ExactlyOne(ps) => only(ps, index),
            Rule::NotExactlyOne(ps) => {
                if index == 0 {
                    Choice::All(ps, false)
                } else {
                    pair(ps, index - 1)
                }
            }
            Rule::Both(x, y) => Choice::Two(x, y),
            Rule::Either(x, y) => Choice::One(if index == 0 { x } else { y }),
        }
    }
}

impl Choice<'_> {
    /// How many signed positions the choice has, in constant time.
    pub fn len(&self) -> usize
        ensures { result ≡ length (choice_view self.now) }
    {
        match self {
            Choice::All(ps, _) => ps.len(),
            Choice::Only(ps, _) => ps.len(),
            Choice::One(_) => 1,
            Choice::Two(_, _) => 2,
        }
    }

    /// The signed position at index `k`, counted from 0, made in constant time.
    pub fn at(self, k: usize) -> Signed
        requires { k < length (choice_view self) }
        ensures { signed_view result ≡ get_or (choice_view self.entry) k (signed_view result) }
    {
        match self {
            Choice::All(ps, plus) => signed_at(ps, k, plus),
            Choice::Only(ps, index) => signed_at(ps, k, k == index),
            Choice::One(x) => x,
            Choice::Two(x, y) => { if k == 0 { x } else { y } }
        }
    }
}

fn signed_at(ps: &[Pos], k: usize, plus: bool) -> Signed
    requires { k < length ps.now }
    ensures { signed_view result ≡ with_sign plus (get_or (places ps.now) k 0) }
{
    Signed { pos: ps[k], plus }
}

/// The one of that number, with that sign.
fn one(ps: &[Pos], plus: bool, index: u128) -> Choice<'_>
    requires { index < length ps.now }
    ensures { choice_view result ≡ with_sign plus (get_or (places ps.now) index 0) ∷ [] }
{
    Choice::One(signed_at(ps, index as usize, plus))
}

/// The one of that number plus, and the others minus.
fn only(ps: &[Pos], index: u128) -> Choice<'_>
    requires { index < length ps.now }
    ensures { choice_view result ≡ only index (places ps.now) }
{
    Choice::Only(ps, index as usize)
}

/// How many pairs so many things have.
fn pairs(n: usize) -> u128
    ensures value { result ≡ pairs n }
    ensures bound { result < 2 ^ 127 }
{
    let many = n as u128;
    if many == 0 {
        return 0;
    }
    many * (many - 1) / 2
}

/// The pair of that number, both plus, in order of the first and then of the second. Counted from the end, the pairs of
/// each position with the later ones come after those of all later ones.
fn pair(ps: &[Pos], index: u128) -> Choice<'_>
    requires { index < pairs (length ps.now) }
    ensures { choice_view result ≡ pair_view ps.now index }
{
    let last = ps.len() - 1;
    let from_end = pairs(ps.len()) - 1 - index;
    let later = most_with(ps.len(), from_end);
    let offset = (from_end - pairs(later)) as usize;
    let first = signed_at(ps, last - later, true);
    let second = signed_at(ps, last - offset, true);
    Choice::Two(first, second)
}

/// The most things below `n` that have at most so many pairs.
fn most_with(n: usize, at_most: u128) -> usize
    requires { at_most < pairs n }
    ensures few { pairs result ≤ at_most }
    ensures most { at_most < pairs (result + 1) }
    ensures below { result < n }
{
    let mut low = 0;
    let mut high = n;
    while high - low > 1 {
        let middle = low + (high - low) / 2;
        if pairs(middle) <= at_most {
            low = middle;
        } else {
            high = middle;
        }
    }
    low
}
