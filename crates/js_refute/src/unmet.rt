//! The explored goals that no round has, by their numbers.

ghost use Rattle.std.specs.Prelude.{◌≡◌, true};

use js_algebra::Goal;
use js_expansion::Dead;
use js_explore::Explored;
use js_rounds::Rounds;

/// Explored goals, and rounds of them that were run. Contracts see the goals, and the numbers of those that no round
/// has.
#[derive(Clone, Copy)]
pub(crate) struct Unmet<'a> {
    pub(crate) explored: &'a Explored,
    rounds: &'a Rounds,
    ghost has_run: { rounds.now.has_run ≡ true },
}

impl<'a> Unmet<'a> {
    pub(crate) fn new(explored: &'a Explored, rounds: &'a Rounds) -> Unmet<'a>
        requires { rounds.now.has_run ≡ true }
        ensures explored { result.explored.now ≡ explored.now }
        ensures rounds { result.rounds.now ≡ rounds.now }
    {
        Unmet { explored, rounds }
    }
}

impl Dead for Unmet<'_> {
    ghost use Rattle.js_refute.specs.Unmet as U;

    ghost number_of = { U.number_of };

    fn number(&self, goal: &Goal) -> Option<u32> {
        let number = self.explored.number(goal)?;
        match self.rounds.satisfied(number) {
            Some(_) => None,
            None => Some(number),
        }
    }
}
