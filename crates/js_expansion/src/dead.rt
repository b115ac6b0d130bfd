//! Which goals have no document.

use js_algebra::Goal;

/// Numbers of the goals that no document was found for.
pub trait Dead {
    ghost use Rattle.std.specs.Prelude.{◌≡◌, ℕ, List, Option};
    ghost use Rattle.goals.specs.Signed.{Signed};

    /// The explored number of an unsatisfied goal; other goals have none.
    ghost number_of: { Self → List Signed → Option ℕ };

    fn number(&self, goal: &Goal) -> Option<u32>
        ensures { result ≡ number_of self.now goal.now };
}
