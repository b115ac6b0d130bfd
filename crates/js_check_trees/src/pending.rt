//! The choices that are put off.

use js_algebra::Signed;

/// The choices of a rule from the number `next` on, each to be added to the first `members` of the path.
#[derive(Clone, Copy)]
pub(crate) struct Pending {
    pub members: usize,
    pub rule: Signed,
    pub next: u128,
}
