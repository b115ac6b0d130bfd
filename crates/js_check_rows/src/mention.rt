//! A row that was mentioned.

use js_automaton::TupleState;

/// A class by which a row leads on.
#[derive(Clone, Copy)]
pub(crate) struct Step {
    pub(crate) row: u32,
    pub(crate) class: u32,
}

/// The state of a row, and the step that first named it, which the first row hasn't.
#[derive(Drop)]
pub(crate) struct Mention {
    pub(crate) state: TupleState,
    pub(crate) step: Option<Step>,
}
