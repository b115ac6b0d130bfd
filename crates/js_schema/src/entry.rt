//! An entry of a schema: where its place is, by the number of its pointer, and what it accepts.
//!
//! Keywords are kept apart, so that the other forms take little memory, and objects without members share theirs.

use crate::constraints::Keywords;
use std::rc::Rc;

/// What a place accepts: everything, nothing, what another entry accepts, or what its keywords require.
#[derive(Drop)]
pub enum Form {
    Always,
    Never,
    Ref(u32),
    Keywords(Rc<Keywords>),
}

/// What stands for one place. The number of its pointer is one of the table that the schema keeps beside its entries.
#[derive(Drop)]
pub struct Entry {
    pub pointer: u32,
    pub form: Form,
}
