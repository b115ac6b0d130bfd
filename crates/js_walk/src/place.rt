//! Places of a file, by the numbers of their pointers.

use js_doc::Json;

/// A value of the file, and where it is.
#[derive(Drop)]
pub(crate) struct Place<'a> {
    pub(crate) pointer: u32,
    pub(crate) value: &'a Json,
}

/// What is known of a place that is done: its value, and where its reference leads, if it has one.
#[derive(Drop)]
pub(crate) struct Done<'a> {
    pub(crate) value: &'a Json,
    pub(crate) target: Option<u32>,
}

/// What a look at a place finds: the places that it leads to, and where its reference leads, if it has one.
#[derive(Drop)]
pub(crate) struct Found<'a> {
    pub(crate) places: Vec<Place<'a>>,
    pub(crate) target: Option<u32>,
}
