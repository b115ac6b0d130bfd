//! The bytes of a certificate's pieces.

use js_doc::{Json, Memory};
use std::alloc::Global;

/// Bytes, and how often they come.
#[derive(Drop)]
pub(crate) struct Piece {
    pub bytes: Vec<u8>,
    pub times: u32,
}

/// The bytes of a piece: a text comes once, and a list of a text and a number so often. None of any other value.
pub(crate) fn piece_of(alloc: Global, json: &Json) -> Result<Option<Piece>, Memory> {
    match json {
        Json::Text(text) => piece_of_text(alloc, text.as_text(), 1),
        Json::List(parts) if parts.len() == 2 => match (parts.at(0), parts.at(1)) {
            (Json::Text(text), Json::Num(times)) => match u32::try_from(*times) {
                Ok(times) => piece_of_text(alloc, text.as_text(), times),
                Err(_) => Ok(None),
            },
            _ => Ok(None),
        },
        _ => Ok(None),
    }
}

/// A byte for each character, which is that byte's number.
fn piece_of_text(alloc: Global, text: &str, times: u32) -> Result<Option<Piece>, Memory> {
    let mut bytes = Vec::new(alloc);
    for c in text.chars() {
        match u8::try_from(c as u32) {
            Ok(byte) => bytes.push(byte)?,
            Err(_) => return Ok(None),
        }
    }
    Ok(Some(Piece { bytes, times }))
}
