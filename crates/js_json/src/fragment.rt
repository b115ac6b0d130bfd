//! Pointers as they are in the fragments of references (RFC 6901, sections 3, 4 and 6).
//!
//! The fragment's percent escapes are read, then the text between slashes, then the escapes `~0` and `~1`. It takes
//! memory and time in proportion to the fragment.

ghost use Rattle.std.specs.Prelude.{IsUtf8, chars, option_and_then};
ghost use Rattle.std.specs.Str.Iter.{chars_rest};
ghost use Rattle.js_json.specs.Reference.{decoded, token_of, tokens_between, tokens_of};
ghost use Rattle.js_json.specs.Steps.{ReadsOrRefuses, TakesOrRefuses};

use crate::fault::RefFault;
use crate::pointer::Pointer;
use js_doc::Str;
use percent_encoding::{DecodeError, percent_decode_str};
use std::alloc::Global;
use std::str::Chars;

/// The pointer that a fragment writes.
pub(crate) fn read_fragment(alloc: Global, fragment: &str) -> Result<Pointer, RefFault>
    ensures { ReadsOrRefuses (option_and_then tokens_of (decoded (chars fragment.now))) result }
{
    match percent_decode_str(fragment).decode_utf8(alloc) {
        Ok(text) => read_pointer(alloc, text.as_str()),
        Err(DecodeError::Utf8(_)) => Err(RefFault::BadPointer),
        Err(DecodeError::OutOfMemory) => Err(RefFault::Memory),
    }
}

fn read_pointer(alloc: Global, text: &str) -> Result<Pointer, RefFault>
    ensures { ReadsOrRefuses (tokens_of (chars text.now)) result }
{
    if text.is_empty() {
        return Ok(Pointer::root(alloc));
    }
    match text.strip_prefix('/') {
        Some(tokens) => read_tokens(alloc, tokens),
        None => Err(RefFault::BadPointer),
    }
}

fn read_tokens(alloc: Global, text: &str) -> Result<Pointer, RefFault>
    ensures { ReadsOrRefuses (tokens_between (chars text.now)) result }
{
    let mut pointer = Pointer::root(alloc);
    for piece in text.split('/') {
        let token = read_token(alloc, piece)?;
        pointer.push(token)?;
    }
    Ok(pointer)
}

fn read_token(alloc: Global, piece: &str) -> Result<Str, RefFault>
    ensures { ReadsOrRefuses (token_of (chars piece.now)) result }
{
    let mut token = String::with_capacity(alloc, piece.len())?;
    let mut rest = piece.chars();
    while let Some(c) = take_character(&mut rest)? {
        token.push(c)?;
    }
    Ok(Str::from_string(token))
}

/// The next character of a token, which may be there as an escape.
fn take_character(rest: &mut Chars<'_>) -> Result<Option<char>, RefFault>
    requires { IsUtf8 (chars_rest rest.old) }
    ensures { TakesOrRefuses (chars_rest rest.old) (chars_rest rest.new) result }
{
    match rest.next() {
        Some('~') => match rest.next() {
            Some('0') => Ok(Some('~')),
            Some('1') => Ok(Some('/')),
            _ => Err(RefFault::BadPointer),
        },
        Some(c) => Ok(Some(c)),
        None => Ok(None),
    }
}
