//! Lists of a line: words, each after a blank.

ghost use Rattle.std.specs.Prelude.{◌≡◌, map, IfOk, option_map, false};
ghost use Rattle.js_lines.specs.View.{entry_view};
ghost use Rattle.certificate_lines.specs.Reading.{
  read_all,
  number_of,
  signed_of,
  list_of,
  some_of,
  bare_entry,
  entries_on,
  entries_of,
};

use crate::lines::ShortEntry;
use crate::lists::{NumberList, ShortEntryList};
use crate::pieces::{is_word, pieces};
use crate::words::{number, signed};
use js_algebra::SignedList;
use js_doc::Memory;
use std::alloc::Global;

/// Signed positions.
pub fn signed_list(alloc: Global, text: &[u8]) -> Result<Option<SignedList>, Memory>
    ensures { IfOk result (λ o. o ≡ list_of signed_of text.now) }
{
    let parts = pieces(alloc, text, b' ')?;
    match parts.as_slice().split_first() {
        Some((first, words)) if first.is_empty() => all_signed(alloc, words),
        _ => Ok(None),
    }
}

/// Words that each are a signed position.
fn all_signed(alloc: Global, words: &[&[u8]]) -> Result<Option<SignedList>, Memory>
    ensures { IfOk result (λ o. o ≡ read_all signed_of (map (λ word. word.now) words.now)) }
{
    let mut list = Vec::new(alloc);
    for word in words {
        let Some(x) = signed(word) else {
            return Ok(None);
        };
        list.push(x)?;
    }
    Ok(Some(SignedList::from_vec(list)))
}

/// Numbers.
pub fn number_list(alloc: Global, text: &[u8]) -> Result<Option<NumberList>, Memory>
    ensures { IfOk result (λ o. o ≡ list_of number_of text.now) }
{
    let parts = pieces(alloc, text, b' ')?;
    match parts.as_slice().split_first() {
        Some((first, words)) if first.is_empty() => all_numbers(alloc, words),
        _ => Ok(None),
    }
}

/// Words that each are a number.
fn all_numbers(alloc: Global, words: &[&[u8]]) -> Result<Option<NumberList>, Memory>
    ensures { IfOk result (λ o. o ≡ read_all number_of (map (λ word. word.now) words.now)) }
{
    let mut list = Vec::new(alloc);
    for word in words {
        let Some(x) = number(word) else {
            return Ok(None);
        };
        list.push(x)?;
    }
    Ok(Some(NumberList::from_vec(list)))
}

/// Numbers, one at least: the first, and the others.
pub fn numbers_parted(alloc: Global, text: &[u8]) -> Result<Option<(u32, NumberList)>, Memory>
    ensures { IfOk result (λ o. o ≡ some_of text.now) }
{
    let Some(list) = number_list(alloc, text)? else {
        return Ok(None);
    };
    let mut numbers = list.into_vec();
    if numbers.is_empty() {
        return Ok(None);
    }
    let first = numbers.remove(0);
    Ok(Some((first, NumberList::from_vec(numbers))))
}

/// Entries of fillers.
pub fn entry_list(alloc: Global, text: &[u8]) -> Result<Option<ShortEntryList>, Memory>
    ensures { IfOk result (λ o. o ≡ entries_of text.now) }
{
    let parts = pieces(alloc, text, b' ')?;
    match parts.as_slice().split_first() {
        Some((first, words)) if first.is_empty() => all_entries(alloc, words),
        _ => Ok(None),
    }
}

/// The entries that words are; a goal and its number are two words.
fn all_entries(alloc: Global, words: &[&[u8]]) -> Result<Option<ShortEntryList>, Memory>
    ensures { IfOk result (λ o. o ≡ entries_on false (map (λ word. word.now) words.now)) }
{
    let mut list = Vec::new(alloc);
    let mut awaits_number = false;
    for word in words {
        if awaits_number {
            let Some(goal) = number(word) else {
                return Ok(None);
            };
            list.push(ShortEntry::Goal(goal))?;
            awaits_number = false;
        } else if is_word(word, b"goal") {
            awaits_number = true;
        } else {
            let Some(entry) = bare_entry(word) else {
                return Ok(None);
            };
            list.push(entry)?;
        }
    }
    if awaits_number {
        return Ok(None);
    }
    Ok(Some(ShortEntryList::from_vec(list)))
}

/// The entry that is one word.
fn bare_entry(word: &[u8]) -> Option<ShortEntry>
    ensures { option_map entry_view result ≡ bare_entry word.now }
{
    if is_word(word, b"-") {
        Some(ShortEntry::Kept)
    } else if is_word(word, b"clash") {
        Some(ShortEntry::Clash)
    } else {
        None
    }
}
