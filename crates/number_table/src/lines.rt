//! A number group as a line of text.
//!
//! A line has six words: the lower and the upper bound, the divisors that are required and those that are ruled out,
//! the sets that are required and those that are ruled out. A word is `-` for none. Numbers are parted by commas, sets
//! by semicolons, and in a set `a..b` stands for all numbers from a to b. A set that has none is `empty`.

ghost use Rattle.std.specs.Prelude.{◌≡◌, nat_lt};
ghost use Rattle.std.specs.List.{list_all};
ghost use Rattle.number_groups.specs.Group.{is_near, is_ready};
ghost use Rattle.js_numbers.specs.View.{group_of};

use js_doc::{Memory, NumList};
use js_numbers::{Cases, NumGroup, decide};
use std::alloc::{AllocError, AllocFailed, Global};
use std::num::ParseIntError;
use std::str::SplitWhitespace;

/// The greatest size of a bound.
const FARTHEST: u128 = 0x1_0000_0000_0000_0000;

/// Why a line has no answer.
#[derive(Debug, Drop)]
pub enum LineFault {
    Memory,
    MissingWord,
    NotANumber,
    /// A bound is over 2^64 in size, or a divisor is 0.
    NotReady,
}

impl From<AllocError> for LineFault {
    fn from(_: AllocError) -> LineFault {
        LineFault::Memory
    }
}

impl<T: Drop> From<AllocFailed<T>> for LineFault {
    fn from(_: AllocFailed<T>) -> LineFault {
        LineFault::Memory
    }
}

impl From<Memory> for LineFault {
    fn from(_: Memory) -> LineFault {
        LineFault::Memory
    }
}

impl From<ParseIntError> for LineFault {
    fn from(_: ParseIntError) -> LineFault {
        LineFault::NotANumber
    }
}

/// The answer for the group that the line writes.
pub fn answer(alloc: Global, line: &str) -> Result<Cases, LineFault> {
    let mut words = line.split_whitespace();
    let lo = read_bound(next_word(&mut words)?)?;
    let hi = read_bound(next_word(&mut words)?)?;
    let multiples = read_divisors(alloc, next_word(&mut words)?)?;
    let not_multiples = read_divisors(alloc, next_word(&mut words)?)?;
    let set_lists = read_sets(alloc, next_word(&mut words)?)?;
    let not_set_lists = read_sets(alloc, next_word(&mut words)?)?;
    let sets = borrowed(alloc, set_lists.as_slice())?;
    let not_sets = borrowed(alloc, not_set_lists.as_slice())?;
    let group = NumGroup {
        lo,
        hi,
        multiples: multiples.as_slice(),
        not_multiples: not_multiples.as_slice(),
        sets: sets.as_slice(),
        not_sets: not_sets.as_slice(),
    };
    if is_ready(&group) {
        Ok(decide(&group))
    } else {
        Err(LineFault::NotReady)
    }
}

fn is_ready(group: &NumGroup) -> bool
    ensures { result ≡ is_ready (group_of group.now) }
{
    is_near(group.lo)
        && is_near(group.hi)
        && are_positive(group.multiples)
        && are_positive(group.not_multiples)
}

fn is_near(bound: Option<i128>) -> bool
    ensures { result ≡ is_near bound }
{
    match bound {
        Some(n) => n.unsigned_abs() <= FARTHEST,
        None => true,
    }
}

fn are_positive(divisors: &[u64]) -> bool
    ensures { result ≡ list_all (λ m. nat_lt 0 m) divisors.now }
{
    divisors.iter().all(|m| 0 < *m)
}

fn next_word<'a>(words: &mut SplitWhitespace<'a>) -> Result<&'a str, LineFault> {
    words.next().ok_or(LineFault::MissingWord)
}

fn read_bound(word: &str) -> Result<Option<i128>, LineFault> {
    if word == "-" {
        return Ok(None);
    }
    Ok(Some(word.parse::<i128>()?))
}

fn read_divisors(alloc: Global, word: &str) -> Result<Vec<u64>, LineFault> {
    let mut divisors = Vec::new(alloc);
    if word != "-" {
        for part in word.split(',') {
            divisors.push(part.parse::<u64>()?)?;
        }
    }
    Ok(divisors)
}

fn read_sets(alloc: Global, word: &str) -> Result<Vec<NumList>, LineFault> {
    let mut sets = Vec::new(alloc);
    if word != "-" {
        for part in word.split(';') {
            sets.push(NumList::from_vec(read_values(alloc, part)?)?)?;
        }
    }
    Ok(sets)
}

fn borrowed(alloc: Global, lists: &[NumList]) -> Result<Vec<&NumList>, LineFault> {
    let mut borrows = Vec::with_capacity(alloc, lists.len())?;
    for list in lists {
        borrows.push(list)?;
    }
    Ok(borrows)
}

fn read_values(alloc: Global, word: &str) -> Result<Vec<i128>, LineFault> {
    let mut values = Vec::new(alloc);
    if word == "empty" {
        return Ok(values);
    }
    for part in word.split(',') {
        let (first, last) = read_range(part)?;
        for value in first..=last {
            values.push(value)?;
        }
    }
    Ok(values)
}

fn read_range(part: &str) -> Result<(i128, i128), LineFault> {
    match part.split_once("..") {
        Some((first, last)) => Ok((first.parse::<i128>()?, last.parse::<i128>()?)),
        None => {
            let value = part.parse::<i128>()?;
            Ok((value, value))
        }
    }
}
