//! Lists of ranges that are put in order, joined, and turned into their gaps. Each takes time in the length of the
//! list, and the sort n log n.

ghost use Rattle.std.specs.Prelude.{◌≡◌, ℕ, ◌+◌, ◌-◌, ◌<◌, ◌≤◌, true, List, [], ◌∷◌, ◌++◌, IfOk, length, vec_len};
ghost use Rattle.patterns.specs.CharSet.{are_ranges, is_range, has, with_range, set_of, gaps_from};
ghost use Rattle.pattern_laws.specs.Laws.{width_of};
ghost use Rattle.js_pattern.specs.Ranges.{are_up, joined, FirstWithin};

use crate::fault::Memory;
use std::alloc::Global;

/// Both ends are characters, in order, and no surrogate lies between them.
pub(crate) fn is_range(range: (u32, u32)) -> bool
    ensures { result ≡ is_range range }
{
    range.0 <= range.1 && (range.1 < 0xd800 || 0xdfff < range.0 && range.1 < 0x110000)
}

/// The ranges of a set with one more.
pub(crate) fn with_range(
    alloc: Global,
    ranges: &[(u32, u32)],
    added: (u32, u32),
) -> Result<Vec<(u32, u32)>, Memory>
    requires ends { are_up ranges.now ≡ true }
    requires end { added.1 < 0x110000 }
    ensures { IfOk result (λ all. all.items ≡ with_range added ranges.now) }
{
    let mut done = Vec::new(alloc);
    let (mut first, mut last) = added;
    for (i, range) in ranges.iter().enumerate() {
        if last + 1 < range.0 {
            done.push((first, last))?;
            done.extend_from_slice(&ranges[i..])?;
            return Ok(done);
        }
        if range.1 + 1 < first {
            done.push(*range)?;
        } else {
            first = first.min(range.0);
            last = last.max(range.1);
        }
    }
    done.push((first, last))?;
    Ok(done)
}

/// The code points that ranges in order leave out.
pub(crate) fn gaps(alloc: Global, ranges: &[(u32, u32)]) -> Result<Vec<(u32, u32)>, Memory>
    requires { are_up ranges.now ≡ true }
    ensures { IfOk result (λ all. all.items ≡ gaps_from 0 ranges.now) }
{
    let mut done = Vec::new(alloc);
    let mut low: u32 = 0;
    for range in ranges {
        if low < range.0 {
            done.push((low, range.0 - 1))?;
        }
        low = range.1 + 1;
    }
    if low < 0x110000 {
        done.push((low, 0x10ffff))?;
    }
    Ok(done)
}

/// Sorted ranges, those that meet made one.
pub(crate) fn join(alloc: Global, ranges: &[(u32, u32)]) -> Result<Vec<(u32, u32)>, Memory>
    requires { are_up ranges.now ≡ true }
    ensures { IfOk result (λ all. all.items ≡ joined ranges.now) }
{
    let mut done = Vec::new(alloc);
    let Some((range, others)) = ranges.split_first() else {
        return Ok(done);
    };
    let (mut first, mut last) = *range;
    for range in others {
        if range.0 <= last + 1 {
            last = last.max(range.1);
        } else {
            done.push((first, last))?;
            (first, last) = *range;
        }
    }
    done.push((first, last))?;
    Ok(done)
}

/// How many numbers lie in the ranges of a set.
pub(crate) fn width(ranges: &[(u32, u32)]) -> u32
    requires ends { are_up ranges.now ≡ true }
    requires small { width_of ranges.now ≤ 0x110000 }
    ensures { result ≡ width_of ranges.now }
{
    let mut width = 0;
    for range in ranges {
        width += range.1 - range.0 + 1;
    }
    width
}

/// The least member of a set from one number to another.
pub(crate) fn first_within(ranges: &[(u32, u32)], low: u32, high: u32) -> Option<char>
    requires { are_ranges 0 ranges.now ≡ true }
    ensures { FirstWithin ranges.now low high result }
{
    for range in ranges {
        if low <= range.1 {
            let code = low.max(range.0);
            if code <= high {
                return char::from_u32(code);
            }
            return None;
        }
    }
    None
}
