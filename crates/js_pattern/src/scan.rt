//! What several readers of a text look up at its front: one character, what follows, and a run of digits.

ghost use Rattle.std.specs.Prelude.{◌≡◌, ◌+◌, ◌<◌, ◌≤◌, ◌&&◌, nat_lt, nat_eq, length, drop, slice_index, IsTrue};
ghost use Rattle.js_pattern.specs.Reading.{digits};
ghost use Rattle.js_pattern.specs.View.{cut};

/// Whether the character at this index is there, and is that one.
pub(crate) fn is_at(text: &[char], index: usize, c: char) -> bool
    ensures value { result ≡ nat_lt index (length text.now) && nat_eq (slice_index text.now index) c }
    ensures within { IsTrue result → index < length text.now }
{
    index < text.len() && text[index] == c
}

/// The text after its first characters.
pub(crate) fn skip(text: &[char], count: usize) -> &[char]
    ensures { result.now ≡ drop count text.now }
{
    if count < text.len() {
        &text[count..]
    } else {
        &text[text.len()..]
    }
}

/// The number that the digits at the front of a text write, cut at the last `u32`, and how many digits there are.
pub(crate) fn digits(text: &[char], radix: u32) -> (u32, usize)
    requires least { 2 ≤ radix }
    requires most { radix ≤ 36 }
    ensures number { result.0 ≡ cut (digits radix text.now).0 }
    ensures count { result.1 ≡ (digits radix text.now).1 }
    ensures within { result.1 ≤ length text.now }
{
    let mut number: u32 = 0;
    for i in 0..text.len() {
        match text[i].to_digit(radix) {
            Some(digit) => number = number.saturating_mul(radix).saturating_add(digit),
            None => return (number, i),
        }
    }
    (number, text.len())
}
