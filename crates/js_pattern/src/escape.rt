//! A backslash and what follows it: a character, a set, or a form that the profile leaves out.
//!
//! Reading an escape takes one look at each of its characters, and no memory.

ghost use Rattle.std.specs.Prelude.{◌≡◌, ◌+◌, ◌≤◌, length, option_map, if◌then◌else◌};
ghost use Rattle.std.specs.Option.{OnSome, IfSome, is_some};
ghost use Rattle.std.specs.Result.{IfOk};
ghost use Rattle.js_pattern.specs.Escapes.{class_set, class_escape, unsupported_escape, letter_escape, hexadecimal, in_braces, numbered, low_surrogate, unicode_of, unicode_escape, byte_escape, null_escape, escape};
ghost use Rattle.js_pattern.specs.View.{cut, cut_braced};

use crate::fault::{PatternFault, PatternForm};
use crate::scan::{digits, is_at, skip};

/// The set that an escape stands for. The names with `Not` are the complements.
#[derive(Clone, Copy)]
pub(crate) enum ClassEscape {
    Digit,
    NotDigit,
    Word,
    NotWord,
    Space,
    NotSpace,
}

/// What an escape stands for.
#[derive(Clone, Copy)]
pub(crate) enum Escape {
    Character(char),
    Class(ClassEscape),
}

static DIGIT: [(u32, u32); 1] = [(0x30, 0x39)];

static NOT_DIGIT: [(u32, u32); 3] = [(0, 0x2f), (0x3a, 0xd7ff), (0xe000, 0x10ffff)];

static WORD: [(u32, u32); 4] = [(0x30, 0x39), (0x41, 0x5a), (0x5f, 0x5f), (0x61, 0x7a)];

static NOT_WORD: [(u32, u32); 6] = [
    (0, 0x2f),
    (0x3a, 0x40),
    (0x5b, 0x5e),
    (0x60, 0x60),
    (0x7b, 0xd7ff),
    (0xe000, 0x10ffff),
];

static SPACE: [(u32, u32); 10] = [
    (0x9, 0xd),
    (0x20, 0x20),
    (0xa0, 0xa0),
    (0x1680, 0x1680),
    (0x2000, 0x200a),
    (0x2028, 0x2029),
    (0x202f, 0x202f),
    (0x205f, 0x205f),
    (0x3000, 0x3000),
    (0xfeff, 0xfeff),
];

static NOT_SPACE: [(u32, u32); 12] = [
    (0, 0x8),
    (0xe, 0x1f),
    (0x21, 0x9f),
    (0xa1, 0x167f),
    (0x1681, 0x1fff),
    (0x200b, 0x2027),
    (0x202a, 0x202e),
    (0x2030, 0x205e),
    (0x2060, 0x2fff),
    (0x3001, 0xd7ff),
    (0xe000, 0xfefe),
    (0xff00, 0x10ffff),
];

impl ClassEscape {
    /// The set's ranges.
    pub(crate) fn ranges(self) -> &'static [(u32, u32)]
        ensures { result.now ≡ class_set self }
    {
        match self {
            ClassEscape::Digit => &DIGIT,
            ClassEscape::NotDigit => &NOT_DIGIT,
            ClassEscape::Word => &WORD,
            ClassEscape::NotWord => &NOT_WORD,
            ClassEscape::Space => &SPACE,
            ClassEscape::NotSpace => &NOT_SPACE,
        }
    }
}

fn class_escape(c: char) -> Option<ClassEscape>
    ensures { result ≡ class_escape c }
{
    match c {
        'd' => Some(ClassEscape::Digit),
        'D' => Some(ClassEscape::NotDigit),
        'w' => Some(ClassEscape::Word),
        'W' => Some(ClassEscape::NotWord),
        's' => Some(ClassEscape::Space),
        'S' => Some(ClassEscape::NotSpace),
        _ => None,
    }
}

fn unsupported_escape(c: char) -> Option<PatternForm>
    ensures { result ≡ unsupported_escape c }
{
    match c {
        '1'..='9' => Some(PatternForm::Backreference),
        'b' | 'B' => Some(PatternForm::Boundary),
        'p' | 'P' => Some(PatternForm::Property),
        'c' => Some(PatternForm::Control),
        'k' => Some(PatternForm::NamedGroup),
        _ => None,
    }
}

fn letter_escape(c: char) -> Option<char>
    ensures { result ≡ letter_escape c }
{
    match c {
        't' => Some('\t'),
        'n' => Some('\n'),
        'v' => Some('\u{b}'),
        'f' => Some('\u{c}'),
        'r' => Some('\r'),
        _ if c.is_ascii_punctuation() => Some(c),
        _ => None,
    }
}

/// The number that exactly so many hexadecimal digits write.
fn hexadecimal(text: &[char], count: usize) -> Option<u32>
    ensures value { result ≡ option_map cut (hexadecimal count text.now) }
    ensures within { OnSome result (count ≤ length text.now) }
{
    let (number, found) = digits(&text[..count.min(text.len())], 16);
    if found == count { Some(number) } else { None }
}

/// The number of `{..}`, and how many characters that takes.
fn in_braces(text: &[char]) -> Option<(u32, usize)>
    ensures value { result ≡ option_map cut_braced (in_braces text.now) }
    ensures within { IfSome result (λ r. r.1 ≤ length text.now) }
{
    let (number, count) = digits(skip(text, 1), 16);
    if is_at(text, 0, '{') && count > 0 && is_at(text, 1 + count, '}') {
        Some((number, 2 + count))
    } else {
        None
    }
}

/// The character of a number, after so many characters of the escape.
fn numbered(number: u32, taken: usize, at: usize) -> Result<(Escape, usize), PatternFault>
    ensures value { result ≡ numbered at taken number }
    ensures taken { IfOk result (λ r. r.1 ≡ taken) }
{
    match char::from_u32(number) {
        Some(c) => Ok((Escape::Character(c), taken)),
        None if number < 0x110000 => Err(PatternFault::Unsupported(at, PatternForm::Surrogate)),
        None => Err(PatternFault::Syntax(at)),
    }
}

/// The low surrogate that a text begins with, as `\uHHHH`.
fn low_surrogate(text: &[char]) -> Option<u32>
    ensures value { result ≡ low_surrogate text.now }
    ensures low { IfSome result (λ n. (0xdc00 ≤ n) × (n ≤ 0xdfff)) }
    ensures within { OnSome result (6 ≤ length text.now) }
{
    if !is_at(text, 0, '\\') || !is_at(text, 1, 'u') {
        return None;
    }
    match hexadecimal(skip(text, 2), 4) {
        Some(number) if 0xdc00 <= number && number <= 0xdfff => Some(number),
        _ => None,
    }
}

/// The character of one `\uHHHH`, or of two, the second of which is a low surrogate.
fn code_unit(first: u32, low: Option<u32>, at: usize) -> Result<(Escape, usize), PatternFault>
    requires { IfSome low (λ n. (0xdc00 ≤ n) × (n ≤ 0xdfff)) }
    ensures value { result ≡ unicode_of at None (Some first) low }
    ensures taken { IfOk result (λ r. r.1 ≤ (if is_some low then 11 else 5)) }
{
    match low {
        Some(low) => {
            if 0xd800 <= first && first <= 0xdbff {
                numbered(0x10000 + 0x400 * (first - 0xd800) + (low - 0xdc00), 11, at)
            } else {
                numbered(first, 5, at)
            }
        }
        None => numbered(first, 5, at),
    }
}

/// What follows `\u`.
fn unicode_escape(text: &[char], at: usize) -> Result<(Escape, usize), PatternFault>
    ensures value { result ≡ unicode_escape at text.now }
    ensures within { IfOk result (λ r. r.1 ≤ 1 + length text.now) }
{
    if let Some((number, taken)) = in_braces(text) {
        return numbered(number, 1 + taken, at);
    }
    let Some(first) = hexadecimal(text, 4) else {
        return Err(PatternFault::Syntax(at));
    };
    code_unit(first, low_surrogate(skip(text, 4)), at)
}

/// What follows `\x`.
fn byte_escape(text: &[char], at: usize) -> Result<(Escape, usize), PatternFault>
    ensures value { result ≡ byte_escape at text.now }
    ensures within { IfOk result (λ r. r.1 ≤ 1 + length text.now) }
{
    match hexadecimal(text, 2) {
        Some(number) => numbered(number, 3, at),
        None => Err(PatternFault::Syntax(at)),
    }
}

/// What follows `\0`.
fn null_escape(text: &[char], at: usize) -> Result<(Escape, usize), PatternFault>
    ensures { result ≡ null_escape at text.now }
{
    let (_, count) = digits(text, 10);
    if count > 0 {
        return Err(PatternFault::Unsupported(at, PatternForm::Octal));
    }
    Ok((Escape::Character('\0'), 1))
}

/// Reads an escape whose backslash is at the place `at`, before the text. Answers what it stands for, and how many
/// characters follow the backslash.
pub(crate) fn read_escape(text: &[char], at: usize) -> Result<(Escape, usize), PatternFault>
    ensures value { result ≡ escape at text.now }
    ensures within { IfOk result (λ r. r.1 ≤ length text.now) }
{
    let Some((first, rest)) = text.split_first() else {
        return Err(PatternFault::Syntax(at));
    };
    if let Some(class) = class_escape(*first) {
        return Ok((Escape::Class(class), 1));
    }
    if let Some(form) = unsupported_escape(*first) {
        return Err(PatternFault::Unsupported(at, form));
    }
    match *first {
        '0' => null_escape(rest, at),
        'x' => byte_escape(rest, at),
        'u' => unicode_escape(rest, at),
        c => match letter_escape(c) {
            Some(c) => Ok((Escape::Character(c), 1)),
            None => Err(PatternFault::Syntax(at)),
        },
    }
}
