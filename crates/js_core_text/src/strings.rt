//! Numbers and strings of a line, each after a blank.

ghost use Rattle.std.specs.Prelude.{◌≡◌, ◌++◌, ◌∷◌, OnOk, flat_map, map, string_bytes};
ghost use Rattle.std.specs.Fmt.{signed_decimal};
ghost use Rattle.js_algebra.specs.View.{pattern_view, places};
ghost use Rattle.js_core_text.specs.CoreText as T;

use js_algebra::{Pattern, Pos};
use js_doc::{Memory, Str};
use serde_json::Value;
use std::alloc::Global;

pub(crate) fn push_number(out: &mut String, number: u64) -> Result<(), Memory>
    ensures { OnOk result (string_bytes out.new ≡ string_bytes out.old ++ T.number_text number) }
{
    write!(out, " {number}")?;
    Ok(())
}

pub(crate) fn push_place(out: &mut String, place: Pos) -> Result<(), Memory>
    ensures { OnOk result (string_bytes out.new ≡ string_bytes out.old ++ T.number_text place.0) }
{
    push_number(out, u64::from(place.0))
}

pub(crate) fn push_places(out: &mut String, list: &[Pos]) -> Result<(), Memory>
    ensures { OnOk result (string_bytes out.new ≡ string_bytes out.old ++ T.numbers_text (places list.now)) }
{
    for place in list {
        push_place(out, *place)?;
    }
    Ok(())
}

pub(crate) fn push_integer(out: &mut String, number: i128) -> Result<(), Memory>
    ensures { OnOk result (string_bytes out.new ≡ string_bytes out.old ++ 32 ∷ signed_decimal number) }
{
    write!(out, " {number}")?;
    Ok(())
}

pub(crate) fn push_integers(out: &mut String, numbers: &[i128]) -> Result<(), Memory>
    ensures { OnOk result (string_bytes out.new
        ≡ string_bytes out.old ++ flat_map (λ n. 32 ∷ signed_decimal n) numbers.now) }
{
    for number in numbers {
        push_integer(out, *number)?;
    }
    Ok(())
}

/// A string as JSON has it.
pub(crate) fn push_string(alloc: Global, out: &mut String, text: &Str) -> Result<(), Memory>
    ensures { OnOk result (string_bytes out.new ≡ string_bytes out.old ++ T.string_text text.now) }
{
    let plain = String::from_str(alloc, text.as_text())?;
    let quoted = Value::String(plain).to_string(alloc)?;
    out.push_str(" ")?;
    out.push_str(quoted.as_str())?;
    Ok(())
}

pub(crate) fn push_strings(alloc: Global, out: &mut String, texts: &[Str]) -> Result<(), Memory>
    ensures { OnOk result (string_bytes out.new ≡ string_bytes out.old ++ T.strings_text texts.now) }
{
    for text in texts {
        push_string(alloc, out, text)?;
    }
    Ok(())
}

/// The texts of patterns.
pub(crate) fn push_patterns(
    alloc: Global,
    out: &mut String,
    patterns: &[Pattern],
) -> Result<(), Memory>
    ensures { OnOk result (string_bytes out.new ≡ string_bytes out.old
        ++ T.strings_text (map (λ r. r.source) (map pattern_view patterns.now))) }
{
    for pattern in patterns {
        push_string(alloc, out, &pattern.source)?;
    }
    Ok(())
}
