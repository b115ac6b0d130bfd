//! What documents and parts have in common: words, numbers, strings and the commas of a list.

ghost use Rattle.std.specs.Prelude.{◌≡◌, ◌++◌, ◌∷◌, OnOk, string_bytes};
ghost use Rattle.std.specs.Fmt.{signed_decimal};
ghost use Rattle.document_texts.specs.Scalars.{string_text, truth_text};
ghost use Rattle.js_text.specs.Commas.{comma_unless};

use js_doc::{Memory, Str};
use serde_json::Value;
use std::alloc::Global;

pub(crate) fn push_word(out: &mut String, word: &str) -> Result<(), Memory>
    ensures { OnOk result (string_bytes out.new ≡ string_bytes out.old ++ word.now) }
{
    out.push_str(word)?;
    Ok(())
}

pub(crate) fn push_truth(out: &mut String, truth: bool) -> Result<(), Memory>
    ensures { OnOk result (string_bytes out.new ≡ string_bytes out.old ++ truth_text truth) }
{
    push_word(out, if truth { "true" } else { "false" })
}

pub(crate) fn push_integer(out: &mut String, number: i128) -> Result<(), Memory>
    ensures { OnOk result (string_bytes out.new ≡ string_bytes out.old ++ signed_decimal number) }
{
    write!(out, "{number}")?;
    Ok(())
}

/// A string as JSON has it, with the shortest escapes.
pub(crate) fn push_string(alloc: Global, out: &mut String, text: &Str) -> Result<(), Memory>
    ensures { OnOk result (string_bytes out.new ≡ string_bytes out.old ++ string_text text.now) }
{
    let plain = String::from_str(alloc, text.as_text())?;
    let quoted = Value::String(plain).to_string(alloc)?;
    out.push_str(quoted.as_str())?;
    Ok(())
}

/// The comma before an element that isn't the first.
pub(crate) fn push_comma(out: &mut String, first: bool) -> Result<(), Memory>
    ensures { OnOk result (string_bytes out.new ≡ string_bytes out.old ++ comma_unless first) }
{
    push_word(out, if first { "" } else { "," })
}
