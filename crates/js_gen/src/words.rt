//! Texts: names that end in a number, and letters.

ghost use Rattle.std.specs.Prelude.{◌≡◌, ◌<◌, ◌++◌, true, IfOk, codes};
ghost use Rattle.documents.specs.Json as D;
ghost use Rattle.families.specs.Families as F;
ghost use Rattle.js_doc.specs.JsonView.{view};
ghost use Rattle.js_gen.specs.Ascii.{is_ascii};

use js_doc::{Json, Memory, Str, Word};
use std::alloc::Global;

/// A text that is written out.
pub(crate) fn text(alloc: Global, text: &str) -> Result<Json, Memory>
    requires { is_ascii text.now ≡ true }
    ensures { IfOk result (λ j. view j ≡ D.string text.now) }
{
    Ok(Json::Text(Word::new(Str::from_text(alloc, text)?)))
}

/// A name that ends in a number.
pub(crate) fn numbered(alloc: Global, start: &str, number: u32) -> Result<Str, Memory>
    requires { is_ascii start.now ≡ true }
    ensures { IfOk result (λ s. s ≡ F.numbered start.now number) }
{
    Ok(Str::from_string(format!(in alloc; "{start}{number}")?))
}

/// What leads to the definition that the name is of.
pub(crate) fn definition_path(alloc: Global, name: &Str) -> Result<Json, Memory>
    ensures { IfOk result (λ j. view j ≡ D.string (codes "#/definitions/" ++ name.now)) }
{
    let mut path = String::from_str(alloc, "#/definitions/")?;
    path.push_str(name.as_text())?;
    Ok(Json::Text(Word::new(Str::from_string(path))))
}

/// The letter at a place of a to z.
pub(crate) fn letter(alloc: Global, place: u32) -> Result<Str, Memory>
    requires { place < 26 }
    ensures { IfOk result (λ s. s ≡ F.letter place) }
{
    let mut text = String::new(alloc);
    text.push(char::from(b'a' + place as u8))?;
    Ok(Str::from_string(text))
}
