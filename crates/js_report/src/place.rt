//! Places in words.

ghost use Rattle.std.specs.Prelude.{◌≡◌, ◌++◌, ◌∷◌, IfOk, OnOk, string_bytes};
ghost use Rattle.js_json.specs.Pointer.{pointer_text, quoted};
ghost use Rattle.js_report.specs.RefusalWords as R;

use js_doc::Memory;
use js_json::Pointer;
use std::alloc::Global;

/// Adds a blank and the place, as a JSON string.
pub(crate) fn push_place(words: &mut String, place: &Pointer, alloc: Global) -> Result<(), Memory>
    ensures { OnOk result
        (string_bytes words.new ≡ string_bytes words.old ++ 32 ∷ quoted (pointer_text place.now)) }
{
    let text = place.text(alloc)?;
    words.push_str(" ")?;
    words.push_str(text.as_str())?;
    Ok(())
}

/// The words, and the place after them.
pub fn placed_words(alloc: Global, words: &str, place: &Pointer) -> Result<String, Memory>
    ensures { IfOk result (λ s. string_bytes s ≡ R.placed_words words.now place.now) }
{
    let mut text = String::from_str(alloc, words)?;
    push_place(&mut text, place, alloc)?;
    Ok(text)
}
