//! The families of generated schemas by their words.

ghost use Rattle.std.specs.Prelude.{◌≡◌, option_map};
ghost use Rattle.js_gen.specs.KindView.{kind_view};
ghost use Rattle.js_words.specs.Commands as C;

use js_gen::GenKind;

pub(crate) fn kind_of(text: &str) -> Option<GenKind>
    ensures { option_map kind_view result ≡ C.family_of text.now }
{
    if text == "chain" {
        Some(GenKind::Chain)
    } else if text == "wide" {
        Some(GenKind::Wide)
    } else if text == "patterns" {
        Some(GenKind::Patterns)
    } else if text == "tree" {
        Some(GenKind::Tree)
    } else {
        None
    }
}
