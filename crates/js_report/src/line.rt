//! The line of a refusal.

ghost use Rattle.std.specs.Prelude.{◌≡◌, IfOk, string_bytes};
ghost use Rattle.js_report.specs.Lines as L;

use js_doc::Memory;
use std::alloc::Global;

/// The line that says that the file with a role is refused, and why.
pub fn refusal_line(alloc: Global, role: &str, words: &str) -> Result<String, Memory>
    ensures { IfOk result (λ s. string_bytes s ≡ L.refusal_line role.now words.now) }
{
    let mut text = String::from_str(alloc, "refused ")?;
    text.push_str(role)?;
    text.push_str(" ")?;
    text.push_str(words)?;
    text.push_str("\n")?;
    Ok(text)
}
