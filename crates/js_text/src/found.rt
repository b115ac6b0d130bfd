//! What is printed of a document that was found.

ghost use Rattle.std.specs.Prelude.{◌≡◌, ◌+◌, length, string_bytes, IfOk};
ghost use Rattle.document_texts.specs.DocumentText as D;
ghost use Rattle.document_texts.specs.FoundText as F;
ghost use Rattle.document_texts.specs.PartsRead.{IsRead};
ghost use Rattle.document_texts.specs.PartsText.{parts_text};
ghost use Rattle.document_texts.specs.Measured.{measured};
ghost use Rattle.js_doc.specs.View.{view};
ghost use Rattle.js_text.specs.Summed.{measure_view};

use crate::document::push_doc;
use crate::measures::{Measure, Measures};
use crate::scalars::push_word;
use crate::table::parts_text;
use crate::told::is_told;
use js_doc::{Doc, Memory, PartId, Parts, unshare};
use std::alloc::Global;

/// The depth up to which a document is printed plain: readers of JSON commonly refuse arrays and objects that are
/// nested more than 128 deep.
const DEEPEST_PLAIN: u32 = 120;

/// The bytes up to which a document is printed plain: a file that is read is no longer.
const LONGEST_PLAIN: u64 = 16_777_216;

/// The line `document` and the text of the document that the last part, `root`, stands for, where it is neither deep
/// nor long and its numbers have 64 bits; else the table of its parts. Time and memory are in proportion to the table's
/// text and to that of the answer: a document is unshared only where its text is short.
pub fn found_text(alloc: Global, parts: &Parts, root: PartId) -> Result<Vec<u8>, Memory>
    requires { root.0 + 1 ≡ length parts.now }
    ensures text { IfOk result (λ v. v.items ≡ F.found_text parts.now root.0) }

    // The text of the table is read back as the table.
    ensures read { IfOk result (λ v. IsRead parts.now (parts_text parts.now)) }
{
    is_told(parts);
    let measures = Measures::room(alloc, parts)?;
    if measures.measure(parts, root).is_plain() {
        let doc = unshare(alloc, parts, root)?;
        plain_text(alloc, &doc)
    } else {
        parts_text(alloc, parts, root)
    }
}

impl Measure {
    /// Whether the document is printed plain: readers of JSON take such a text.
    pub fn is_plain(&self) -> bool
        ensures { result ≡ F.is_plain_text (measure_view self.now) }
    {
        self.depth <= DEEPEST_PLAIN && self.length <= LONGEST_PLAIN && self.short_numbers
    }
}

fn plain_text(alloc: Global, doc: &Doc) -> Result<Vec<u8>, Memory>
    ensures { IfOk result (λ v. v.items ≡ F.plain_text (D.document_text (view doc.now))) }
{
    let mut out = String::from_str(alloc, "document\n")?;
    push_doc(alloc, &mut out, doc)?;
    push_word(&mut out, "\n")?;
    Ok(out.into_bytes())
}
