//! What an answer on two schemas shows: its text, and the status that it comes with.

ghost use Rattle.std.specs.Prelude.{◌≡◌, IfOk};
ghost use Rattle.js_commands.specs.IncludeSaying.{answer_view};
ghost use Rattle.js_top.specs.Report as R;
ghost use Rattle.js_top.specs.Preparing.{IsPrintable};

use crate::status::Status;
use crate::text::limit_line;
use js_commands::Verdict;
use js_doc::Memory;
use js_text::found_text;
use std::alloc::Global;

/// What an answer shows.
#[derive(Clone, Copy)]
pub(crate) enum Finding {
    /// A document that is valid for the first schema and not for the second.
    Document,

    /// There is no such document.
    Nothing,

    /// Whether there is one isn't known, since a limit was passed.
    Limit,
}

impl Finding {
    ghost use Rattle.js_top.specs.Report.{finding_status};

    /// The status that it comes with: `sat` asks for a document, and `include` that there is none.
    pub(crate) fn status(self, is_sat: bool) -> Status
        ensures { result ≡ finding_status is_sat self }
    {
        match (self, is_sat) {
            (Finding::Document, true) | (Finding::Nothing, false) => Status::Done,
            (Finding::Document, false) | (Finding::Nothing, true) => Status::Other,
            (Finding::Limit, _) => Status::Limit,
        }
    }
}

/// The text of an answer, and what it shows.
pub(crate) fn answer_text(alloc: Global, verdict: Verdict) -> Result<(Vec<u8>, Finding), Memory>
    requires { IsPrintable (answer_view verdict) }
    ensures text { IfOk result (λ r. r.0.items ≡ R.answer_text (answer_view verdict)) }
    ensures finding { IfOk result (λ r. r.1 ≡ R.finding_of (answer_view verdict)) }
    ensures read { IfOk result (λ r. R.IsReadBack (answer_view verdict) r.0.items) }
{
    match verdict {
        Verdict::Document(parts, root) => {
            let text = found_text(alloc, &parts, root)?;
            Ok((text, Finding::Document))
        }
        Verdict::Certificate(text) => Ok((text, Finding::Nothing)),
        Verdict::Limit(kind, goal) => {
            let text = limit_line(alloc, kind, &goal)?;
            Ok((text.into_bytes(), Finding::Limit))
        }
    }
}
