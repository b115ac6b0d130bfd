//! The summary that `gen` prints.

ghost use Rattle.std.specs.Prelude.{◌≡◌, ◌+◌, ◌++◌, length, nat_eq, IfOk, OnOk, string_bytes};
ghost use Rattle.std.specs.List.{before_first};
ghost use Rattle.js_report.specs.Lines.{line};
ghost use Rattle.js_gen.specs.KindView.{kind_view};
ghost use Rattle.js_commands.specs.IncludeSaying.{answer_view};
ghost use Rattle.js_top.specs.Report as R;
ghost use Rattle.js_top.specs.Report.{generated_line, counts_text, document_words, certificate_words, findings_text, finding_of};
ghost use Rattle.js_top.specs.Preparing.{IsPrintable};

use crate::finding::Finding;
use crate::text::limit_line;
use js_commands::{Decided, Verdict};
use js_doc::{Memory, PartId, Parts};
use js_gen::GenKind;
use js_text::Measures;
use std::alloc::Global;

/// What comes before the number of listed goals in a certificate.
const HEAD: &str = "certificate 1\ngoals ";

/// The summary of what a family's schemas come to, and what it shows.
pub(crate) fn summary_text(
    alloc: Global,
    kind: GenKind,
    number: u32,
    decided: &Decided,
) -> Result<(Vec<u8>, Finding), Memory>
    requires { IsPrintable (answer_view decided.now.verdict) }
    ensures text { IfOk result (λ r. r.0.items ≡ generated_line (kind_view kind) number
        ++ findings_text (answer_view decided.now.verdict) decided.now.goals decided.now.rounds) }
    ensures finding { IfOk result (λ r. r.1 ≡ finding_of (answer_view decided.now.verdict)) }
{
    let mut text = generated(alloc, kind, number)?;
    match &decided.verdict {
        Verdict::Document(parts, root) => {
            append_counts(&mut text, decided.goals, decided.rounds)?;
            append_document(alloc, &mut text, parts, *root)?;
            Ok((text.into_bytes(), Finding::Document))
        }
        Verdict::Certificate(certificate) => {
            append_counts(&mut text, decided.goals, decided.rounds)?;
            let text = with_certificate(text, certificate.as_slice())?;
            Ok((text, Finding::Nothing))
        }
        Verdict::Limit(limit, goal) => {
            let line = limit_line(alloc, *limit, goal)?;
            text.push_str(line.as_str())?;
            Ok((text.into_bytes(), Finding::Limit))
        }
    }
}

fn generated(alloc: Global, kind: GenKind, number: u32) -> Result<String, Memory>
    ensures { IfOk result (λ s. string_bytes s ≡ generated_line (kind_view kind) number) }
{
    let word = kind.as_word();
    let text = format!(in alloc; "generated {word} {number}\n")?;
    Ok(text)
}

fn append_counts(text: &mut String, goals: u32, rounds: u32) -> Result<(), Memory>
    ensures { OnOk result (string_bytes text.new ≡ string_bytes text.old ++ counts_text goals rounds) }
{
    write!(text, "goals {goals}\nrounds {rounds}\n")?;
    Ok(())
}

/// The line of a document, which is that of the last part.
fn append_document(
    alloc: Global,
    text: &mut String,
    parts: &Parts,
    root: PartId,
) -> Result<(), Memory>
    requires { root.0 + 1 ≡ length parts.now }
    ensures { OnOk result (string_bytes text.new
        ≡ string_bytes text.old ++ line (document_words parts.now root.0)) }
{
    let measures = Measures::room(alloc, parts)?;
    if measures.measure(parts, root).is_plain() {
        text.push_str("document\n")?;
    } else {
        let count = parts.len();
        write!(text, "parts {count}\n")?;
    }
    Ok(())
}

/// The text with the line of a certificate behind it.
fn with_certificate(text: String, certificate: &[u8]) -> Result<Vec<u8>, Memory>
    ensures { IfOk result (λ v. v.items ≡ string_bytes text ++ line (certificate_words certificate.now)) }
{
    let mut bytes = text.into_bytes();
    bytes.extend_from_slice(b"certificate ")?;
    bytes.extend_from_slice(listed_goals(certificate))?;
    bytes.push(b'\n')?;
    Ok(bytes)
}

/// How many goals a certificate lists, as its second line says.
fn listed_goals(certificate: &[u8]) -> &[u8]
    ensures { result.now ≡ R.listed_goals certificate.now }
{
    match certificate.get(HEAD.len()..) {
        Some(rest) => line_of(rest),
        None => &[],
    }
}

/// What comes before the end of the first line.
fn line_of(text: &[u8]) -> &[u8]
    ensures { result.now ≡ before_first (nat_eq 10) text.now }
{
    for (end, byte) in text.iter().enumerate() {
        if *byte == b'\n' {
            return &text[..end];
        }
    }
    text
}
