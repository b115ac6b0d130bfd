//! The text of lines that cite by places.

ghost use Rattle.std.specs.Prelude.{◌≡◌, ◌∷◌, ◌++◌, [], map, nat_eq, OnOk, string_bytes};
ghost use Rattle.word_states.specs.Mention.{mention_all};
ghost use Rattle.certificate_lines.specs.Text.{line_text, lines_text};
ghost use Rattle.refutations.specs.Listing.{place_of, cited_by, cited, renamed};
ghost use Rattle.js_lines.specs.View.{line_view};

use crate::listing::{list_end, list_entries};
use indexmap::IndexSet;
use js_doc::Memory;
use js_lines::{CertLine, ShortEntryList, append_line};
use std::alloc::Global;

/// Lists what the line cites, and puts its text at the end, where it cites that by its places.
fn append_placed(
    alloc: Global,
    listed: &mut IndexSet<u32>,
    line: &CertLine,
    text: &mut String,
) -> Result<(), Memory>
    ensures listed { OnOk result (listed.new.keys
        ≡ mention_all nat_eq listed.old.keys (cited_by (line_view line.now))) }
    ensures text { OnOk result (string_bytes text.new
        ≡ string_bytes text.old ++ line_text (renamed (place_of listed.new.keys) (line_view line.now))) }
{
    match line {
        CertLine::Member(place, end) => {
            let end = list_end(listed, *end)?;
            append_line(text, &CertLine::Member(*place, end))
        }
        CertLine::Index(place, end) => {
            let end = list_end(listed, *end)?;
            append_line(text, &CertLine::Index(*place, end))
        }
        CertLine::Tail(place, end) => {
            let end = list_end(listed, *end)?;
            append_line(text, &CertLine::Tail(*place, end))
        }
        CertLine::Short(entries) => {
            let entries = list_entries(alloc, listed, entries.as_slice())?;
            append_line(text, &CertLine::Short(ShortEntryList::from_vec(entries)))
        }
        other => append_line(text, other),
    }
}

/// Appends lines, one after another, with citations renumbered as in `append_placed`.
pub(crate) fn append_lines(
    alloc: Global,
    listed: &mut IndexSet<u32>,
    lines: &[CertLine],
    text: &mut String,
) -> Result<(), Memory>
    ensures listed { OnOk result (listed.new.keys
        ≡ mention_all nat_eq listed.old.keys (cited (map line_view lines.now))) }
    ensures text { OnOk result (string_bytes text.new ≡ string_bytes text.old
        ++ lines_text (map (renamed (place_of listed.new.keys)) (map line_view lines.now))) }
{
    for line in lines {
        append_placed(alloc, listed, line, text)?;
    }
    Ok(())
}
