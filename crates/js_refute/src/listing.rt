//! Numbers that are listed in order of first citation, and their places in the place of them.

ghost use Rattle.std.specs.Prelude.{◌≡◌, flat_map, map, nat_eq, IfOk, OnOk};
ghost use Rattle.word_states.specs.Mention.{mention, mention_all};
ghost use Rattle.refutations.specs.Listing.{
  place_of,
  cited_by_ending,
  cited_by_entry,
  renamed_ending,
  renamed_entry,
};
ghost use Rattle.js_lines.specs.View.{end_view, entry_view};

use indexmap::IndexSet;
use js_doc::Memory;
use js_lines::{CertEnd, ShortEntry};
use std::alloc::Global;

/// The place, where a line can have it.
fn narrow(place: usize) -> Result<u32, Memory>
    ensures { IfOk result (λ p. p ≡ place) }
{
    match u32::try_from(place) {
        Ok(place) => Ok(place),
        Err(_) => Err(Memory),
    }
}

/// The place of a number; one that isn't listed yet is listed next.
fn place(listed: &mut IndexSet<u32>, number: u32) -> Result<u32, Memory>
    ensures listed { OnOk result (listed.new.keys ≡ mention nat_eq listed.old.keys number) }
    ensures place { IfOk result (λ p. p ≡ place_of listed.new.keys number) }
{
    let (place, _) = listed.insert_full(number)?;
    narrow(place)
}

/// Lists what the end cites. It cites that by its place.
pub(crate) fn list_end(listed: &mut IndexSet<u32>, end: CertEnd) -> Result<CertEnd, Memory>
    ensures listed { OnOk result (listed.new.keys
        ≡ mention_all nat_eq listed.old.keys (cited_by_ending (end_view end))) }
    ensures end { IfOk result (λ e. end_view e ≡ renamed_ending (place_of listed.new.keys) (end_view end)) }
{
    match end {
        CertEnd::Clash => Ok(CertEnd::Clash),
        CertEnd::Goal(number) => Ok(CertEnd::Goal(place(listed, number)?)),
    }
}

/// Lists what the entry cites. It cites that by its place.
fn list_entry(listed: &mut IndexSet<u32>, entry: ShortEntry) -> Result<ShortEntry, Memory>
    ensures listed { OnOk result (listed.new.keys
        ≡ mention_all nat_eq listed.old.keys (cited_by_entry (entry_view entry))) }
    ensures entry { IfOk result (λ e. entry_view e ≡ renamed_entry (place_of listed.new.keys) (entry_view entry)) }
{
    match entry {
        ShortEntry::Kept => Ok(ShortEntry::Kept),
        ShortEntry::Clash => Ok(ShortEntry::Clash),
        ShortEntry::Goal(number) => Ok(ShortEntry::Goal(place(listed, number)?)),
    }
}

/// Lists what the entries cite. They cite that by its places.
pub(crate) fn list_entries(
    alloc: Global,
    listed: &mut IndexSet<u32>,
    entries: &[ShortEntry],
) -> Result<Vec<ShortEntry>, Memory>
    ensures listed { OnOk result (listed.new.keys
        ≡ mention_all nat_eq listed.old.keys (flat_map cited_by_entry (map entry_view entries.now))) }
    ensures entries { IfOk result (λ v. map entry_view v.items
        ≡ map (renamed_entry (place_of listed.new.keys)) (map entry_view entries.now)) }
{
    let mut placed = Vec::with_capacity(alloc, entries.len())?;
    for entry in entries {
        placed.push(list_entry(listed, *entry)?)?;
    }
    Ok(placed)
}
