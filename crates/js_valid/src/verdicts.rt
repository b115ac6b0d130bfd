//! The verdicts of all entries on one document, a bit each.

ghost use Rattle.std.specs.Prelude.{◌≡◌, ℕ, ◌==◌, ◌<◌, ◌≢◌, length, IfOk};
ghost use Rattle.std.specs.Int.{bit_at};
ghost use Rattle.js_valid.specs.Parts.{flag};

use js_doc::Memory;
use std::alloc::Global;
use std::marker::Model;

/// Verdicts by the numbers of entries. Contracts see the list of them.
///
/// The lowest bit of the first word is that of entry 0.
#[derive(Drop)]
pub(crate) struct Verdicts {
    words: Vec<u64>,
    len: usize,
}

impl Model for Verdicts {
    ghost use Rattle.std.specs.Prelude.{◌≤◌, ◌*◌, Bool, List, length};
    ghost use Rattle.js_valid.specs.Bits.{flags_of};

    ghost Value = { List Bool };

    ghost view = { λ v. flags_of v.words.items v.len };

    ghost invariant = { λ v. v.len ≤ 64 * length v.words.items };
}

impl Verdicts {
    /// Those of a table of tests, in an eighth of its memory.
    pub(crate) fn of(alloc: Global, table: &[bool]) -> Result<Verdicts, Memory>
        ensures { IfOk result (λ v. v ≡ table.now) }
    {
        let mut words = vec![in alloc; 0u64; table.len() / 64 + 1]?;
        for (place, verdict) in table.iter().enumerate() {
            let word = words[place / 64];
            words[place / 64] = with_bit(word, place % 64, *verdict);
        }
        Ok(Verdicts {
            words,
            len: table.len(),
        })
    }

    /// The verdict of the entry; past the last one it is no.
    pub(crate) fn holds(&self, entry: u32) -> bool
        ensures { result ≡ flag self.now entry }
    {
        let place = entry as usize;
        place < self.len && (self.words[place / 64] >> (place % 64)) & 1 == 1
    }
}

fn with_bit(word: u64, place: usize, verdict: bool) -> u64
    requires { place < 64 }
    ensures here { (bit_at result place == 1) ≡ verdict }
    ensures others { (i : ℕ) → i < 64 → i ≢ place → bit_at result i ≡ bit_at word i }
{
    let bit = 1u64 << place;
    if verdict { word | bit } else { word & !bit }
}
