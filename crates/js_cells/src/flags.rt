//! Flags, kept as the bits of words: what is said of a row has one for each literal.
//!
//! They are compared and hashed a word at a time.

ghost use Rattle.std.specs.Prelude.{◌≡◌, ◌<◌, ◌==◌, ◌≢◌, ℕ, false, fold, get_or, length, replicate, set, IfOk};
ghost use Rattle.std.specs.Bool.{beq};
ghost use Rattle.std.specs.Cmp.{bool_eq_equiv, partial_equiv_from_equiv};
ghost use Rattle.std.specs.Cmp.Lexicographic.{lists_equiv, pointwise};
ghost use Rattle.std.specs.Hash as fed;
ghost use Rattle.std.specs.Int.{bit_at};
ghost use Rattle.js_cells.specs.FlagWords.{words_of, flags_decide};

use js_doc::Memory;
use std::alloc::Global;
use std::hash::{Hash, Hasher};
use std::marker::Model;

/// Flags. Contracts see them as a list.
///
/// A flag is a bit, the lowest of the first word for the first flag, and no bit is set past the last.
#[derive(Drop)]
pub(crate) struct Flags {
    words: Vec<u64>,
    len: usize,
}

impl Model for Flags {
    ghost use Rattle.std.specs.Prelude.{◌≡◌, ◌<◌, ◌≤◌, ◌+◌, ◌/◌, ◌^◌, ℕ, Bool, List, false, length, slice_index};
    ghost use Rattle.js_pattern_positions.specs.Bits.{bit_of, flags_of};

    ghost Value = { List Bool };

    ghost view = { λ f. flags_of f.words.items f.len };

    ghost invariant = { λ f. (length f.words.items ≡ f.len / 64 + 1)
        × ((p : ℕ) → f.len ≤ p → bit_of f.words.items p ≡ false)
        × ((k : ℕ) → slice_index f.words.items k < 2 ^ 64) };
}

impl Flags {
    /// So many flags, none of which is set.
    pub(crate) fn none(alloc: Global, count: usize) -> Result<Flags, Memory>
        ensures { IfOk result (λ f. f ≡ replicate count false) }
    {
        Ok(Flags {
            words: vec![in alloc; 0; count / 64 + 1]?,
            len: count,
        })
    }

    pub(crate) fn get(&self, place: usize) -> bool
        requires { place < length self.now }
        ensures { result ≡ get_or self.now place false }
    {
        (self.words[place / 64] >> (place % 64)) & 1 == 1
    }

    pub(crate) fn put(&mut self, place: usize, flag: bool)
        requires { place < length self.old }
        ensures { self.new ≡ set self.old place flag }
    {
        let word = self.words[place / 64];
        self.words[place / 64] = with_bit(word, place % 64, flag);
    }
}

impl PartialEq for Flags {
    ghost eq = { pointwise beq };

    ghost laws = { partial_equiv_from_equiv (lists_equiv bool_eq_equiv) };

    fn eq(&self, other: &Flags) -> bool {
        are_same(self, other)
    }
}

impl Eq for Flags {
    ghost laws = { lists_equiv bool_eq_equiv };
}

impl Hash for Flags {
    ghost hash_input = { λ f. fed.slice fed.u64 (words_of f) };

    ghost respects_eq = { (fed.same_Alike (λ f. fed.slice fed.u64 (words_of f)) flags_decide).fed };

    fn hash<H: Hasher>(&self, state: &mut H) {
        feed(self, state);
    }
}

fn are_same(x: &Flags, y: &Flags) -> bool
    ensures { result ≡ pointwise beq x.now y.now }
{
    let ours = x.words.as_slice();
    let theirs = y.words.as_slice();
    x.len == y.len && ours == theirs
}

/// Feeds a hasher the words.
fn feed<H: Hasher>(flags: &Flags, state: &mut H)
    ensures { state.new ≡ fold H.write state.old (fed.slice fed.u64 (words_of flags.now)) }
{
    let words = flags.words.as_slice();
    words.hash(state);
}

/// The word with one bit set or cleared.
fn with_bit(word: u64, place: usize, flag: bool) -> u64
    requires { place < 64 }
    ensures here { (bit_at result place == 1) ≡ flag }
    ensures others { (i : ℕ) → i < 64 → i ≢ place → bit_at result i ≡ bit_at word i }
{
    let bit = 1u64 << place;
    if flag { word | bit } else { word & !bit }
}
