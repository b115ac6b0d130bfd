//! Sets of positions: filled in the order of the positions, and joined and met a word at a time.

ghost use Rattle.std.specs.Prelude.{◌≡◌, ◌≢◌, ◌+◌, ◌-◌, ◌*◌, ◌%◌, ◌^◌, ◌<◌, ◌≤◌, ◌++◌, ◌∷◌, [], length, replicate, true, false, IfOk, IsTrue, ◌↔◌, ◌==◌, ℕ};
ghost use Rattle.std.specs.Int.{bit_at};
ghost use Rattle.word_states.specs.PatternState.{numbers_from};
ghost use Rattle.state_laws.specs.Flow.{flag_at};
ghost use Rattle.state_laws.specs.FollowSets.{or_each, and_each};
ghost use Rattle.js_pattern_positions.specs.Bits.{flags_of};
ghost use Rattle.js_pattern_positions.specs.Walk.{Quiet};
ghost use Rattle.js_pattern_positions.specs.Both.{some_both};

use js_doc::Memory;
use std::alloc::Global;
use std::marker::Model;

/// Which positions are in a set: a flag for each of the first ones, with room for those that follow. Contracts see the
/// flags and the room.
///
/// A flag is a bit, the lowest of the first word for position 0. `top` lies above all positions of the set, and no bit
/// is set from it on.
#[derive(Drop)]
pub struct PositionSet {
    words: Vec<u64>,
    len: usize,
    top: usize,
}

impl Model for PositionSet {
    ghost use Rattle.std.specs.Prelude.{◌≡◌, ◌≤◌, ◌*◌, ◌^◌, false, length, ℕ};
    ghost use Rattle.js_pattern_positions.specs.Bits.{bit_of, flags_of};
    ghost use Rattle.js_pattern_positions.specs.Marks.{Marks};

    ghost Value = { Marks };

    ghost view = { λ s. record { flags = flags_of s.words.items s.len; room = 64 * length s.words.items } };

    ghost invariant = { λ s. (s.len ≤ 64 * length s.words.items) × (64 * length s.words.items ≤ 2 ^ 32)
        × (s.top ≤ s.len) × ((p : ℕ) → s.top ≤ p → bit_of s.words.items p ≡ false) };
}

impl PositionSet {
    /// No flags yet, and room for so many, and at most a word more.
    pub fn with_room(alloc: Global, room: u32) -> Result<PositionSet, Memory>
        ensures flags { IfOk result (λ s. s.flags ≡ []) }
        ensures room { IfOk result (λ s. room ≤ s.room) }
        ensures small { IfOk result (λ s. s.room ≤ room + 64) }
    {
        Ok(PositionSet {
            words: vec![in alloc; 0; room as usize / 64 + 1]?,
            len: 0,
            top: 0,
        })
    }

    /// The set without positions, where there are so many.
    pub fn none(alloc: Global, count: u32) -> Result<PositionSet, Memory>
        ensures { IfOk result (λ s. s.flags ≡ replicate count false) }
    {
        Ok(PositionSet {
            words: vec![in alloc; 0; count as usize / 64 + 1]?,
            len: count as usize,
            top: 0,
        })
    }

    /// The number of flags.
    pub(crate) fn len(&self) -> usize
        ensures { result ≡ length self.now.flags }
    {
        self.len
    }

    /// Whether the position is in the set. Those without a flag aren't.
    pub fn contains(&self, position: usize) -> bool
        ensures { result ≡ flag_at self.now.flags position }
    {
        position < self.len && (self.words[position / 64] >> (position % 64)) & 1 == 1
    }

    /// The flag of the next position.
    pub fn push(&mut self, flag: bool)
        requires { length self.old.flags < self.old.room }
        ensures flags { self.new.flags ≡ self.old.flags ++ flag ∷ [] }
        ensures room { self.new.room ≡ self.old.room }
    {
        let word = self.words[self.len / 64];
        self.words[self.len / 64] = with_bit(word, self.len % 64, flag);
        self.len += 1;
        self.top = self.top.max(self.len * usize::from(flag));
    }

    /// So many flags that aren't set.
    pub fn push_none(&mut self, count: usize)
        requires { length self.old.flags + count ≤ self.old.room }
        ensures flags { self.new.flags ≡ self.old.flags ++ replicate count false }
        ensures room { self.new.room ≡ self.old.room }
    {
        self.len += count;
    }

    /// The flags of so many positions, whose bits are in one word, from the lowest bit of a number on.
    pub fn bits(&self, from: usize, count: usize) -> u64
        requires { from % 64 + count ≤ 64 }
        ensures bits { (i : ℕ) → i < count → (bit_at result i == 1) ≡ flag_at self.now.flags (from + i) }
        ensures small { result < 2 ^ count }
    {
        if count == 0 {
            return 0;
        }
        let index = from / 64;
        if index >= self.words.len() {
            return 0;
        }
        (self.words[index] >> (from % 64)) & (u64::MAX >> (64 - count))
    }

    /// So many flags, whose bits come into one word, from the lowest bit of a number on.
    pub(crate) fn push_bits(&mut self, bits: u64, count: usize)
        requires room { length self.old.flags + count ≤ self.old.room }
        requires word { length self.old.flags % 64 + count ≤ 64 }
        requires some { 0 < count }
        requires small { bits < 2 ^ count }
        ensures flags { self.new.flags ≡ self.old.flags ++ flags_of (bits ∷ []) count }
        ensures room { self.new.room ≡ self.old.room }
    {
        let word = self.words[self.len / 64];
        self.words[self.len / 64] = with_bits(word, self.len % 64, bits);
        self.len += count;
        self.top = self.len;
    }

    /// Whether no position from this one on is seen to be in the set.
    pub fn has_none_from(&self, position: usize) -> bool
        ensures { IsTrue result → Quiet (flag_at self.now.flags) position }
    {
        self.top <= position
    }

    /// Takes all flags away, and keeps the room. It costs a look at each word.
    pub fn clear(&mut self)
        ensures flags { self.new.flags ≡ [] }
        ensures room { self.new.room ≡ self.old.room }
    {
        self.words.fill(0);
        self.len = 0;
        self.top = 0;
    }

    /// Whether the sets have the same positions, however many flags there are.
    pub fn same(&self, other: &PositionSet) -> bool
        ensures { IsTrue result ↔ (numbers_from 0 self.now.flags ≡ numbers_from 0 other.now.flags) }
    {
        let count = self.count_words().max(other.count_words());
        for index in 0..count {
            if !have_same_bits(self.word(index), other.word(index)) {
                return false;
            }
        }
        true
    }

    /// Adds the positions of another set.
    pub fn join(&mut self, other: &PositionSet)
        requires { length other.now.flags ≤ self.old.room }
        ensures flags { self.new.flags ≡ or_each self.old.flags other.now.flags }
        ensures room { self.new.room ≡ self.old.room }
    {
        for index in 0..other.count_words() {
            self.words[index] |= other.word(index);
        }
        self.len = self.len.max(other.len);
        self.top = self.top.max(other.top);
    }

    /// Takes away the positions that another set doesn't have.
    ///
    /// `top` falls with them, so that later calls look at fewer words.
    pub fn meet(&mut self, other: &PositionSet)
        requires { length self.old.flags ≡ length other.now.flags }
        ensures flags { self.new.flags ≡ and_each self.old.flags other.now.flags }
        ensures room { self.new.room ≡ self.old.room }
    {
        let mut used = 0;
        for index in 0..self.count_words() {
            let word = self.words[index] & other.word(index);
            self.words[index] = word;
            if word != 0 {
                used = index + 1;
            }
        }
        self.top = self.top.min(64 * used);
    }

    /// Whether some position is in both.
    pub fn meets(&self, other: &PositionSet) -> bool
        ensures { result ≡ some_both (flag_at self.now.flags) (flag_at other.now.flags) (length self.now.flags) }
    {
        for index in 0..self.count_words() {
            if self.word(index) & other.word(index) != 0 {
                return true;
            }
        }
        false
    }

    /// Whether all its positions are in another set.
    pub fn is_within(&self, other: &PositionSet) -> bool
        ensures { IsTrue result
            ↔ ((p : ℕ) → flag_at self.now.flags p ≡ true → flag_at other.now.flags p ≡ true) }
    {
        for index in 0..self.count_words() {
            let word = self.word(index);
            if word & other.word(index) != word {
                return false;
            }
        }
        true
    }

    /// How many words there are up to `top`, from which on no bit is set.
    pub fn count_words(&self) -> usize
        ensures quiet { Quiet (flag_at self.now.flags) (64 * result) }
        ensures within { 64 * result < length self.now.flags + 64 }
        ensures small { 64 * result ≤ 2 ^ 32 }
    {
        self.top.div_ceil(64)
    }

    /// The flags of 64 positions, the lowest bit for the first of them.
    pub fn word(&self, index: usize) -> u64
        ensures { (i : ℕ) → i < 64 → (bit_at result i == 1) ≡ flag_at self.now.flags (64 * index + i) }
    {
        if index < self.words.len() {
            self.words[index]
        } else {
            0
        }
    }
}

/// Whether the words are equal, which is to have the same bits.
fn have_same_bits(ours: u64, theirs: u64) -> bool
    ensures { IsTrue result ↔ ((i : ℕ) → i < 64 → bit_at ours i ≡ bit_at theirs i) }
{
    ours == theirs
}

/// The word with one bit set or cleared.
fn with_bit(word: u64, place: usize, flag: bool) -> u64
    requires { place < 64 }
    ensures here { (bit_at result place == 1) ≡ flag }
    ensures others { (i : ℕ) → i < 64 → i ≢ place → bit_at result i ≡ bit_at word i }
{
    let bit = 1u64 << place;
    if flag { word | bit } else { word & !bit }
}

/// The word with more bits from a place on, where it has none.
fn with_bits(word: u64, place: usize, bits: u64) -> u64
    requires place { place < 64 }
    requires fits { bits * 2 ^ place < 2 ^ 64 }
    requires free { (i : ℕ) → place ≤ i → i < 64 → (bit_at word i == 1) ≡ false }
    ensures below { (i : ℕ) → i < place → bit_at result i ≡ bit_at word i }
    ensures above { (i : ℕ) → place ≤ i → i < 64 → bit_at result i ≡ bit_at bits (i - place) }
{
    word | bits << place
}
