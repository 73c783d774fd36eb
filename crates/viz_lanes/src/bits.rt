//! A list of truth values, 64 to a word.

ghost use Rattle.std.specs.Prelude.{◌≡◌, ℕ, ◌==◌, ◌+◌, ◌*◌, ◌/◌, ◌%◌, ◌^◌, ◌<◌, ◌≤◌, ◌++◌};
ghost use Rattle.std.specs.Prelude.{◌∷◌, [], length, false, slice_index_or, IfOk, OnOk, OnErr};
ghost use Rattle.std.specs.Int.{bit_at};
ghost use Rattle.viz_lanes.specs.Kept.{low_bits, bits_of};

use std::alloc::{AllocError, Global};
use std::marker::Model;

// So many whole words are kept at most, so that the number of bits has 64 bits.
const MAX_WORDS: usize = 1 << 57;

/// Truth values, one bit each.
#[derive(Debug, Drop)]
pub struct Bits {
    // Words of 64 bits, the lowest first.
    words: Vec<u64>,
    // The bits that are left, and their number, which is below 64.
    last: u64,
    used: u32,
}

impl Model for Bits {
    ghost use Rattle.std.specs.Prelude.{◌^◌, ◌<◌, ◌≤◌, Bool, List, length};

    ghost Value = { List Bool };

    ghost use Rattle.viz_lanes.specs.Kept.{bits_of};

    ghost view = { λ b. bits_of b.words.items b.used b.last };

    ghost invariant = { λ b.
        (b.used < 64) × (b.last < 2 ^ b.used) × (length b.words.items ≤ 2 ^ 57) };
}

impl Bits {
    /// No bit yet.
    pub fn new(alloc: Global) -> Bits
        ensures value { result ≡ [] }
    {
        Bits {
            words: Vec::new(alloc),
            last: 0,
            used: 0,
        }
    }

    /// No bit yet, with room for so many: `push` takes no memory for them.
    pub(crate) fn with_room(alloc: Global, room: usize) -> Result<Bits, AllocError>
        ensures { IfOk result (λ b. b ≡ []) }
    {
        Ok(Bits {
            words: Vec::with_capacity(alloc, room / 64)?,
            last: 0,
            used: 0,
        })
    }

    /// How many bits there are.
    pub fn len(&self) -> u64
        ensures value { result ≡ length self.now }
    {
        64 * self.words.len() as u64 + u64::from(self.used)
    }

    /// The bit at an index from 0 on.
    pub fn get(&self, i: u64) -> bool
        requires { i < length self.now }
        ensures value { result ≡ slice_index_or self.now i false }
    {
        let at = (i / 64) as usize;
        if at < self.words.len() {
            bit_at(self.words[at], i % 64)
        } else {
            bit_at(self.last, i % 64)
        }
    }

    /// The 64 bits from an index on, the lowest first, with zeros past the last.
    pub fn word_from(&self, at: u64) -> u64
        ensures value { (t : ℕ) → t < 64
            → (bit_at result t == 1) ≡ slice_index_or self.now (at + t) false }
    {
        let i = at / 64;
        joined(self.word(i), self.word(i + 1), (at % 64) as u32)
    }

    /// The word at an index, with zeros past the last bit.
    fn word(&self, i: u64) -> u64
        requires { i ≤ 2 ^ 58 }
        ensures { (t : ℕ) → t < 64
            → (bit_at result t == 1) ≡ slice_index_or self.now (64 * i + t) false }
    {
        let count = self.words.len() as u64;
        if i < count {
            self.words[i as usize]
        } else if i == count {
            self.last
        } else {
            0
        }
    }

    /// Adds a bit at the end. A refused call leaves the bits as they were.
    pub fn push(&mut self, bit: bool) -> Result<(), AllocError>
        ensures ok { OnOk result (self.new ≡ self.old ++ bit ∷ []) }
        ensures err { OnErr result (self.new ≡ self.old) }
    {
        let word = with_bit(self.last, self.used, bit);
        if self.used == 63 {
            push_to(&mut self.words, word)?;
            self.last = 0;
            self.used = 0;
        } else {
            self.last = word;
            self.used += 1;
        }
        Ok(())
    }

    /// Adds the 64 bits of a word at the end, the lowest first.
    pub(crate) fn push_word(&mut self, word: u64) -> Result<(), AllocError>
        requires { length self.old % 64 ≡ 0 }
        ensures ok { OnOk result (self.new ≡ self.old ++ low_bits 64 word) }
        ensures err { OnErr result (self.new ≡ self.old) }
    {
        push_to(&mut self.words, word)?;
        Ok(())
    }
}

// One bit of a word.
fn bit_at(word: u64, at: u64) -> bool
    requires { at < 64 }
    ensures { result ≡ (word / 2 ^ at % 2 == 1) }
{
    (word >> at) % 2 == 1
}

// 64 bits of two words from one of the lower word's bits on.
fn joined(low: u64, high: u64, shift: u32) -> u64
    requires { shift < 64 }
    ensures { (t : ℕ) → t < 64
        → bit_at result t ≡ bit_at (high * 2 ^ 64 + low) (shift + t) }
{
    let both = u128::from(high) * (1 << 64) + u128::from(low);
    ((both >> shift) % (1 << 64)) as u64
}

// The word with one bit more.
fn with_bit(word: u64, at: u32, bit: bool) -> u64
    requires within { at < 64 }
    requires low { word < 2 ^ at }
    ensures value { low_bits (at + 1) result ≡ low_bits at word ++ bit ∷ [] }
    ensures low { result < 2 ^ (at + 1) }
{
    if bit { word + (1 << at) } else { word }
}

// One word more.
fn push_to(words: &mut Vec<u64>, word: u64) -> Result<(), AllocError>
    requires { length words.old.items ≤ 2 ^ 57 }
    ensures ok { OnOk result (words.new.items ≡ words.old.items ++ word ∷ []) }
    ensures err { OnErr result (words.new.items ≡ words.old.items) }
    ensures few { length words.new.items ≤ 2 ^ 57 }
{
    if words.len() >= MAX_WORDS {
        return Err(AllocError);
    }
    words.push(word)?;
    Ok(())
}
