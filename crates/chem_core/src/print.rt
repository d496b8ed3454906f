//! Fingerprints: one bit for each feature that a structure may have. Most structures that lack a feature of a pattern
//! are ruled out by comparing sixteen words (Daylight Theory Manual, chapter Fingerprints).
ghost use Rattle.std.specs.Prelude.{◌≡◌, ◌↔◌, ◌⊎◌, ℕ, ◌+◌, ◌^◌, ◌<◌, ◌≤◌, true, length, slice_index, slice_set, bit_and, bit_or, EachIndex, IsTrue};
ghost use Rattle.chem_core.specs.Bits.{HasBit, set_bits, shared_bits};
ghost use Rattle.chem_core.specs.Words.{bits_of};

use crate::bits::{has_bit, set_bit};
use std::marker::Model;

/// A fingerprint: 1024 bits, numbered from 0, each set if a structure has one of the features that fall on it (Daylight
/// Theory Manual, chapter Fingerprints). Contracts see it as a list of truth values.
#[derive(Clone, Debug, Drop)]
pub struct Print {
    words: [u64; 16],
}

impl Model for Print {
    ghost use Rattle.std.specs.Prelude.{List, Bool};
    ghost use Rattle.chem_core.specs.Words.{bits_of};

    ghost Value = { List Bool };

    ghost view = { λ p. bits_of p.words };
}

impl Print {
    /// The print with no bit set.
    pub fn empty() -> Print
        ensures length { length result ≡ 1024 }
        ensures none { (bit : ℕ) → HasBit result bit → ⊥ }
    {
        Print { words: [0; 16] }
    }

    /// Sets a bit.
    pub fn set(&mut self, bit: u16)
        requires { bit < 1024 }
        ensures value { self.new ≡ slice_set self.old bit true }
        ensures length { length self.new ≡ 1024 }
    {
        set_bit(&mut self.words, bit);
    }

    /// True if a bit is set. No print has a bit of a number above 1023.
    pub fn has(&self, bit: u16) -> bool
        ensures value { IsTrue result ↔ HasBit self.now bit }
        ensures length { length self.now ≡ 1024 }
    {
        has_bit(&self.words, bit)
    }

    /// The bits, 64 in a word: bit 0 is the lowest of the first.
    pub fn words(&self) -> &[u64; 16]
        ensures { bits_of result.now ≡ self.now }
    {
        &self.words
    }

    /// True if every bit of `need` is set in this print.
    pub fn holds(&self, need: &Print) -> bool
        ensures value { IsTrue result ↔ ((bit : ℕ) → HasBit need.now bit → HasBit self.now bit) }
        ensures length { length self.now ≡ 1024 }
    {
        covers(&self.words, &need.words)
    }

    /// True if no bit is set.
    pub fn is_empty(&self) -> bool
        ensures value { IsTrue result ↔ ((bit : ℕ) → ¬ HasBit self.now bit) }
    {
        Print::empty().holds(self)
    }

    /// Sets each bit of another print as well.
    pub fn unite(&mut self, other: &Print)
        ensures value { (bit : ℕ) → HasBit self.new bit ↔ (HasBit self.old bit ⊎ HasBit other.now bit) }
        ensures length { length self.new ≡ 1024 }
    {
        unite(&mut self.words, &other.words);
    }

    /// The number of bits that are set.
    pub fn count(&self) -> u32
        ensures value { result ≡ set_bits self.now }
        ensures length { length self.now ≡ 1024 }
    {
        self.count_shared(self)
    }

    /// The number of bits that are set in this print and in another.
    pub fn count_shared(&self, other: &Print) -> u32
        ensures value { result ≡ shared_bits self.now other.now }
        ensures length { length self.now ≡ 1024 }
    {
        count_shared(&self.words, &other.words)
    }
}

// True if each word of `have` has all bits of the word of `want` at its place. Compares four words at once.
fn covers(have: &[u64; 16], want: &[u64; 16]) -> bool
    ensures value { IsTrue result
        ↔ EachIndex want.now (λ k.
        bit_and (slice_index have.now k) (slice_index want.now k) ≡ slice_index want.now k) }
    ensures range { EachIndex want.now (λ k. slice_index want.now k < 2 ^ 64) }
{
    for group in 0..4 {
        if lacked_by_four(have, want, 4 * group) != 0 {
            return false;
        }
    }
    true
}

// The bits that four words of `have`, from a place on, lack; 0 if each has all bits of the word of `want`.
#[inline(always)]
fn lacked_by_four(have: &[u64; 16], want: &[u64; 16], place: usize) -> u64
    requires { place + 4 ≤ 16 }
    ensures { result ≡ 0 ↔ ((k : ℕ) → place ≤ k → k < place + 4
        → bit_and (slice_index have.now k) (slice_index want.now k) ≡ slice_index want.now k) }
{
    lacked(have[place], want[place])
        | lacked(have[place + 1], want[place + 1])
        | lacked(have[place + 2], want[place + 2])
        | lacked(have[place + 3], want[place + 3])
}

// The bits of `want` that `have` lacks.
#[inline(always)]
fn lacked(have: u64, want: u64) -> u64
    ensures { result ≡ 0 ↔ bit_and have want ≡ want }
{
    want & !have
}

// Sets in each word the bits of the word of `more` at its place.
fn unite(words: &mut [u64], more: &[u64])
    requires { length words.old ≡ length more.now }
    ensures length { length words.new ≡ length words.old }
    ensures value { EachIndex words.old (λ k.
        slice_index words.new k ≡ bit_or (slice_index words.old k) (slice_index more.now k)) }
{
    for place in 0..words.len() {
        words[place] |= more[place];
    }
}

// The number of bits that both words at the same place have.
fn count_shared(left: &[u64], right: &[u64]) -> u32
    requires length { length left.now ≡ length right.now }
    requires few { length left.now ≤ 16 }
    ensures { result ≡ shared_bits (bits_of left.now) (bits_of right.now) }
{
    let mut count = 0;
    for place in 0..left.len() {
        count += (left[place] & right[place]).count_ones();
    }
    count
}
