//! An arm of a path in one family of labels: the atoms between an end of the path and an atom in its middle.
//!
//! A path is two arms with an atom between. Its hash is computed from the sums of both arms, and the lesser of its two
//! strings from their numbers. So paths that share an arm share its work.
ghost use Rattle.std.specs.Prelude.{◌≡◌, ◌+◌, ◌*◌, ◌%◌, ◌^◌, ◌<◌, ◌≤◌, ℕ, List, [], ◌∷◌, length, IsTrue};
ghost use Rattle.path_print.specs.Path.{hash_of, lesser, bit_of};
ghost use Rattle.path_print.specs.Arms.{Joint, IsHalf, IsHalfOf, IsBalanced, through};

use crate::text::{FACTOR, PRIME, SEED, SHIFTED, bit_from, sum_of};

/// The most atoms of an arm.
pub const LONGEST: usize = 2;

// The factor of a number before three bytes are added.
const SHIFT: u64 = 256 * 256 * 256;

// The factor of a sum before three bytes are added.
const CUBE: u64 = FACTOR * FACTOR * FACTOR;

/// The numbers and sums of an arm of up to two atoms.
#[derive(Clone, Copy)]
pub struct Half {
    /// Its bytes inward, as a number, the first one highest.
    pub number: u64,
    /// The hash of its bytes inward is the remainder of this.
    pub head: u64,
    /// The addend of its bytes outward in a hash.
    pub tail: u64,
}

impl Half {
    /// The arm of no atom.
    pub const NONE: Half = Half {
        number: 0,
        head: SEED,
        tail: 0,
    };

    /// The placeholder of an arm before one is written.
    pub const BLANK: Half = Half {
        number: 0,
        head: 0,
        tail: 0,
    };

    /// The arm of one atom, with this label, by a bond with this byte.
    #[inline(always)]
    pub fn of(label: (u8, u8), byte: u8) -> Half
        ensures { IsHalf ((label, byte) ∷ []) result }
    {
        Half {
            number: number_of(label, byte),
            head: SEED * CUBE + sum_of(label.0, label.1, byte),
            tail: sum_of(byte, label.0, label.1),
        }
    }

    /// The arm of one atom, with one more at its end.
    #[inline(always)]
    pub fn longer(&self, label: (u8, u8), byte: u8) -> Half
        requires { IsHalfOf 1 self.now }
        ensures { (j : Joint) → IsHalf (j ∷ []) self.now → IsHalf ((label, byte) ∷ j ∷ []) result }
    {
        Half {
            number: number_of(label, byte) * SHIFT + self.number,
            head: (SHIFTED + sum_of(label.0, label.1, byte)) * CUBE + self.head,
            tail: self.tail * CUBE + sum_of(byte, label.0, label.1),
        }
    }
}

/// The bit of the path of two arms with an atom of this label between, after the first arm and before the last.
#[inline(always)]
pub fn bit_between(first: &Half, label: (u8, u8), last: &Half, before: usize, behind: usize) -> u16
    requires first { IsHalfOf before first.now }
    requires last { IsHalfOf behind last.now }
    requires short { before ≤ LONGEST }
    requires balanced { IsBalanced before behind }
    ensures value { (js ks : List Joint) → length js ≡ before → length ks ≡ behind → IsHalf js first.now
        → IsHalf ks last.now → result ≡ bit_of (through js label ks) (through ks label js) }
    ensures small { result < 1024 }
{
    // Both sums are made before one is taken: to choose first took an eighth more time.
    let there = sum_through(first, label, last, behind);
    let back = sum_through(last, label, first, before);
    if is_back_lesser(first, label, last, before, behind) {
        bit_from(back)
    } else {
        bit_from(there)
    }
}

// True if the string from the last arm to the first is the lesser. If both are equal, either answer is right.
#[inline(always)]
fn is_back_lesser(first: &Half, label: (u8, u8), last: &Half, before: usize, behind: usize) -> bool
    requires first { IsHalfOf before first.now }
    requires last { IsHalfOf behind last.now }
    requires short { before ≤ LONGEST }
    requires balanced { IsBalanced before behind }
    ensures yes { IsTrue result → (js ks : List Joint) → length js ≡ before → length ks ≡ behind → IsHalf js first.now
        → IsHalf ks last.now → lesser (through js label ks) (through ks label js) ≡ through ks label js }
    ensures no { (IsTrue result → ⊥) → (js ks : List Joint) → length js ≡ before → length ks ≡ behind
        → IsHalf js first.now → IsHalf ks last.now
        → lesser (through js label ks) (through ks label js) ≡ through js label ks }
{
    // Of unequal arms the comparison ends before the byte of the bond from the longer one to the middle. Both strings
    // have this byte there.
    if before == behind {
        last.number < first.number
    } else {
        last.number * 65536 + 256 * u64::from(label.0) + u64::from(label.1) < first.number / 256
    }
}

// A number whose remainder is the hash of the string from the first arm to the last.
#[inline(always)]
fn sum_through(first: &Half, label: (u8, u8), last: &Half, behind: usize) -> u64
    requires first { (n : ℕ) × (n ≤ LONGEST) × IsHalfOf n first.now }
    requires last { IsHalfOf behind last.now }
    requires short { behind ≤ LONGEST }
    ensures { (js ks : List Joint) → IsHalf js first.now → length ks ≡ behind → IsHalf ks last.now
        → result % 65521 ≡ hash_of (through js label ks) }
{
    let middle = sum_of(0, label.0, label.1) * weight_of(behind);
    first.head * shift_of(behind) + middle + last.tail
}

// The factor, in a hash, of the bytes before an arm of `atoms` atoms.
#[inline(always)]
fn weight_of(atoms: usize) -> u64
    requires { atoms ≤ LONGEST }
    ensures value { result ≡ 131 ^ (3 * atoms) % 65521 }
    ensures small { result < 65521 }
{
    match atoms {
        0 => 1,
        1 => CUBE % PRIME,
        _ => CUBE * CUBE % PRIME,
    }
}

// As `weight_of`, but with the two bytes of a label between.
#[inline(always)]
fn shift_of(atoms: usize) -> u64
    requires { atoms ≤ LONGEST }
    ensures value { result ≡ 131 ^ (3 * atoms) % 65521 * 131 * 131 % 65521 }
    ensures small { result < 65521 }
{
    match atoms {
        0 => FACTOR * FACTOR,
        1 => CUBE % PRIME * FACTOR * FACTOR % PRIME,
        _ => CUBE * CUBE % PRIME * FACTOR * FACTOR % PRIME,
    }
}

// A label and a byte as a number.
#[inline(always)]
fn number_of(label: (u8, u8), byte: u8) -> u64
    ensures { result ≡ 65536 * label.0 + 256 * label.1 + byte }
{
    65536 * u64::from(label.0) + 256 * u64::from(label.1) + u64::from(byte)
}
