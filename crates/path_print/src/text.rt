//! The string of a path in its two directions, kept as two numbers, and for each a sum whose remainder is its hash.
//!
//! A path grows and is turned. So the string there, which grows at its end with its hash, is the string back of the
//! longer path. The string back grows at its front: the new bytes get the weight of all bytes after them.
ghost use Rattle.std.specs.Prelude.{◌≡◌, ◌<◌, ◌≤◌, ◌+◌, ◌*◌, ◌%◌, length};
ghost use Rattle.path_print.specs.Path.{bit_of};
ghost use Rattle.path_print.specs.Texts.{of_label, longer_text};

use std::marker::Model;

/// The hash is a remainder by this prime.
pub const PRIME: u64 = 65521;

/// The start of a hash.
pub const SEED: u64 = 7;

/// The factor of the bytes so far, before the next byte is added.
pub const FACTOR: u64 = 131;

/// The increase of a hash's start after three bytes of value 0.
pub const SHIFTED: u64 = SEED * FACTOR * FACTOR * FACTOR - SEED;

/// The string of a path in its two directions. Contracts see it as two lists of bytes.
#[derive(Drop)]
pub struct Text {
    // The strings as numbers, the first byte highest.
    there: u128,
    back: u128,
    // The hash of each is the remainder of these.
    there_sum: u64,
    back_sum: u64,
    // The factor of a byte before the second string, in its hash.
    weight: u64,
    length: u64,
}

impl Model for Text {
    ghost use Rattle.path_print.specs.Texts.{TextTerm, digits, IsTextInside};

    ghost Value = { TextTerm };

    ghost view = { λ t. record { there = digits t.length t.there; back = digits t.length t.back } };

    ghost invariant = { λ t. IsTextInside t.length t.there t.back t.there_sum t.back_sum t.weight };
}

impl Text {
    /// The text of one atom.
    pub fn of(label: (u8, u8)) -> Text
        ensures { result ≡ of_label label }
    {
        let number = number_of(0, label.0, label.1);
        let sum = SEED * FACTOR * FACTOR + sum_of(0, label.0, label.1);
        Text {
            there: number,
            back: number,
            there_sum: sum,
            back_sum: sum,
            weight: FACTOR * FACTOR,
            length: 2,
        }
    }

    /// The text of a path that goes on to one more atom, turned.
    #[inline(always)]
    pub fn longer(&self, byte: u8, label: (u8, u8)) -> Text
        requires { length self.now.there ≤ 11 }
        ensures { result ≡ longer_text self.now byte label }
    {
        let tail = sum_of(byte, label.0, label.1);
        let head = sum_of(label.0, label.1, byte);
        let weighed = (SHIFTED + head) * self.weight;
        let sum = before_growth(self.there_sum, self.length);
        Text {
            there: (number_of(label.0, label.1, byte) << (8 * self.length)) + self.back,
            back: (self.there << 24) + number_of(byte, label.0, label.1),
            there_sum: self.back_sum + weighed,
            back_sum: sum * FACTOR * FACTOR * FACTOR + tail,
            weight: self.weight * FACTOR * FACTOR * FACTOR % PRIME,
            length: self.length + 3,
        }
    }

    /// The bit of the path.
    #[inline(always)]
    pub fn bit(&self) -> u16
        ensures value { result ≡ bit_of self.now.there self.now.back }
        ensures small { result < 1024 }
    {
        if self.back < self.there {
            bit_from(self.back_sum)
        } else {
            bit_from(self.there_sum)
        }
    }
}

// A sum with the same remainder, small enough to grow by three bytes. Sums of up to eight bytes are.
#[inline(always)]
fn before_growth(sum: u64, length: u64) -> u64
    requires { length ≤ 8 → sum ≤ 2000000000000 }
    ensures same { result % 65521 ≡ sum % 65521 }
    ensures less { result ≤ sum }
    ensures small { result ≤ 2000000000000 }
{
    if length > 8 { sum % PRIME } else { sum }
}

/// The bit of a hash that is the remainder of this.
#[inline(always)]
pub fn bit_from(sum: u64) -> u16
    ensures value { result ≡ sum % PRIME % 1024 }
    ensures small { result < 1024 }
{
    (sum % PRIME % 1024) as u16
}

// Three bytes as a number.
#[inline(always)]
fn number_of(first: u8, second: u8, third: u8) -> u128
    ensures { result ≡ 65536 * first + 256 * second + third }
{
    65536 * u128::from(first) + 256 * u128::from(second) + u128::from(third)
}

/// The addend of three bytes at the end, in a hash.
#[inline(always)]
pub fn sum_of(first: u8, second: u8, third: u8) -> u64
    ensures { result ≡ 17161 * first + 131 * second + third }
{
    FACTOR * FACTOR * u64::from(first) + FACTOR * u64::from(second) + u64::from(third)
}
