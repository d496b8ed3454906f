//! A summary of prints by rows: for each bit, the columns that may have it. A few prints share a column.
ghost use Rattle.std.specs.Prelude.{◌≡◌, ◌+◌, ◌*◌, ◌<◌, ℕ, Bool, IsTrue, List, length, slice_set, true};
ghost use Rattle.std.specs.Int.{bit_at};
ghost use Rattle.chem_core.specs.Bits.{HasBit};
ghost use Rattle.chem_core.specs.Words.{bits_of};
ghost use Rattle.screen_index.specs.Pairs.{Holds, Notes};

use chem_core::Print;
use std::alloc::{AllocError, Global};
use std::marker::Model;

// The number of rows: one for each bit of a print, of 64 columns.
const ROWS: usize = 1024;

/// A row has the columns of the prints that have its bit, and maybe others. Contracts see the bits of all rows, one row
/// after another.
#[derive(Drop)]
pub struct Rows {
    words: Vec<u64>,
}

impl Model for Rows {
    ghost use Rattle.std.specs.Prelude.{◌≡◌, Bool, List, length};
    ghost use Rattle.chem_core.specs.Words.{bits_of};

    ghost Value = { List Bool };

    ghost view = { λ r. bits_of r.words.items };

    ghost invariant = { λ r. length r.words.items ≡ 1024 };
}

impl Rows {
    /// Rows without columns.
    pub fn new(alloc: Global) -> Result<Rows, AllocError> {
        let words = vec![in alloc; 0; ROWS]?;
        Ok(Rows { words })
    }

    /// Removes all columns.
    pub fn clear(&mut self) {
        for place in 0..self.words.len() {
            self.words[place] = 0;
        }
    }

    /// Adds a column to the row of each bit of a print.
    pub fn note(&mut self, print: &Print, column: u8)
        requires { column < 64 }
        ensures noted { Notes self.new print.now column }
        ensures kept { (bit : ℕ) → HasBit self.old bit → HasBit self.new bit }
    {
        note_words(self.words.as_mut_slice(), print.words(), column);
    }

    /// Adds each column of other rows as well.
    pub fn unite(&mut self, other: &Rows)
        ensures own { (bit : ℕ) → HasBit self.old bit → HasBit self.new bit }
        ensures others { (bit : ℕ) → HasBit other.now bit → HasBit self.new bit }
    {
        unite(self.words.as_mut_slice(), other.words.as_slice());
    }

    /// Columns as the bits of a word, among them each in which a print is noted that holds the wanted bits.
    pub fn columns_of(&self, want: &Print) -> u64
        ensures { (print : List Bool) (column : ℕ) → column < 64 → Notes self.now print column
            → Holds print want.now → bit_at result column ≡ 1 }
    {
        let mut columns = u64::MAX;
        let words = want.words();
        for place in 0..16usize {
            columns = narrow(self.words.as_slice(), words[place], place, columns);
            if columns == 0 {
                return columns;
            }
        }
        columns
    }
}

/// True if a column is among these.
pub fn has_column(columns: u64, column: u8) -> bool
    ensures { column < 64 → bit_at columns column ≡ 1 → IsTrue result }
{
    (columns >> (column % 64)) & 1 == 1
}

// Adds a column to the row of each bit of words.
fn note_words(rows: &mut [u64], words: &[u64; 16], column: u8)
    requires rows { length rows.old ≡ ROWS }
    requires column { column < 64 }
    ensures noted { (bit : ℕ) → HasBit (bits_of words.now) bit
        → HasBit (bits_of rows.new) (64 * bit + column) }
    ensures kept { (bit : ℕ) → HasBit (bits_of rows.old) bit → HasBit (bits_of rows.new) bit }
    ensures length { length rows.new ≡ ROWS }
{
    for place in 0..16u16 {
        note_word(rows, words[usize::from(place)], place, column);
    }
}

// Adds a column to the row of each bit of a word, which is at `place` among the words of a print.
fn note_word(rows: &mut [u64], word: u64, place: u16, column: u8)
    requires rows { length rows.old ≡ ROWS }
    requires place { place < 16 }
    requires column { column < 64 }
    ensures noted { (bit : ℕ) → bit < 64 → bit_at word bit ≡ 1
        → HasBit (bits_of rows.new) (64 * (64 * place + bit) + column) }
    ensures kept { (bit : ℕ) → HasBit (bits_of rows.old) bit → HasBit (bits_of rows.new) bit }
    ensures length { length rows.new ≡ ROWS }
{
    let mut rest = word;
    while rest != 0 {
        let bit = rest.trailing_zeros() as u16;
        set_bit(rows, 64 * (64 * place + bit) + u16::from(column));
        rest &= !(1 << bit);
    }
}

// Sets a bit.
fn set_bit(words: &mut [u64], bit: u16)
    requires { bit < 64 * length words.old }
    ensures value { bits_of words.new ≡ slice_set (bits_of words.old) bit true }
    ensures length { length words.new ≡ length words.old }
{
    words[usize::from(bit / 64)] |= 1 << (bit % 64);
}

// The columns among these that are in the row of each bit of a word, which is at `place` among the words of a print.
fn narrow(rows: &[u64], word: u64, place: usize, columns: u64) -> u64
    requires rows { length rows.now ≡ ROWS }
    requires place { place < 16 }
    ensures { (column : ℕ) → column < 64 → bit_at columns column ≡ 1
        → ((bit : ℕ) → bit < 64 → bit_at word bit ≡ 1
        → HasBit (bits_of rows.now) (64 * (64 * place + bit) + column))
        → bit_at result column ≡ 1 }
{
    let mut left = columns;
    let mut rest = word;
    while rest != 0 {
        let bit = rest.trailing_zeros() as usize;
        left &= rows[64 * place + bit];
        rest &= !(1 << bit);
    }
    left
}

// Sets in each word the bits of the word of `more` at its place.
fn unite(words: &mut [u64], more: &[u64])
    requires { length words.old ≡ length more.now }
    ensures length { length words.new ≡ length words.old }
    ensures own { (bit : ℕ) → HasBit (bits_of words.old) bit → HasBit (bits_of words.new) bit }
    ensures others { (bit : ℕ) → HasBit (bits_of more.now) bit → HasBit (bits_of words.new) bit }
{
    for place in 0..words.len() {
        words[place] |= more[place];
    }
}
