//! Bits of words: numbered from 0, beginning with the lowest bit of the first word.
ghost use Rattle.std.specs.Prelude.{◌≡◌, ◌↔◌, ◌*◌, ◌<◌, true, length, slice_set, IsTrue};
ghost use Rattle.chem_core.specs.Bits.{HasBit};
ghost use Rattle.chem_core.specs.Words.{bits_of};

/// True if a bit is set. No bit after the last word is set.
pub fn has_bit(words: &[u64], bit: u16) -> bool
    ensures { IsTrue result ↔ HasBit (bits_of words.now) bit }
{
    match words.get(usize::from(bit / 64)) {
        Some(word) => (*word >> (bit % 64)) & 1 == 1,
        None => false,
    }
}

/// Sets a bit.
pub fn set_bit(words: &mut [u64], bit: u16)
    requires { bit < 64 * length words.old }
    ensures { bits_of words.new ≡ slice_set (bits_of words.old) bit true }
{
    words[usize::from(bit / 64)] |= 1 << (bit % 64);
}
