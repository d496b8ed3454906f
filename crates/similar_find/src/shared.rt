//! The bits that two prints have in common.
ghost use Rattle.std.specs.Prelude.{◌≡◌, ◌*◌, ◌≤◌, Bool, length, List};
ghost use Rattle.chem_core.specs.Bits.{set_bits, shared_bits};
ghost use Rattle.similar_find.specs.Score.{all_bits};

use chem_core::Print;

/// The number of bits in both of two prints, and in at least one, by the number of bits in each. Takes no memory.
pub fn score(left: &Print, left_bits: u32, right: &Print, right_bits: u32) -> (u32, u32)
    requires left { left_bits ≡ set_bits left.now }
    requires right { right_bits ≡ set_bits right.now }
    ensures shared { result.0 ≡ shared_bits left.now right.now }
    ensures all { result.1 ≡ all_bits left.now right.now }
    ensures part { result.0 ≤ result.1 }
    ensures few { result.1 ≤ 1024 }
{
    // All prints are of one length.
    let _ = right.has(0);
    let shared = left.count_shared(right);
    (shared, left_bits + right_bits - shared)
}

/// A fraction `c / u` that two prints do not exceed, by the number of bits in each. At most the fewer are in both, and
/// at least the more are in one of them. For two prints without bits it is `0 / 1`.
pub fn most_alike(left_bits: u32, right_bits: u32) -> (u32, u32)
    ensures some { 1 ≤ result.1 }
    ensures bound { (left right : List Bool) → length left ≡ length right
        → set_bits left ≡ left_bits → set_bits right ≡ right_bits
        → shared_bits left right * result.1 ≤ result.0 * all_bits left right }
{
    let fewer = left_bits.min(right_bits);
    let more = left_bits.max(right_bits);
    (fewer, more.max(1))
}
