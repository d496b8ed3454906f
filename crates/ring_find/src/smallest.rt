//! The smallest ring of each atom, from the smallest ring of each of its bonds.
ghost use Rattle.std.specs.Prelude.{◌≡◌, ◌≢◌, ◌<◌, ℕ, length, slice_index, IfOk};
ghost use Rattle.chem_core.specs.RingFacts.{AreSmallestRings};
ghost use Rattle.ring_find.specs.BondRings.{AreBondRings};
ghost use Rattle.ring_find.specs.Least.{IsLesser};

use chem_core::Adjacency;
use std::alloc::{AllocError, Global};

/// For each atom the length of its smallest ring, the least of its bonds' lengths; 0 if it is in no ring.
pub fn smallest_rings(
    alloc: Global,
    graph: &Adjacency<'_>,
    lengths: &[u16],
) -> Result<Vec<u16>, AllocError>
    requires { AreBondRings graph.now.ends lengths.now }
    ensures { IfOk result (λ small. AreSmallestRings graph.now.atoms graph.now.ends small.items) }
{
    let ends = graph.ends();
    let mut small: Vec<u16> = vec![in alloc; 0u16; graph.atoms()]?;
    for place in 0..ends.len() {
        lower_ends(&mut small, ends[place], lengths[place]);
    }
    Ok(small)
}

// Lowers the lengths of a bond's two ends to the bond's, if that is less.
fn lower_ends(small: &mut [u16], ends: (u16, u16), ring: u16)
    requires one { ends.0 < length small.old }
    requires other { ends.1 < length small.old }
    requires apart { ends.0 ≢ ends.1 }
    ensures one { IsLesser (slice_index small.old ends.0) ring (slice_index small.new ends.0) }
    ensures other { IsLesser (slice_index small.old ends.1) ring (slice_index small.new ends.1) }
    ensures others { (v : ℕ) → v ≢ ends.0 → v ≢ ends.1 → slice_index small.new v ≡ slice_index small.old v }
{
    let one = usize::from(ends.0);
    let other = usize::from(ends.1);
    small[one] = lesser(small[one], ring);
    small[other] = lesser(small[other], ring);
}

// The lesser of two lengths; 0 is no length.
fn lesser(one: u16, other: u16) -> u16
    ensures { IsLesser one other result }
{
    if one == 0 || (other != 0 && other < one) {
        other
    } else {
        one
    }
}
