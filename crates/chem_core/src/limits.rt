//! The limits on structures. Counts are those of the structure as it is read, with hydrogen atoms.
ghost use Rattle.std.specs.Prelude.{◌≢◌, ◌<◌, ◌≤◌, ◌↔◌, ℕ, IfOk, IsTrue};
ghost use Rattle.std.specs.List.{AllByRecursion};
ghost use Rattle.chem_core.specs.Graph.{degree};
ghost use Rattle.chem_core.specs.Sound.{ends_among};

use crate::sketch::SketchBond;
use std::alloc::{AllocError, Global};

/// The most atoms of a structure.
pub const MOST_ATOMS: usize = 999;

/// The most bonds of a structure.
pub const MOST_BONDS: usize = 999;

/// The most neighbours of an atom.
pub const MOST_NEIGHBOURS: usize = 12;

/// True if at most `MOST_NEIGHBOURS` of the bonds of a structure of `atoms` atoms end at each atom. Fails only for want
/// of memory. Both readers of structures check a sketch by it.
pub fn are_few_neighbours(
    alloc: Global,
    atoms: usize,
    bonds: &[SketchBond],
) -> Result<bool, AllocError>
    requires { AllByRecursion (λ b. (b.a < atoms) × (b.b < atoms) × (b.a ≢ b.b)) bonds.now }
    ensures { IfOk result
        (λ r. IsTrue r ↔ ((a : ℕ) → degree (ends_among bonds.now) a ≤ MOST_NEIGHBOURS)) }
{
    let mut counts = vec![in alloc; 0usize; atoms]?;
    for bond in bonds {
        let first = usize::from(bond.a);
        let second = usize::from(bond.b);
        counts[first] += 1;
        counts[second] += 1;
        if counts[first] > MOST_NEIGHBOURS || counts[second] > MOST_NEIGHBOURS {
            return Ok(false);
        }
    }
    Ok(true)
}
